//! Objects whose members are all texts, from which parameters are made.
ghost use Rattle.std.specs.Prelude.{◌≡◌, ◌≢◌, [], None, Ok, Err, IfOk, IfErr, IsTrue};
ghost use Rattle.serde_json.specs.View.{view, members_view};
ghost use Rattle.ocf_model.specs.declared.refusal.Refusal.TheVariants.{Memory};
ghost use Rattle.exec_commands.specs.Keys.{typed, texts, member_texts, texts_seen, are_ascending, params_at, params_if_there};

use growth::{Grows, push};
use ocf_model::Refusal;
use serde_json::{Map, Value};
use std::alloc::Global;
use std::marker::Model;

/// The members of an object, each of them a text, in order of their names.
#[derive(Drop)]
pub struct Texts<'a> {
    members: Vec<(&'a str, &'a str)>,
}

impl<'a> Model for Texts<'a> {
    ghost use Rattle.std.specs.Prelude.{None, IsTrue};
    ghost use Rattle.ocf_types.specs.Params.{ParamList};
    ghost use Rattle.exec_commands.specs.Keys.{texts_seen, are_ascending};

    ghost Value = { ParamList };

    ghost view = { λ t. texts_seen t.members.items };

    ghost invariant = { λ t. IsTrue (are_ascending None (texts_seen t.members.items)) };
}

#[tactic(auto, using(crate::proofs::TextLemmas::no_text))]
fn member_texts<'a>(
    alloc: Global,
    object: &'a Map<String, Value>,
) -> Result<Vec<(&'a str, &'a str)>, Refusal>
    ensures ok { IfOk result
        (λ t. typed (member_texts (members_view object.now.entries)) ≡ Ok (texts_seen t.items)) }
    ensures sorted { IfOk result (λ t. IsTrue (are_ascending None (texts_seen t.items))) }
    ensures err { IfErr result
        (λ e. e ≢ Memory → typed (member_texts (members_view object.now.entries)) ≡ Err e) }
    ensures memory { IfErr result (λ e. e ≡ Memory → IsTrue ⟦<Global as Grows>⟧.refuses) }
{
    let mut members = Vec::new(alloc);
    for (name, member) in object.iter() {
        let Some(text) = member.as_str() else {
            return Err(Refusal::Syntax);
        };
        if push(&mut members, (name.as_str(), text)).is_err() {
            return Err(Refusal::Memory);
        }
    }
    Ok(members)
}

impl<'a> Texts<'a> {
    /// No members. It allocates nothing.
    pub fn new(alloc: Global) -> Self
        ensures { result ≡ [] }
    {
        Texts {
            members: Vec::new(alloc),
        }
    }

    /// The members of an object of texts; any other value is refused as syntax.
    pub fn read(alloc: Global, found: &'a Value) -> Result<Self, Refusal>
        ensures ok { IfOk result (λ t. typed (texts (view found.now)) ≡ Ok t) }
        ensures err { IfErr result (λ e. e ≢ Memory → typed (texts (view found.now)) ≡ Err e) }
        ensures memory { IfErr result (λ e. e ≡ Memory → IsTrue ⟦<Global as Grows>⟧.refuses) }
    {
        match found.as_object() {
            Some(object) => Ok(Texts {
                members: member_texts(alloc, object)?,
            }),
            None => Err(Refusal::Syntax),
        }
    }

    /// The members in order.
    pub fn as_slice(&self) -> &[(&'a str, &'a str)]
        ensures members { texts_seen result.now ≡ self.now }
        ensures sorted { IsTrue (are_ascending None self.now) }
    {
        self.members.as_slice()
    }
}

/// The parameters of a line.
pub fn params_at<'a>(alloc: Global, line: &'a Value) -> Result<Texts<'a>, Refusal>
    ensures ok { IfOk result (λ t. params_at (view line.now) ≡ Ok t) }
    ensures err { IfErr result (λ e. e ≢ Memory → params_at (view line.now) ≡ Err e) }
    ensures memory { IfErr result (λ e. e ≡ Memory → IsTrue ⟦<Global as Grows>⟧.refuses) }
{
    match line.get("params") {
        Some(found) => Texts::read(alloc, found),
        None => Err(Refusal::Syntax),
    }
}

/// The parameters of a line; they are optional.
pub fn params_if_there<'a>(alloc: Global, line: &'a Value) -> Result<Texts<'a>, Refusal>
    ensures ok { IfOk result (λ t. params_if_there (view line.now) ≡ Ok t) }
    ensures err { IfErr result (λ e. e ≢ Memory → params_if_there (view line.now) ≡ Err e) }
    ensures memory { IfErr result (λ e. e ≡ Memory → IsTrue ⟦<Global as Grows>⟧.refuses) }
{
    match line.get("params") {
        Some(found) => Texts::read(alloc, found),
        None => Ok(Texts::new(alloc)),
    }
}
