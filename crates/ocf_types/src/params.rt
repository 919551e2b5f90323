//! Parameters, sorted by name.
ghost use Rattle.std.specs.Prelude.{◌≡◌, ◌↔◌, ◌<◌, ◌++◌, [], ◌∷◌, None, true, false, length, count_by, IsOk, OnOk, OnErr};
ghost use Rattle.std.specs.Prelude.{Err, IfOk, IsTrue};
ghost use Rattle.ocf_types.specs.Params.{AreParams, is_before, is_after, last_name, has_param, with_param};

use crate::limits::PARAMS_LIMIT;
use crate::param_name::ParamName;
use crate::values::{ParamValue, ValueError};
use growth::{Grows, Refused, push};
use std::alloc::{Allocator, Global};
use std::marker::Model;

fn is_before(a: &ParamName, b: &ParamName) -> bool
    ensures { result ≡ is_before a.now b.now }
{
    a.as_bytes().cmp(&b.as_bytes()).is_lt()
}

fn lesser_names<A: Allocator>(entries: &[(ParamName, ParamValue<A>)], name: &ParamName) -> usize
    ensures { result ≡ count_by (λ p. is_before p.0 name.now) entries.now }
{
    entries.iter().filter(|p| is_before(&p.0, name)).count()
}

#[tactic(auto, using(crate::proofs::InsertLemmas::there_at, crate::proofs::InsertLemmas::none_at))]
fn is_there<A: Allocator>(
    entries: &[(ParamName, ParamValue<A>)],
    index: usize,
    name: &ParamName,
) -> bool
    requires lawful { AreParams entries.now }
    requires index { index ≡ count_by (λ p. is_before p.0 name.now) entries.now }
    ensures { result ≡ has_param name.now entries.now }
{
    match entries.get(index) {
        Some(entry) => entry.0.as_bytes() == name.as_bytes(),
        None => false,
    }
}

/// The instance parameters of a resource: at most 64, sorted by name. OCF Resource Agent API 1.1, OCF_RESKEY_.
#[derive(Drop)]
pub struct Params<A: Allocator = Global> {
    entries: Vec<(ParamName, ParamValue<A>), A>,
}

impl<A: Allocator> Model for Params<A> {
    ghost use Rattle.ocf_types.specs.Params.{ParamList, AreParams};

    ghost Value = { ParamList };

    ghost view = { λ p. p.entries.items };

    ghost invariant = { λ p. AreParams p.entries.items };
}

impl<A: Allocator> Params<A> {
    /// No parameters. It takes no memory.
    pub fn new(alloc: A) -> Self
        ensures { result ≡ [] }
    {
        Params {
            entries: Vec::new(alloc),
        }
    }

    /// Names and values in order.
    pub fn as_slice(&self) -> &[(ParamName, ParamValue<A>)]
        ensures entries { result.now ≡ self.now }
        ensures lawful { AreParams result.now }
    {
        self.entries.as_slice()
    }

    /// Whether the name comes after all names of the list.
    #[tactic(auto, using(crate::proofs::ParamsLemmas::last_name_is))]
    pub fn is_after(&self, name: &ParamName) -> bool
        ensures { result ≡ is_after (last_name None self.now) name.now }
    {
        match self.entries.last() {
            None => true,
            Some(last) => last.0.as_bytes().cmp(&name.as_bytes()).is_lt(),
        }
    }
}

impl<A: Grows> Params<A> {
    /// Appends a parameter whose name comes after all names of the list.
    #[tactic(auto, using(crate::proofs::ParamsLemmas::AreParams_push))]
    pub fn push(&mut self, name: ParamName, value: ParamValue<A>) -> Result<(), Refused<A>>
        requires room { length self.old < PARAMS_LIMIT }
        requires after { IsTrue (is_after (last_name None self.old) name) }
        ensures ok { OnOk result (self.new ≡ self.old ++ (name, value) ∷ []) }
        ensures err { OnErr result (self.new ≡ self.old) }
    {
        let _ = name.as_bytes();
        let _ = value.as_str();
        push(&mut self.entries, (name, value))?;
        Ok(())
    }

    /// Sets a parameter: replaces the value of one of the same name, or inserts it in the order of names. The error is
    /// `BadValue` exactly when it would be the 65th. Replacing a value takes no memory.
    pub fn insert(&mut self, name: ParamName, value: ParamValue<A>) -> Result<(), ValueError>
        ensures ok { OnOk result (self.new ≡ with_param name value self.old) }
        ensures full { result ≡ Err ValueError.BadValue
            ↔ ((length self.old ≡ PARAMS_LIMIT) × (has_param name self.old ≡ false)) }
        ensures replaces { has_param name self.old ≡ true → IsOk result }
        ensures err { OnErr result (self.new ≡ self.old) }
        ensures memory { result ≡ Err ValueError.Memory → IsTrue A.refuses }
    {
        let _ = name.as_bytes();
        let _ = value.as_str();
        let index = lesser_names(self.entries.as_slice(), &name);
        if is_there(self.entries.as_slice(), index, &name) {
            self.entries[index] = (name, value);
            return Ok(());
        }
        if self.entries.len() == PARAMS_LIMIT {
            return Err(ValueError::BadValue);
        }
        if A::reserve(&mut self.entries, 1).is_err() {
            return Err(ValueError::Memory);
        }
        if self.entries.insert(index, (name, value)).is_err() {
            unreachable!()
        }
        Ok(())
    }
}

impl<A: Grows> Params<A> {
    /// A copy of the parameters. The only error is a refused allocation.
    pub fn copied(&self, alloc: A) -> Result<Self, Refused<A>>
        ensures params { IfOk result (λ params. params ≡ self.now) }
    {
        let mut entries = Vec::new(alloc);
        for (name, value) in self.entries.as_slice() {
            push(&mut entries, (name.copied(), value.copied(alloc)?))?;
        }
        Ok(Params { entries })
    }
}
