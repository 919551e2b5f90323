//! The status of all resources.
ghost use Rattle.std.specs.Prelude.{◌≡◌, ◌++◌, ◌∷◌, [], false, map, if◌then◌else◌, is_ok, IfOk, OnOk};
ghost use Rattle.serde_json.specs.Data.{string};
ghost use Rattle.serde_json.specs.View.{items_of, view};
ghost use Rattle.serde_json.specs.Written.{compact_text, has_float, items_have_float};
ghost use Rattle.exec_replies.specs.Objects.{object_with};
ghost use Rattle.exec_replies.specs.Service.{lent, statuses_data};
ghost use Rattle.exec_replies.specs.Tags.{marked};

use crate::marks::Marks;
use growth::{Grows, Refused, granted, push};
use serde_json::{Value, json, put};
use std::alloc::{AllocError, Global};

/// The status of all resources, a JSON value for each, in order. No value has a float, whose text no standard fixes.
#[derive(Drop)]
pub struct Statuses {
    values: Vec<Value>,
    ghost exact: { items_have_float (items_of (map view values.items)) ≡ false },
}

impl Statuses {
    /// No resources. It allocates nothing.
    pub fn new(alloc: Global) -> Self
        ensures { result.values.items ≡ [] }
    {
        Statuses {
            values: Vec::new(alloc),
        }
    }

    /// Adds the status of one more resource.
    #[tactic(auto, using(crate::proofs::StatusLemmas::one_more))]
    pub fn push(&mut self, status: Value) -> Result<(), Refused>
        requires exact { has_float (view status) ≡ false }
        ensures values { self.new.values.items
            ≡ (if is_ok result then self.old.values.items ++ status ∷ [] else self.old.values.items) }
    {
        push(&mut self.values, status)
    }
}

#[tactic(auto, using(growth::specs::Refused::refuses))]
fn copy_of(value: &Value) -> Result<Value, Refused>
    ensures value { IfOk result (λ v. view v ≡ view value.now) }
{
    // TRUSTED: it fails only where the memory that it takes is refused.
    granted(value.clone())
}

fn copied(alloc: Global, values: &[Value]) -> Result<Vec<Value>, Refused>
    ensures values { IfOk result (λ v. map view v.items ≡ map view values.now) }
{
    let mut copies = Vec::new(alloc);
    Global::reserve_for(&mut copies, values)?;
    for value in values {
        push(&mut copies, copy_of(value)?)?;
    }
    Ok(copies)
}

// The reply with these values, without marks.
#[tactic(auto, using(growth::specs::Refused::refuses))]
fn object_of(alloc: Global, values: Vec<Value>) -> Result<Value, Refused>
    ensures value { IfOk result (λ v. view v ≡ statuses_data (map view values.items)) }
{
    // TRUSTED: a `json!` fails only where the memory that it takes is refused.
    granted(json!(in alloc; {"ok": true, "status": values}))
}

// The reply with the status of all resources, without marks.
#[tactic(auto, using(crate::proofs::StatusLemmas::statuses_no_float))]
fn statuses_value(alloc: Global, statuses: &Statuses) -> Result<Value, Refused>
    ensures value { IfOk result (λ v. view v ≡ statuses_data (map view statuses.now.values.items)) }
    ensures exact { IfOk result (λ v. has_float (view v) ≡ false) }
{
    let values = copied(alloc, statuses.values.as_slice())?;
    object_of(alloc, values)
}

fn text_put(alloc: Global, object: &mut Value, key: &str, text: &str) -> Result<(), AllocError>
    ensures { OnOk result
        (view object.new ≡ object_with key.now (string text.now) (view object.old)) }
{
    let text = Value::try_from_str(alloc, text)?;
    if let Some(members) = object.as_object_mut() {
        put(members, alloc, key, text)?;
    }
    Ok(())
}

// Puts a text into an object.
#[tactic(auto, using(growth::specs::Refused::refuses))]
fn put_text(alloc: Global, object: &mut Value, key: &str, text: &str) -> Result<(), Refused>
    ensures { OnOk result
        (view object.new ≡ object_with key.now (string text.now) (view object.old)) }
{
    // TRUSTED: it fails only where the memory that it takes is refused.
    granted(text_put(alloc, object, key, text))
}

// Puts the kind and the tag of its line into an object.
fn put_marks(alloc: Global, object: &mut Value, marks: Marks) -> Result<(), Refused>
    ensures value { OnOk result
        (view object.new ≡ marked marks.entry.kind (lent marks.entry.tag) (view object.old)) }
{
    if let Some(kind) = marks.kind {
        put_text(alloc, object, "kind", kind.word())?;
    }
    if let Some(tag) = marks.tag {
        put_text(alloc, object, "tag", tag)?;
    }
    Ok(())
}

/// The compact text of a value without a float.
#[tactic(auto, using(growth::specs::Refused::refuses))]
pub fn value_text(alloc: Global, value: &Value) -> Result<Vec<u8>, Refused>
    requires exact { has_float (view value.now) ≡ false }
    ensures text { IfOk result (λ b. b.items ≡ compact_text (view value.now)) }
{
    // TRUSTED: it fails only where the memory that it takes is refused.
    granted(value.to_vec(alloc))
}

/// The line with the status of all resources.
#[tactic(auto, using(crate::proofs::TagLemmas::marked_no_float))]
pub fn status_line(alloc: Global, marks: Marks, statuses: &Statuses) -> Result<Vec<u8>, Refused>
    ensures line { IfOk result (λ b. b.items
        ≡ compact_text (marked marks.entry.kind (lent marks.entry.tag) (statuses_data (map view statuses.now.values.items))) ++ 10 ∷ []) }
{
    let mut value = statuses_value(alloc, statuses)?;
    put_marks(alloc, &mut value, marks)?;
    let mut bytes = value_text(alloc, &value)?;
    push(&mut bytes, b'\n')?;
    Ok(bytes)
}
