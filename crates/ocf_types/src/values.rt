//! Values of parameters.
ghost use Rattle.std.specs.Prelude.{◌≡◌, ◌==◌, ◌≤◌, not, length, Err, IsTrue, IfOk};
ghost use Rattle.std.specs.List.{list_all};
ghost use Rattle.ocf_types.specs.Values.{is_param_value, IsValueOrRefused};

use crate::limits::VALUE_LIMIT;
use growth::{Grows, Refused, text_of};
use std::alloc::{Allocator, Global};
use std::marker::Model;
use std::str::from_utf8;
use thiserror::Error;

/// Why a value was not made, or a parameter not set.
#[derive(Clone, Copy, Debug, PartialEq, Eq, Error)]
pub enum ValueError {
    /// The text is not a value, or there are 64 parameters of other names already.
    #[error("not a value: at most 1,024 bytes of UTF-8 without NUL, in at most 64 parameters")]
    BadValue,
    /// An allocation was refused.
    #[error("out of memory")]
    Memory,
}

fn has_no_nul(bytes: &[u8]) -> bool
    ensures { result ≡ list_all (λ b. not (b == 0)) bytes.now }
{
    !bytes.contains(&0)
}

/// The value of an instance parameter: at most 1,024 bytes of UTF-8 without NUL.
#[derive(Drop)]
pub struct ParamValue<A: Allocator = Global> {
    text: String<A>,
}

impl<A: Allocator> Model for ParamValue<A> {
    ghost use Rattle.std.specs.Prelude.{List, ℕ, IsTrue};
    ghost use Rattle.std.specs.String.{string_bytes};
    ghost use Rattle.ocf_types.specs.Values.{is_param_value};

    ghost Value = { List ℕ };

    ghost view = { λ v. string_bytes v.text };

    ghost invariant = { λ v. IsTrue (is_param_value (string_bytes v.text)) };
}

impl<A: Grows> ParamValue<A> {
    /// The value with these bytes. `BadValue` is found before any memory is asked for.
    #[tactic(auto, using(crate::proofs::ValueLemmas::is_value, crate::proofs::ValueLemmas::is_no_value))]
    pub fn new(alloc: A, bytes: &[u8]) -> Result<Self, ValueError>
        ensures value { IsValueOrRefused result bytes.now }
        ensures memory { result ≡ Err ValueError.Memory → IsTrue A.refuses }
    {
        if bytes.len() > VALUE_LIMIT || !has_no_nul(bytes) {
            return Err(ValueError::BadValue);
        }
        match from_utf8(bytes) {
            Ok(text) => match text_of(alloc, text) {
                Ok(text) => Ok(ParamValue { text }),
                Err(_) => Err(ValueError::Memory),
            },
            Err(_) => Err(ValueError::BadValue),
        }
    }
}

impl<A: Allocator> ParamValue<A> {
    /// The text of the value.
    #[tactic(auto, using(crate::specs::LengthLemmas::value_short))]
    pub fn as_str(&self) -> &str
        ensures bytes { result.now ≡ self.now }
        ensures lawful { IsTrue (is_param_value result.now) }
        ensures short { length result.now ≤ VALUE_LIMIT }
    {
        self.text.as_str()
    }
}

impl<A: Grows> ParamValue<A> {
    /// A copy of the value. The only error is a refused allocation.
    pub fn copied(&self, alloc: A) -> Result<Self, Refused<A>>
        ensures value { IfOk result (λ value. value ≡ self.now) }
    {
        let text = text_of(alloc, self.text.as_str())?;
        Ok(ParamValue { text })
    }
}
