//! A record of device calls that only contracts read: it takes no memory.
ghost use Rattle.std.specs.Prelude.{List};
ghost use Rattle.std.specs.Borrow.{ftrue};
ghost use Rattle.disk_model.specs.Image.{Image};
ghost use Rattle.file_disk.specs.Past.{Event};

use crate::call::Call;
use ocf_types::Part;
use std::marker::{Model, PhantomData};

/// The bytes that were found in both parts, and each call since, the newest first.
///
/// The program holds nothing of it. So its functions have no body to speak of, and are proved by hand.
#[derive(Drop)]
pub struct Record {
    nothing: PhantomData<Call>,
    pub ghost first: { Image },
    pub ghost events: { List Event },
}

impl Model for Record {
    ghost also_owns = { λ _. ftrue };
}

impl Record {
    ghost use Rattle.file_disk.specs.Record.{Begins, Found, Noted};

    /// A record that begins with these bytes in part A and in part B.
    pub fn new(_a: &[u8], _b: &[u8]) -> Record
        ensures { Begins _a.now _b.now result }
    {
        Record {
            nothing: PhantomData,
        }
    }

    /// Adds bytes that were found in a part, behind those that were found there before.
    pub fn find(&mut self, _part: &Part, _bytes: &[u8])
        ensures { Found _part.now _bytes.now self.old self.new }
    {}

    /// Adds one call, with the bytes that were read or written.
    pub fn note(&mut self, _call: &Call, _bytes: &[u8])
        ensures { Noted _call.now _bytes.now self.old self.new }
    {}
}
