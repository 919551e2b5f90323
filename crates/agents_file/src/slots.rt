//! Which slots of the file are free.
ghost use Rattle.std.specs.Prelude.{◌≡◌, ◌≢◌, ◌<◌, IfNone, IfSome, Some, All, false, slice_get};

/// How many entries the file has.
pub const SLOTS: usize = 512;

/// The slots of the file, each free or used.
#[derive(Drop)]
pub(crate) struct Slots {
    used: [bool; SLOTS],
}

impl Slots {
    /// All free.
    pub fn new() -> Slots {
        Slots {
            used: [false; SLOTS],
        }
    }

    /// The first slot that is free.
    pub fn free(&self) -> Option<usize>
        ensures free { IfSome result (λ slot. slice_get self.now.used slot ≡ Some false) }
        ensures none { IfNone result (All (λ used. used ≢ false) self.now.used) }
    {
        self.used.iter().position(|used| !*used)
    }

    /// Marks a slot as used or free. A number that no slot has changes nothing.
    pub fn set(&mut self, slot: usize, is_used: bool)
        ensures { slot < SLOTS → slice_get self.new.used slot ≡ Some is_used }
    {
        if slot < SLOTS {
            self.used[slot] = is_used;
        }
    }
}
