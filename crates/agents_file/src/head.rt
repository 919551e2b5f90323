//! The head of the file.
ghost use Rattle.std.specs.Prelude.{◌≡◌, ◌≢◌, ◌+◌, ◌-◌, ◌≤◌, ◌<◌, ◌^◌, ◌↔◌, IfNone, IfSome, IsTrue, Some, length};
ghost use Rattle.agents_file.specs.Entries.{IsHead, head_line, head_text};
ghost use Rattle.agents_file.specs.declared.head.Head.{Head};

use crate::line::{Fields, LINE_LEN, add_field, add_number, cut, number, padded};
use arrayvec::ArrayVec;

// The word that a head begins with: the name of the file, and the number of its layout.
const WORD: &[u8] = b"agents-1";

/// The length of the identifier of a boot, in bytes. Linux, random(4).
pub const BOOT_ID_LEN: usize = 36;

/// The head of the file: the boot of the system in which its executor runs, and a moment of the executor's clock, read together with
/// the system's clock.
#[derive(Clone, Copy)]
pub struct Head {
    /// The identifier of the boot: `/proc/sys/kernel/random/boot_id`. Linux, random(4).
    pub boot: [u8; BOOT_ID_LEN],
    /// A moment of the executor's clock, in milliseconds since 1970, as in the journal.
    pub moment: u64,
    /// The reading of CLOCK_MONOTONIC at that moment, in milliseconds. POSIX, clock_gettime.
    pub monotonic: u64,
}

impl Head {
    /// Whether it is of this boot.
    pub fn is_of(&self, boot: &[u8; BOOT_ID_LEN]) -> bool
        ensures { IsTrue result ↔ (self.now.boot ≡ boot.now) }
    {
        self.boot[..] == boot[..]
    }

    /// The moment of the executor's clock at this reading of CLOCK_MONOTONIC, in milliseconds.
    pub fn moment_at(self, monotonic: u64) -> u64
        ensures { self.moment + (monotonic - self.monotonic) < 2 ^ 64
            → result ≡ self.moment + (monotonic - self.monotonic) }
    {
        self.moment
            .saturating_add(monotonic.saturating_sub(self.monotonic))
    }
}

// The fields of a head.
fn head_text(head: &Head) -> Fields
    ensures text { result.items ≡ head_text head.now }
    ensures short { length result.items ≤ 255 }
{
    let mut fields = ArrayVec::new();
    add_field(&mut fields, WORD);
    add_field(&mut fields, &head.boot);
    add_number(&mut fields, head.moment);
    add_number(&mut fields, head.monotonic);
    fields
}

/// The line of a head.
pub fn head_line(head: &Head) -> [u8; LINE_LEN]
    ensures { result ≡ head_line head.now }
{
    padded(head_text(head).as_slice())
}

// The head that a line seems to be of: the caller checks it.
fn head_in(line: &[u8]) -> Option<Head>
    ensures { (h : Head) → IsHead h → line.now ≡ head_line h → result ≡ Some h }
{
    let (_, rest) = cut(line);
    if rest.len() < BOOT_ID_LEN {
        return None;
    }
    let (found, rest) = rest.split_at(BOOT_ID_LEN);
    let (_, rest) = cut(rest);
    let (moment, rest) = cut(rest);
    let (monotonic, _) = cut(rest);
    let mut boot = [0; BOOT_ID_LEN];
    boot.copy_from_slice(found);
    Some(Head {
        boot,
        moment: number(moment),
        monotonic: number(monotonic),
    })
}

/// The head of a line; `None` exactly when it is the line of no head.
pub fn head_of(line: &[u8]) -> Option<Head>
    ensures some { IfSome result (λ h. line.now ≡ head_line h) }
    ensures none { IfNone result ((h : Head) → IsHead h → line.now ≢ head_line h) }
{
    let head = head_in(line)?;
    let written = head_line(&head);
    if line == &written[..] {
        Some(head)
    } else {
        None
    }
}
