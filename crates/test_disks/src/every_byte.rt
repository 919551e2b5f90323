//! Every byte of a journal with one record, in both layouts, set to each other value.
use crate::parts::{FIRST, disk_with, found_on};
use exec_journal::{Cause, Damage, JournalFault};
use ocf_types::{Layout, Part};
use std::alloc::Global;

// The offset of a part's version: after its gate and four bytes of magic.
const VERSION_AT: usize = 5;

// The index of a cause's count.
fn index_of(cause: Cause) -> usize {
    match cause {
        Cause::Cut => 1,
        Cause::Magic => 2,
        Cause::Version => 3,
        Cause::Epoch => 4,
        Cause::Closed => 5,
        Cause::State => 6,
        Cause::Long => 7,
        Cause::Event => 8,
        Cause::Order => 9,
    }
}

// Whether damage may be reported at this offset: at the beginning of part A, or at one of its gates.
fn may_stand(damage: &Damage) -> bool {
    damage.part == Part::A && [0, 44, 78].contains(&damage.at)
}

// Opens a journal on this part with a byte set to another value. Returns the index of the count of what is found.
fn found(alloc: Global, journal: &[u8], index: usize, byte: u8) -> Option<usize> {
    let mut part = journal.to_vec(alloc).ok()?;
    *part.get_mut(index)? = byte;
    match found_on(alloc, disk_with(alloc, part.as_slice(), &[])?) {
        Ok(_) => Some(0),
        Err(JournalFault::Damaged(damage)) if may_stand(&damage) => Some(index_of(damage.cause)),
        Err(_) => None,
    }
}

// Counts the openings with each other byte at an offset, by a state or each cause of damage.
fn count(alloc: Global, journal: &[u8], index: usize, counts: &mut [u32; 10]) -> Option<()> {
    let byte = *journal.get(index)?;
    for other in 0..=255 {
        if other != byte {
            let counter = counts.get_mut(found(alloc, journal, index, other)?)?;
            *counter = counter.saturating_add(1);
        }
    }
    Some(())
}

fn counts(alloc: Global, journal: &[u8]) -> Option<[u32; 10]> {
    let mut counts = [0; 10];
    for index in 0..journal.len() {
        count(alloc, journal, index, &mut counts)?;
    }
    Some(counts)
}

// The counts of an independent program: how many openings find a state, or each damage. The version of the other layout is read, too.
const COUNTS: [(&str, u32); 10] = [
    ("a state", 8_256),
    ("cut", 1_314),
    ("magic", 1_020),
    ("version", 254),
    ("epoch", 1),
    ("closed", 255),
    ("state", 2_009),
    ("long", 639),
    ("event", 4_836),
    ("order", 1_561),
];

// The first count that differs: what was found, how often that is expected, and how often it was found.
fn difference(counts: &[u32; 10]) -> Option<(&'static str, u32, u32)> {
    for ((name, wanted), count) in COUNTS.iter().zip(counts.iter()) {
        if count != wanted {
            return Some((name, *wanted, *count));
        }
    }
    None
}

#[test]
fn every_byte_is_read_as_it_is(rt: HostRuntime) {
    let counts = counts(rt.alloc(), FIRST).expect(&rt, "damage where none may be, or no memory");
    assert_eq!(rt; difference(&counts), None);
}

// The same journal in the first layout, which differs only in its version.
fn in_first_layout(alloc: Global) -> Option<Vec<u8>> {
    let mut part = FIRST.to_vec(alloc).ok()?;
    *part.get_mut(VERSION_AT)? = Layout::First.byte();
    Some(part)
}

#[test]
fn every_byte_of_the_first_layout_is_read_as_it_is(rt: HostRuntime) {
    let part = in_first_layout(rt.alloc()).expect(&rt, "no memory");
    let counts = counts(rt.alloc(), part.as_slice()).expect(&rt, "damage where none may be");
    assert_eq!(rt; difference(&counts), None);
}
