//! Slots read from disks that fail or answer anything. Each opening of a journal tests the other cases.
use crate::parts::disk_with;
use disk_model::Disk;
use disk_model::wild::WildDisk;
use gated_slots::{Frame, SlotRead, read_slot};
use ocf_types::Part;
use std::alloc::Global;

// Reads the slot at a gate of a part.
fn read<D: Disk>(alloc: Global, disk: &mut D, part: Part, at: u64) -> Option<(SlotRead, Frame)> {
    let mut frame = Frame::new(alloc).ok()?;
    let found = read_slot(disk, part, at, &mut frame);
    Some((found, frame))
}

// Reads a slot while that device call fails: that of the length, the gate, the length of the body or the body. Returns the result,
// and the counts of calls and failures.
fn failed(alloc: Global, call: u64) -> Option<(SlotRead, u64, u64)> {
    let mut disk = disk_with(alloc, &[], &[1, 0, 0, 0, 1, 5, 1])?;
    disk.plan_fault(call);
    let (found, _) = read(alloc, &mut disk, Part::B, 0)?;
    Some((found, disk.clock(), disk.failures()))
}

#[test]
fn a_reading_in_which_a_device_call_fails_is_reported(rt: HostRuntime) {
    for call in 1..=4 {
        let (found, calls, faults) = failed(rt.alloc(), call).expect(&rt, "out of memory");
        assert!(rt;
            found == SlotRead::Disk,
            "a fault of call {call} is not reported"
        );
        assert_eq!(rt; calls, call, "calls, the last of which failed");
        assert_eq!(rt; faults, 1, "faults, where call {call} failed");
    }
}

// Reads a slot of a disk that answers anything. Returns whether a fault was reported, the number of faults, and that of calls.
fn reading(alloc: Global, seed: u64) -> Option<(bool, u64, u64)> {
    let mut disk = WildDisk::new(seed);
    let (found, _) = read(alloc, &mut disk, Part::B, seed)?;
    Some((found == SlotRead::Disk, disk.failures(), disk.clock()))
}

#[test]
fn a_disk_that_answers_anything_is_read_by_four_calls(rt: HostRuntime) {
    for seed in 0..64 {
        let (reported, faults, calls) = reading(rt.alloc(), seed).expect(&rt, "out of memory");
        assert_eq!(rt; reported, faults == 1, "seed {seed}, {faults} faults");
        assert!(rt; calls <= 4, "seed {seed}: {calls} calls");
    }
}
