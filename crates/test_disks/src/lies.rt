//! Registrations on disks that answer anything, and on disks that lie.
use crate::liar::Liar;
use crate::parts::FIRST;
use crate::steps::{Reached, register};
use disk_model::Disk;
use executor::OpenError;
use ocf_model::Refusal;
use std::alloc::Global;

// Registers on a disk that answers anything. Returns whether a fault of the disk was reported, and how many the disk had.
fn faults(alloc: Global, seed: u64) -> Option<(bool, u64)> {
    let (reached, disk) = register(alloc, Liar::wild(seed), "r2")?;
    let reported = reached == Reached::NotOpened(OpenError::Disk);
    Some((reported, disk.failures()))
}

#[test]
fn a_fault_is_reported_exactly_where_a_disk_that_answers_anything_had_one(rt: HostRuntime) {
    for seed in 0..256 {
        let (reported, faults) = faults(rt.alloc(), seed).expect(&rt, "out of memory");
        assert_eq!(rt; reported, faults > 0, "seed {seed}, {faults} faults");
    }
}

// The numbers of registrations on disks that lie, by how they ended.
#[derive(Drop)]
struct Ends {
    damaged: u32,
    failed: u32,
    acknowledged: u32,
}

impl Ends {
    fn add(&mut self, reached: Reached) {
        let count = match reached {
            Reached::NotOpened(OpenError::Damaged(_)) => &mut self.damaged,
            Reached::Refused(Refusal::Disk) => &mut self.failed,
            Reached::Acknowledged => &mut self.acknowledged,
            _ => return,
        };
        *count = count.saturating_add(1);
    }
}

fn ends_met(alloc: Global) -> Option<Ends> {
    let mut ends = Ends {
        damaged: 0,
        failed: 0,
        acknowledged: 0,
    };
    for seed in 0..512 {
        let disk = Liar::new(seed, FIRST.to_vec(alloc).ok()?);
        ends.add(register(alloc, disk, "r2")?.0);
    }
    Some(ends)
}

#[test]
fn a_disk_that_lies_makes_no_call_hang(rt: HostRuntime) {
    let ends = ends_met(rt.alloc()).expect(&rt, "out of memory");
    assert!(rt; ends.damaged > 0, "no opening found damage");
    assert!(rt;
        ends.failed > 0,
        "no command was refused for a fault of the disk"
    );
    assert!(rt; ends.acknowledged > 0, "no command was acknowledged");
}
