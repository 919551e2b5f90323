//! The journal's files in a directory: the end of a part, and calls after a fault.
use disk_model::Disk;
use file_disk::{FileDisk, Owners, ReportsError};
use ocf_types::{PART_LIMIT, Part};
use std::fs::{self, File};
use std::io;
use std::test::Fail;

// A directory with an empty part A, and a part B that is one byte longer than a part can be.
fn make_long(rt: &HostRuntime) -> io::Result<()> {
    fs::create_dir(rt, "long")?;
    File::create(rt, "long/part-a")?;
    File::create(rt, "long/part-b")?.set_len(PART_LIMIT + 1)
}

#[test]
fn a_file_ends_at_the_limit_and_a_fault_ends_all_calls(rt: HostRuntime) -> Result<(), Fail> {
    make_long(&rt)?;
    let mut disk = FileDisk::open(&rt, rt.alloc(), "long", Owners::Any)?;
    assert!(rt;
        disk.len(Part::B) == Ok(PART_LIMIT),
        "part B does not end at the limit"
    );
    assert!(rt;
        disk.first_error().is_none(),
        "a fault before there was one"
    );
    assert!(rt;
        disk.read_at(Part::A, 0, &mut [0]).is_err(),
        "a byte after the end of part A was read"
    );
    let part = disk.first_error().map(|met| met.part);
    assert!(rt;
        part == Some(Part::A),
        "the first fault is not that of part A"
    );
    assert!(rt;
        disk.len(Part::B).is_err(),
        "a call after the fault was answered"
    );
    assert_eq!(rt; disk.clock(), 3, "calls");
    assert_eq!(rt; disk.failures(), 2, "faults");
    fs::remove_dir_all(&rt, "long")?;
    Ok(())
}
