//! Sessions, and a `show`, over disks, readers and writers that fail.
use crate::runs::{DRAIN, ended_in, ended_over, run_over};
use crate::streams::{Feed, Sheet};
use child_model::Poll;
use disk_model::MemDisk;
use exec_faults::Fault;
use status_report::show;
use std::alloc::Global;

// A registration, a question, a tidy, a malformed line, a drain, a watch, metadata and a registration.
const LINES: &[u8] =
    b"{\"op\":\"register\",\"id\":\"r1\",\"provider\":\"pacemaker\",\"type\":\"Dummy\"}\n{\"op\":\"list\"}\n{\"op\":\"tidy\"}\n{\"op\":\n\
    {\"op\":\"drain\"}\n{\"op\":\"watch\",\"limit\":9}\n{\"op\":\"meta\",\"provider\":\"p\",\"type\":\"t\"}\n\
    {\"op\":\"register\",\"id\":\"r1\",\"provider\":\"pacemaker\",\"type\":\"Dummy\"}\n";

const REPLIES_WHEN_CLOSED: &str =
    "{\"error\":\"disk\",\"number\":16}\n{\"error\":\"closed\",\"number\":17}\n{\"end\":\"closed\"}\n\
    {\"error\":\"closed\",\"number\":17}\n{\"end\":\"closed\"}\n{\"end\":\"closed\"}\n{\"end\":\"missing\"}\n\
    {\"error\":\"closed\",\"number\":17}\n";

const REGISTER: &[u8] = b"{\"op\":\"register\",\"id\":\"r1\",\"provider\":\"p\",\"type\":\"t\"}";

// The number of device calls of an opening on a fresh disk.
const OPENING_CALLS: u64 = 13;

// A fresh disk that fails in this device call after the opening.
fn failing_disk(alloc: Global, call: u64) -> MemDisk {
    let mut disk = MemDisk::new(alloc);
    disk.plan_fault(OPENING_CALLS.saturating_add(call));
    disk
}

#[test]
fn after_a_disk_fault_every_line_is_closed(rt: HostRuntime) {
    let alloc = rt.alloc();
    // the fourth call is the second sync of the record
    for call in 1..=4 {
        let run = run_over(alloc, failing_disk(alloc, call), &[], LINES).expect(&rt, "no run");
        assert_eq!(rt; run.text(), REPLIES_WHEN_CLOSED, "a fault of call {call}");
        assert_eq!(rt; run.ended, Err(Fault::Disk), "a fault of call {call}");
    }
}

#[test]
fn a_record_takes_no_fifth_call_that_could_fail(rt: HostRuntime) {
    let alloc = rt.alloc();
    let run = run_over(alloc, failing_disk(alloc, 5), &[], REGISTER).expect(&rt, "no run");
    assert_eq!(rt; run.text(), "{\"ok\":true}\n");
    assert_eq!(rt; run.ended, Ok(()));
}

// Two registrations that arrive together, and a question.
const TOGETHER: &[u8] =
    b"{\"op\":\"register\",\"id\":\"r1\",\"provider\":\"p\",\"type\":\"t\"}\n{\"op\":\"register\",\"id\":\"r2\",\"provider\":\"p\",\"type\":\"t\"}\n\
    {\"op\":\"list\"}\n";

const BOTH_DONE: &str =
    "{\"ok\":true}\n{\"ok\":true}\n{\"ok\":true,\"resources\":[\"r1\",\"r2\"]}\n";

#[test]
fn commands_that_arrive_together_are_one_record(rt: HostRuntime) {
    let alloc = rt.alloc();
    let refused =
        "{\"error\":\"disk\",\"number\":16}\n{\"error\":\"disk\",\"number\":16}\n{\"error\":\"closed\",\"number\":17}\n";
    for call in 1..=4 {
        let run = run_over(alloc, failing_disk(alloc, call), &[], TOGETHER).expect(&rt, "no run");
        assert_eq!(rt; run.text(), refused, "a fault of call {call}");
        assert_eq!(rt; run.ended, Err(Fault::Disk), "a fault of call {call}");
    }
    let run = run_over(alloc, failing_disk(alloc, 5), &[], TOGETHER).expect(&rt, "no run");
    assert_eq!(rt; run.text(), BOTH_DONE, "a fault after the record");
    assert_eq!(rt; run.ended, Ok(()), "a fault after the record");
}

#[test]
fn a_show_on_a_disk_that_fails_writes_nothing(rt: HostRuntime) {
    let mut disk = MemDisk::new(rt.alloc());
    disk.plan_fault(1);
    let mut written = Vec::new(rt.alloc());
    let (_disk, ended) = show(rt.alloc(), disk, &mut written);
    assert_eq!(rt; ended, Err(Fault::Disk));
    assert!(rt; written.is_empty(), "{} bytes were written", written.len());
}

// The end of a session whose input, read five bytes at a time, fails after a line and a half; `None` unless the line was answered.
fn unread(alloc: Global) -> Option<Result<(), Fault>> {
    let input = Feed::stumbling(b"{\"op\":\"list\"}\n{\"op\":\"list\"}");
    let mut output = Sheet::endless(alloc);
    let ended = ended_over(alloc, input, 5, &mut output)?;
    (output.text() == "{\"ok\":true,\"resources\":[]}\n").then(|| ended)
}

#[test]
fn reads_that_bring_nothing_are_made_again_and_one_that_fails_ends_the_run(rt: HostRuntime) {
    assert_eq!(rt; unread(rt.alloc()), Some(Err(Fault::InputOrOutput)));
}

#[test]
fn writes_that_take_little_are_made_again(rt: HostRuntime) {
    let alloc = rt.alloc();
    let mut output = Sheet::sparing(alloc);
    let ended = ended_over(alloc, Feed::even(TOGETHER), TOGETHER.len(), &mut output);
    assert_eq!(rt; ended, Some(Ok(())));
    assert_eq!(rt; output.text(), BOTH_DONE);
}

// The end of a session whose output accepts this many bytes of two replies of 27 bytes each.
fn two_replies(alloc: Global, taken: usize) -> Option<Result<(), Fault>> {
    let lines = b"{\"op\":\"list\"}\n{\"op\":\"list\"}\n";
    ended_in(alloc, MemDisk::new(alloc), &[], lines, taken)
}

#[test]
fn a_reply_that_is_not_written_ends_the_run(rt: HostRuntime) {
    assert_eq!(rt; two_replies(rt.alloc(), 54), Some(Ok(())));
    for taken in [0, 1, 26, 27, 40, 53] {
        assert_eq!(rt;
            two_replies(rt.alloc(), taken),
            Some(Err(Fault::InputOrOutput)),
            "an output that takes {taken} bytes"
        );
    }
}

#[test]
fn a_notice_that_is_not_written_ends_the_run(rt: HostRuntime) {
    let (alloc, polls) = (rt.alloc(), [Poll::Signaled(9)]);
    // the output ends after both acceptances, in the notice of the start
    let ended = ended_in(alloc, MemDisk::new(alloc), &polls, DRAIN, 80);
    assert_eq!(rt; ended, Some(Err(Fault::InputOrOutput)));
}

#[test]
fn a_reply_that_is_not_written_ends_the_run_also_after_a_disk_fault(rt: HostRuntime) {
    let alloc = rt.alloc();
    // the output ends after the reply that the disk failed
    let ended = ended_in(alloc, failing_disk(alloc, 1), &[], LINES, 40);
    assert_eq!(rt; ended, Some(Err(Fault::InputOrOutput)));
}
