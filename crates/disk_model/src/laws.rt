//! Lemmas: whether the disks of this crate are honest.
ghost use Rattle.disk_model.specs.MemDisk.{view_of};
ghost use Rattle.disk_model.specs.WildDisk.{wild_view};

use crate::MemDisk;
use crate::wild::WildDisk;
use std::alloc::Allocator;

/// A disk in memory is honest.
pub fn lemma_memory_is_honest<A: Allocator + Copy>(disk: &MemDisk<A>)
    ensures honest { (view_of disk.now).honest }
{}

/// The wild disk is never honest.
pub fn lemma_wild_is_not_honest(disk: &WildDisk)
    ensures never { (wild_view disk.now).honest → ⊥ }
{}
