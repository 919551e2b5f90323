//! A journal of which a part was emptied.
ghost use Rattle.std.specs.Prelude.{◌≡◌, IfOk, IsErr};
ghost use Rattle.disk_model.specs.Disk.{OnlyReads};
ghost use Rattle.journal_files.specs.Emptied.{emptied_part};

use disk_model::{Disk, DiskFault, other_part};
use file_disk::OpenFault;
use ocf_types::Part;
use two_parts::{Choice, choose};

// The part of a pair that was emptied: an empty one beside a current part of epoch 2 or more. A part of such an epoch is written
// while the other holds a journal, and no call makes a part shorter, so no crash leaves an empty one.
fn emptied<D: Disk>(disk: &mut D) -> Result<Option<Part>, DiskFault>
    ensures value { (D.view disk.new).honest
        → IfOk result (λ part. part ≡ emptied_part (D.view disk.old).reads) }
    ensures only_reads { OnlyReads (D.view disk.old) (D.view disk.new) (IsErr result) }
{
    let Choice::Current(current, head) = choose(disk)? else {
        return Ok(None);
    };
    let other = other_part(current);
    let size = disk.len(other)?;
    if size == 0 && head.epoch >= 2 {
        Ok(Some(other))
    } else {
        Ok(None)
    }
}

/// The disk of a journal, refused as `Emptied` if one of its parts was emptied. A fault of the device is not reported here: the
/// opening meets it again.
pub fn not_emptied<D: Disk + Drop>(opened: Result<D, OpenFault>) -> Result<D, OpenFault> {
    let mut disk = opened?;
    match emptied(&mut disk) {
        Ok(Some(part)) => Err(OpenFault::Emptied(part)),
        Ok(None) | Err(_) => Ok(disk),
    }
}
