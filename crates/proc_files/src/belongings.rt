//! The processes that belong to actions.
ghost use Rattle.std.specs.Prelude.{◌≡◌, ◌↔◌, ◌≤◌, ◌++◌, Contains, IfOk, IsTrue, OnOk, length, vec_len};
ghost use Rattle.proc_files.specs.Belongings.{Belongs, IsParted, IsRoot, children_of, without_children_of};
ghost use Rattle.proc_files.specs.declared.process.Process.{Process};

use crate::process::{Process, has};
use std::alloc::{AllocError, Allocator};

// Whether a process is known, or a member of one of these groups.
fn is_root(process: &Process, known: &[Process], groups: &[u32]) -> bool
    ensures { IsTrue result ↔ IsRoot known.now groups.now process.now }
{
    has(known, process) || groups.contains(&process.group)
}

// The processes of a table that are known or members of one of these groups, and its other processes.
fn parted<A: Allocator + Copy>(
    alloc: A,
    table: &[Process],
    known: &[Process],
    groups: &[u32],
) -> Result<(Vec<Process, A>, Vec<Process, A>), AllocError>
    ensures parted { IfOk result
        (λ parts. IsParted table.now known.now groups.now parts.0.items parts.1.items) }
{
    let mut roots = Vec::new(alloc);
    let mut others = Vec::new(alloc);
    for process in table {
        if is_root(process, known, groups) {
            roots.push(*process)?;
        } else {
            others.push(*process)?;
        }
    }
    Ok((roots, others))
}

// Moves the children of the process with this number from `rest` to the end of `found`.
fn move_children<A: Allocator>(
    rest: &mut Vec<Process, A>,
    found: &mut Vec<Process, A>,
    pid: u32,
) -> Result<(), AllocError>
    ensures found { OnOk result (found.new.items
        ≡ found.old.items ++ children_of pid rest.old.items) }
    ensures rest { OnOk result (rest.new.items ≡ without_children_of pid rest.old.items) }
{
    found.extend(rest.iter().filter(|process| process.parent == pid).copied())?;
    rest.retain(|process| process.parent != pid);
    Ok(())
}

/// The processes of a table that belong to actions: those that are known, by number and start, the members of these process groups,
/// and the descendants of all of these. The table is one reading of `/proc`. POSIX, process group; proc(5), stat.
///
/// It fails only where memory is refused.
pub fn belonging<A: Allocator + Copy>(
    alloc: A,
    table: &[Process],
    known: &[Process],
    groups: &[u32],
) -> Result<Vec<Process, A>, AllocError>
    ensures exact { IfOk result (λ found. (p : Process)
        → Contains found.items p ↔ Belongs table.now known.now groups.now p) }
    ensures few { IfOk result (λ found. vec_len found ≤ length table.now) }
{
    let (mut found, mut rest) = parted(alloc, table, known, groups)?;
    let mut at = 0;
    while at < found.len() {
        let pid = found[at].pid;
        move_children(&mut rest, &mut found, pid)?;
        at += 1;
    }
    Ok(found)
}
