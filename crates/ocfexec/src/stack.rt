//! The stack of the program.
use growth::{Refused, with_capacity};
use std::alloc::Global;

// How many bytes a call of `touch` takes of the stack, at least.
const PAGE: usize = 4096;

// How many pages of the stack are touched. The deepest calls, which end what an opening finds of interrupted actions, take 58.
const PAGES: usize = 72;

/// Grows the stack to more than the program needs. The kernel grows a stack when it is touched, and ends a process by SIGSEGV if a limit of
/// the address space forbids that. So the stack is grown before the heap, which could take what it needs, and a block of that size, taken
/// from the heap and freed, shows before that there is enough.
pub fn grow_stack(alloc: Global) -> Result<(), Refused> {
    let block = with_capacity::<u8, _>(alloc, (PAGES + 1) * PAGE)?;
    drop(block);
    touch(PAGES);
    Ok(())
}

// TRUSTED: the stack has as many pages from here on.
// Touches them in as many calls. One array of this size would be in the frame of `main`, and all other calls below it, where a compiler
// inlines its function. The C library writes each array, so none is left out.
fn touch(pages: usize) -> i64 {
    let mut page = [0; PAGE / 8];
    libc::time(&mut page[0]);
    if pages == 0 {
        page[0]
    } else {
        touch(pages - 1).max(page[0])
    }
}
