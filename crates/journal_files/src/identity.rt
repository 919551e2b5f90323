//! The identity of the journal in a directory.
use exec_replies::JournalId;
use file_disk::{Identity, read_identity, settle_identity};
use host_system::System;
use std::io::Eprint;

// The identity as it is sent.
fn id_of(identity: &Identity) -> Option<JournalId> {
    JournalId::of_hex(&identity.digits)
}

/// The identity of the journal in this directory: `None` where it has none, or cannot be read.
pub fn identity_of(rt: &HostRuntime, directory: &str) -> Option<JournalId> {
    match read_identity(rt, rt.alloc(), directory) {
        Ok(Some(identity)) => id_of(&identity),
        Ok(None) | Err(_) => None,
    }
}

/// The identity of the journal in this directory, which was just opened. That one is made, or cannot be had, is reported on standard
/// error.
pub fn settled_identity(system: &System<'_>, directory: &str) -> Option<JournalId> {
    let rt = system.host();
    match settle_identity(rt, rt.alloc(), directory) {
        Ok(settled) => {
            if settled.is_new {
                let _ = system.eprintln(format_args!(
                    "ocfexec: {directory}/identity was missing or no identity, and is made anew"
                ));
            }
            id_of(&settled.identity)
        }
        Err(error) => {
            let _ = system.eprintln(format_args!(
                "ocfexec: {directory}/identity: {error}; clients cannot tell this journal from another"
            ));
            None
        }
    }
}
