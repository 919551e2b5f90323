//! The calls whose tags are kept.
ghost use Rattle.std.specs.Prelude.{◌≡◌, ◌==◌, ◌++◌, ◌∷◌, [], ◌+◌, ◌-◌, ◌≤◌, drop, length, min, option_map, vec_capacity, vec_len};
ghost use Rattle.std.specs.List.{find};
ghost use Rattle.exec_client.specs.Tags.{call_limit};

use exec_commands::Tag;
use ocf_types::CallId;

/// The greatest number of calls whose tags are kept.
pub(crate) const CALL_LIMIT: usize = 16_384;

/// A call, and the tag of the line that it was given to.
#[derive(Drop)]
pub(crate) struct KeptCall {
    pub(crate) call: CallId,
    pub(crate) tag: Tag,
}

/// The first entry of this call.
pub(crate) fn find_call(calls: &[KeptCall], call: CallId) -> Option<&KeptCall>
    ensures { option_map (λ kept. kept.now) result ≡ find (λ kept. kept.call == call) calls.now }
{
    calls.iter().find(|kept| kept.call == call)
}

/// Adds a call to those that are kept; at the limit it replaces the oldest one.
pub(crate) fn add_call(calls: &mut Vec<KeptCall>, added: KeptCall)
    requires room { min call_limit (vec_len calls.old + 1) ≤ vec_capacity calls.old }
    requires limit { vec_len calls.old ≤ call_limit }
    ensures calls { calls.new.items
        ≡ drop (length calls.old.items + 1 - call_limit) (calls.old.items ++ added ∷ []) }
    ensures capacity { vec_capacity calls.new ≡ vec_capacity calls.old }
{
    if calls.len() == CALL_LIMIT {
        let _ = calls.remove(0);
    }
    calls.push_reserved(added);
}
