//! Keys of operations.
ghost use Rattle.std.specs.Prelude.{◌≡◌};
ghost use Rattle.ocf_env.specs.Keys.{key_text};

use crate::text::ascii;
use arrayvec::ArrayString;
use itoa::Buffer;
use ocf_types::{Action, KEY_LIMIT, OpKey, RscId};

/// The key of an operation, `<resource>_<action>_<interval in ms>`, as in `r1_monitor_10000`; an operation that runs once
/// has the interval 0. It allocates nothing. Pacemaker Explained, resource operations.
#[tactic(auto, using(ocf_types::specs::NameLemmas::ids, crate::proofs::KeyLemmas::words))]
pub fn op_key(id: &RscId, action: Action, interval: u32) -> OpKey
    ensures { result ≡ key_text id.now action interval }
{
    let mut buffer = Buffer::new();
    let mut text: ArrayString<{ KEY_LIMIT }> = ArrayString::new();
    text.push_str(ascii(id.as_bytes()));
    text.push_str("_");
    text.push_str(action.word());
    text.push_str("_");
    text.push_str(buffer.format(interval));
    OpKey::new(text.as_str())
}
