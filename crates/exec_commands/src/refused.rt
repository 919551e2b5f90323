//! Why a line was refused.
ghost use Rattle.std.specs.Prelude.{◌≡◌, option_map};
ghost use Rattle.exec_commands.specs.Messages.{about_key, key_of};

use crate::key::Key;
use ocf_env::Text;
use ocf_model::Refusal;

/// The subject of a line's refusal.
#[derive(Drop)]
pub enum About {
    /// The whole line: the kind of refusal says all.
    Whole,
    /// A key that occurs twice in an object.
    Twice,
    /// The value of this key, or its absence.
    Key(Key),
    /// A key that the operation does not have.
    Unknown(Text),
    /// The value of `op`, which names no operation.
    Operation(Text),
}

/// Why a line of a `serve` session was refused, and what in it is at fault.
#[derive(Drop)]
pub struct LineRefusal {
    pub why: Refusal,
    pub about: About,
}

// The key that a refusal of a well-formed line is about, if any.
fn key_of(why: Refusal) -> Option<Key>
    ensures { result ≡ key_of why }
{
    match why {
        Refusal::UnknownResource | Refusal::Busy | Refusal::QueueFull | Refusal::RecurringFull => {
            Some(Key::Id)
        }
        Refusal::NoSuchRecurring => Some(Key::Interval),
        Refusal::TooLarge => Some(Key::Params),
        Refusal::NotQueued => Some(Key::Call),
        _ => None,
    }
}

/// The key of the line that a refusal is about, if any.
pub fn about_key(why: Refusal, about: &About) -> Option<&str>
    ensures { option_map (λ key. key.now) result ≡ about_key why about.now }
{
    match about {
        About::Whole => match key_of(why) {
            Some(key) => Some(key.word()),
            None => None,
        },
        About::Twice => None,
        About::Key(key) => Some(key.word()),
        About::Unknown(name) => Some(name.as_str()),
        About::Operation(_) => Some(Key::Op.word()),
    }
}
