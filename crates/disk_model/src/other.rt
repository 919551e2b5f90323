//! The other part of a pair.
ghost use Rattle.std.specs.Prelude.{◌≡◌};
ghost use Rattle.disk_model.specs.Image.{other};

use ocf_types::Part;

/// The other part.
pub fn other_part(part: Part) -> Part
    ensures { result ≡ other part }
{
    match part {
        Part::A => Part::B,
        Part::B => Part::A,
    }
}
