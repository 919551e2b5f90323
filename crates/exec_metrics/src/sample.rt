//! The line of a sample.
ghost use Rattle.std.specs.Prelude.{◌≡◌, ◌++◌};
ghost use Rattle.exec_metrics.specs.Samples.{bare, begun, bit, plain, valued};

use crate::family::Family;
use crate::label::add_label;
use line_text::LineText;
use ocf_types::RscId;

/// Adds a sample's line up to its first label, which is the resource.
pub fn begin(text: &mut LineText, family: Family, id: &RscId)
    ensures { text.new ≡ text.old ++ begun family id.now }
{
    text.text(family.name());
    text.text("{");
    add_label(text, "resource", id.as_bytes());
}

/// Adds the rest of a sample's line, after its last label.
pub fn finish(text: &mut LineText, value: u64)
    ensures { text.new ≡ text.old ++ valued value }
{
    text.text("} ");
    text.number(value);
    text.text("\n");
}

/// Adds a sample that has no other label.
pub fn add_plain(text: &mut LineText, family: Family, id: &RscId, value: u64)
    ensures { text.new ≡ text.old ++ plain family id.now value }
{
    begin(text, family, id);
    finish(text, value);
}

/// Adds a sample without labels.
pub fn add_bare(text: &mut LineText, family: Family, value: u64)
    ensures { text.new ≡ text.old ++ bare family value }
{
    text.text(family.name());
    text.text(" ");
    text.number(value);
    text.text("\n");
}

/// 1 for true, 0 for false.
pub fn bit(is: bool) -> u64
    ensures { result ≡ bit is }
{
    if is { 1 } else { 0 }
}
