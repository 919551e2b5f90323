//! Adds labels, with their values escaped.
ghost use Rattle.std.specs.Prelude.{◌≡◌, ◌++◌};
ghost use Rattle.exec_metrics.specs.Labels.{escaped, escaped_byte, label, next_label};

use line_text::LineText;

fn add_escaped_byte(text: &mut LineText, byte: u8)
    ensures { text.new ≡ text.old ++ escaped_byte byte }
{
    if byte == b'\\' {
        text.text("\\\\");
    } else if byte == b'"' {
        text.text("\\\"");
    } else if byte == b'\n' {
        text.text("\\n");
    } else {
        text.byte(byte);
    }
}

#[tactic(auto, using(crate::proofs::TextLemmas::byte_more))]
fn add_escaped(text: &mut LineText, bytes: &[u8])
    ensures { text.new ≡ text.old ++ escaped bytes.now }
{
    for byte in bytes {
        add_escaped_byte(text, *byte);
    }
}

/// Adds a label.
pub fn add_label(text: &mut LineText, key: &str, value: &[u8])
    ensures { text.new ≡ text.old ++ label key.now value.now }
{
    text.text(key);
    text.text("=\"");
    add_escaped(text, value);
    text.text("\"");
}

/// Adds one more label.
pub fn add_next_label(text: &mut LineText, key: &str, value: &[u8])
    ensures { text.new ≡ text.old ++ next_label key.now value.now }
{
    text.text(",");
    add_label(text, key, value);
}
