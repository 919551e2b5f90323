//! Texts in columns of a terminal.
use line_text::LineText;
use std::str::from_utf8;
use unicode_width::{UnicodeWidthChar, UnicodeWidthStr};

/// The width of a text on a terminal, in columns.
pub(crate) fn width_of(text: &[u8]) -> usize {
    match from_utf8(text) {
        Ok(text) => text.width(),
        Err(_) => text.len(),
    }
}

/// Appends spaces up to a column, after a text of some columns.
pub(crate) fn pad(line: &mut LineText, taken: usize, columns: usize) {
    for _ in 0..columns.saturating_sub(taken) {
        line.byte(b' ');
    }
}

// Appends the characters of a text that fit some columns. Returns the columns that they take.
fn add_fitting(line: &mut LineText, text: &str, columns: usize) -> usize {
    let mut taken = 0usize;
    for character in text.chars() {
        let next = taken.saturating_add(character.width().unwrap_or_default());
        if next > columns {
            return taken;
        }
        let mut bytes = [0u8; 4];
        line.text(character.encode_utf8(&mut bytes));
        taken = next;
    }
    taken
}

/// Appends a text, cut with an ellipsis to some columns if it is wider. Returns the columns that it takes.
pub(crate) fn add_fitted(line: &mut LineText, text: &[u8], columns: usize) -> usize {
    let text = from_utf8(text).unwrap_or_default();
    let width = text.width();
    if width <= columns {
        line.text(text);
        return width;
    }
    let taken = add_fitting(line, text, columns.saturating_sub(1));
    line.text("…");
    taken.saturating_add(1)
}

/// Appends a text in some columns, with spaces after it.
pub(crate) fn add_column(line: &mut LineText, text: &[u8], columns: usize) {
    let taken = add_fitted(line, text, columns);
    pad(line, taken, columns);
}
