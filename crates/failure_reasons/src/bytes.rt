//! Searches in bytes.

/// The bytes before and after the last place at which these stand.
pub fn around_last<'a>(bytes: &'a [u8], wanted: &[u8]) -> Option<(&'a [u8], &'a [u8])> {
    for at in (0..bytes.len()).rev() {
        let (before, rest) = bytes.split_at(at);
        if let Some(after) = rest.strip_prefix(wanted) {
            return Some((before, after));
        }
    }
    None
}

/// The bytes before and after the first place at which these stand.
pub fn around_first<'a>(bytes: &'a [u8], wanted: &[u8]) -> Option<(&'a [u8], &'a [u8])> {
    for at in 0..bytes.len() {
        let (before, rest) = bytes.split_at(at);
        if let Some(after) = rest.strip_prefix(wanted) {
            return Some((before, after));
        }
    }
    None
}
