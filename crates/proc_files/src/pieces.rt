//! Texts that consist of pieces, each followed by the same byte.
ghost use Rattle.std.specs.Prelude.{◌≡◌, ◌≢◌, ◌↔◌, ◌++◌, ◌∷◌, [], ℕ, List, IfNone, IfSome, IsTrue};
ghost use Rattle.proc_files.specs.Pieces.{IsPieces};

/// The rest of a text after this prefix, if the text begins with that.
pub fn after<'a>(text: &'a [u8], prefix: &[u8]) -> Option<&'a [u8]>
    ensures rest { IfSome result (λ rest. text.now ≡ prefix.now ++ rest.now) }
    ensures none { IfNone result ((rest : List ℕ) → text.now ≢ prefix.now ++ rest) }
{
    text.strip_prefix(prefix)
}

/// The part of a text before this suffix, if the text ends with that.
pub fn before<'a>(text: &'a [u8], last: &[u8]) -> Option<&'a [u8]>
    ensures prefix { IfSome result (λ prefix. text.now ≡ prefix.now ++ last.now) }
    ensures none { IfNone result ((prefix : List ℕ) → text.now ≢ prefix ++ last.now) }
{
    text.strip_suffix(last)
}

/// Whether a text consists of pieces, each followed by this byte. An empty text has no pieces, and is one.
pub fn is_pieces(text: &[u8], end: u8) -> bool
    ensures { IsTrue result ↔ IsPieces end text.now }
{
    match before(text, &[end]) {
        Some(_) => true,
        None => text.is_empty(),
    }
}
