//! The names of routers.

ghost use Rattle.std.specs.Prelude.{◌≡◌};
ghost use Rattle.std.specs.List.{list_all};
ghost use Rattle.text_forms.specs.Names.{is_name as name, is_name_byte as name_byte};

/// The most bytes that a name may have.
pub const MOST_NAME_BYTES: usize = 32;

/// An ASCII letter, a digit, `.`, `_` or `-`.
fn is_name_byte(byte: u8) -> bool
    ensures { result ≡ name_byte byte }
{
    matches!(byte, b'a'..=b'z' | b'A'..=b'Z' | b'0'..=b'9' | b'.' | b'_' | b'-')
}

/// Each byte may stand in a name.
fn are_name_bytes(bytes: &[u8]) -> bool
    ensures { result ≡ list_all name_byte bytes.now }
{
    bytes.iter().all(|byte| is_name_byte(*byte))
}

/// A name has 1 to [`MOST_NAME_BYTES`] bytes, each an ASCII letter, a digit, `.`, `_` or `-`: `edge-1` is
/// one, and `a/b` is none.
pub fn is_name(bytes: &[u8]) -> bool
    ensures { result ≡ name bytes.now }
{
    !bytes.is_empty() && bytes.len() <= MOST_NAME_BYTES && are_name_bytes(bytes)
}
