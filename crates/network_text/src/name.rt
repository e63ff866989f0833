//! The name of a router.

ghost use Rattle.std.specs.Prelude.{◌≡◌, ◌≤◌, List, length, IfSome, IfNone, IsTrue, IsFalse};
ghost use Rattle.text_forms.specs.Names.{is_name as name};
ghost use Rattle.text_forms.specs.declared.names.TheConstants.{MOST_NAME_BYTES};

use std::hash::{Hash, Hasher};
use std::marker::Model;
use text_forms::{MOST_NAME_BYTES, is_name};

/// A name of 1 to [`MOST_NAME_BYTES`] bytes, each an ASCII letter, a digit, `.`, `_` or `-`. Contracts see
/// its bytes. A hash of it is one of these bytes alone, written at once.
#[derive(Clone, Copy)]
pub struct Name {
    bytes: [u8; MOST_NAME_BYTES],
    len: u8,
}

impl Model for Name {
    ghost use Rattle.std.specs.Prelude.{ℕ, List, length, take};
    ghost use Rattle.network_text.specs.Padding.{IsPadded, padded, padded-front, length-front};

    ghost Value = { List ℕ };

    ghost view = { λ name. take name.len name.bytes };

    ghost invariant = { λ name. IsPadded name.len name.bytes };

    ghost inverse = { λ bytes. record { bytes = padded bytes; len = length bytes } };

    ghost inverse_ok = { λ name h. λ i. record {
      bytes = padded-front name.len name.bytes h i;
      len = length-front name.len name.bytes h i;
    } };
}

impl Name {
    /// The name of these bytes; none exactly where they are no name, as `a/b`.
    pub fn from_bytes(bytes: &[u8]) -> Option<Name>
        ensures none { IfNone result (IsFalse (name bytes.now)) }
        ensures some { IfSome result (λ made. IsTrue (name bytes.now) × (made ≡ bytes.now)) }
    {
        if is_name(bytes) {
            Some(Name::padded(bytes))
        } else {
            None
        }
    }

    /// The bytes of the name, as `edge-1`.
    #[inline]
    pub fn as_bytes(&self) -> &[u8]
        ensures value { result.now ≡ self.now }
        ensures short { length result.now ≤ MOST_NAME_BYTES }
        ensures named { IsTrue (name result.now) }
    {
        &self.bytes[..self.len as usize]
    }

    /// These bytes with zeros behind them.
    fn padded(bytes: &[u8]) -> Name
        requires { IsTrue (name bytes.now) }
        ensures { result ≡ bytes.now }
    {
        let mut padded = [0; MOST_NAME_BYTES];
        padded[..bytes.len()].copy_from_slice(bytes);
        Name {
            bytes: padded,
            len: bytes.len() as u8,
        }
    }
}

impl PartialEq for Name {
    ghost use Rattle.std.proofs.Common.{rules};
    ghost use Rattle.std.specs.Cmp.Lexicographic.{nat_list_eq_equiv};
    ghost use Rattle.std.specs.Cmp.Rules.{comparing};
    ghost use Rattle.std.specs.Str.{bytes_eq};

    ghost eq = { bytes_eq };

    ghost laws = { Prim.search (comparing, rules) };

    fn eq(&self, other: &Name) -> bool {
        self.len == other.len && self.bytes == other.bytes
    }
}

impl Eq for Name {
    ghost use Rattle.std.specs.Cmp.Lexicographic.{nat_list_eq_equiv};

    ghost laws = { nat_list_eq_equiv };
}

impl Hash for Name {
    ghost use Rattle.std.proofs.Common.{ap};
    ghost use Rattle.std.specs.Cmp.Lexicographic.{bytes_decides};
    ghost use Rattle.std.specs.Prelude.{[], ◌∷◌};

    ghost hash_input = { λ name. name ∷ [] };

    ghost respects_eq = { λ name other same. ap (λ bytes. bytes ∷ []) ((bytes_decides name other).0 same) };

    fn hash<H: Hasher>(&self, state: &mut H) {
        state.write(self.as_bytes());
    }
}
