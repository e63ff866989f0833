//! The front of a line.
ghost use Rattle.std.specs.Prelude.{◌≡◌, ◌≤◌, ◌++◌, vec_capacity, vec_len};
ghost use Rattle.text_forms.specs.Lines.{front_of};
ghost use Rattle.line_reader.specs.declared.front.TheConstants.{FRONT};

use text_forms::MOST_LINE_BYTES;

/// The most bytes that are kept of a line: one more than a line may have, so that a longer one shows.
pub(crate) const FRONT: usize = MOST_LINE_BYTES + 1;

/// Adds what follows in a line to its front, as far as it belongs to it, and takes no memory.
pub(crate) fn add_to_front(front: &mut Vec<u8>, part: &[u8])
    requires short { vec_len front.old ≤ FRONT }
    requires room { FRONT ≤ vec_capacity front.old }
    ensures front { front.new.items ≡ front_of (front.old.items ++ part.now) }
    ensures short { vec_len front.new ≤ FRONT }
    ensures room { vec_capacity front.old ≤ vec_capacity front.new }
{
    let count = part.len().min(FRONT - front.len());
    front.extend_from_slice(&part[..count]).unwrap();
}
