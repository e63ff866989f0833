//! The search for a line feed.
ghost use Rattle.std.specs.Prelude.{◌≡◌, ℕ, ◌<◌, length, take, IfSome, IfNone, slice_index};
ghost use Rattle.text_forms.specs.Lines.{NoFeed};

use memchr::memchr;

/// Where the first line feed is, in a time linear in the bytes before it.
pub(crate) fn first_feed(part: &[u8]) -> Option<usize>
    ensures place { IfSome result (λ at. at < length part.now) }
    ensures feed { IfSome result (λ at. slice_index part.now at ≡ 10) }
    ensures before { IfSome result (λ at. NoFeed (take at part.now)) }
    ensures none { IfNone result (NoFeed part.now) }
{
    memchr(b'\n', part)
}
