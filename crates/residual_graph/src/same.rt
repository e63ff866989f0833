//! Whether two lists of links are the same.
ghost use Rattle.std.specs.Prelude.{◌≡◌, ◌↔◌, ◌+◌, ◌*◌, IsTrue};

use cut_model::Link;

/// The two ends of a link in one word, so that a comparison of links takes two words each.
#[inline(always)]
fn ends(link: Link) -> u64
    ensures { result ≡ link.a + 4294967296 * link.b }
{
    u64::from(link.a) + 4_294_967_296 * u64::from(link.b)
}

/// The bits in which two links differ. It is one word, so that a comparison of many links has no
/// branch.
#[inline(always)]
fn differing(ours: Link, theirs: Link) -> u64
    ensures { (result ≡ 0) ↔ (ours ≡ theirs) }
{
    (ours.cap ^ theirs.cap) | (ends(ours) ^ ends(theirs))
}

/// Whether two lists of links are the same. It looks at each link at most once.
pub fn is_same(ours: &[Link], theirs: &[Link]) -> bool
    ensures { IsTrue result ↔ (ours.now ≡ theirs.now) }
{
    if ours.len() != theirs.len() {
        return false;
    }
    let mut wrong = 0u64;
    for (i, link) in theirs.iter().enumerate() {
        wrong |= differing(ours[i], *link);
    }
    wrong == 0
}
