//! Runs of routers of a side: those that are in, one behind the other.
ghost use Rattle.std.specs.Prelude.{◌≡◌, ◌*◌, ◌+◌, ◌<◌, ◌≤◌, ℕ, false, length, slice_index_or};
ghost use Rattle.std.specs.Int.{bit_at};
ghost use Rattle.cut_model.specs.Side.{HasBits};
ghost use Rattle.query_lang.specs.Runs.{AreOthers, IsRun, is_sought};

use cut_model::Side;

/// The routers from one number up to another one, which is left out.
#[derive(Clone, Copy)]
pub(crate) struct Run {
    pub(crate) begin: u32,
    pub(crate) end: u32,
}

/// The first run of routers of the side from a router on; it is empty, and at the end, where none is left.
/// It looks at 64 routers at once.
pub(crate) fn next_run(side: &Side, from: u32) -> Run
    requires { from < length side.now }
    ensures run { IsRun side.now from result }
    ensures onwards { from < result.end }
{
    let begin = next_router(side, true, from);
    let end = next_router(side, false, begin);
    Run { begin, end }
}

/// The first router from a number on that is in the side, or isn't, as is asked; their number where there is
/// none.
fn next_router(side: &Side, inside: bool, from: u32) -> u32
    requires { from ≤ length side.now }
    ensures order { from ≤ result }
    ensures within { result ≤ length side.now }
    ensures others { AreOthers side.now inside from result }
    ensures found { result < length side.now → slice_index_or side.now result false ≡ inside }
{
    let mut router = from;
    while router < side.size() {
        let first = router - router % 64;
        let bit = first_bit(word_of(side, inside, router / 64), router % 64);
        if bit < 64 {
            return side.size().min(first + bit);
        }
        router = first + 64;
    }
    side.size()
}

/// The 64 routers from `64 * place` on, the lowest bit first: 1 for those that are in the side, or for those
/// that aren't, as is asked.
fn word_of(side: &Side, inside: bool, place: u32) -> u64
    requires { place < 16 }
    ensures { HasBits result (λ i. is_sought inside (slice_index_or side.now (64 * place + i) false)) }
{
    let word = side.word(place);
    if inside { word } else { !word }
}

/// The first bit from a place on that is 1, and 64 where there is none.
fn first_bit(word: u64, place: u32) -> u32
    requires { place < 64 }
    ensures order { place ≤ result }
    ensures within { result ≤ 64 }
    ensures none { (i : ℕ) → place ≤ i → i < result → bit_at word i ≡ 0 }
    ensures found { result < 64 → bit_at word result ≡ 1 }
{
    let rest = word >> place;
    if rest == 0 {
        return 64;
    }
    place + rest.trailing_zeros()
}
