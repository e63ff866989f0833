//! The two tables of a tree, and one commit in them.
ghost use Rattle.std.specs.Prelude.{◌≡◌, ◌<◌, ◌==◌, ◌&&◌, if◌then◌else◌};
ghost use Rattle.std.specs.Prelude.{length, slice_index, EachIndex};
ghost use Rattle.std.specs.Int.{bit_at};
ghost use Rattle.cut_model.specs.Cuts.{set_of};
ghost use Rattle.tree_state.specs.Tables.{tables_of, moved_to, swaps};
ghost use Rattle.tree_state.specs.History.{commit, entry_of};
ghost use Rattle.tree_state.specs.Words.{moved_by};

use cut_model::{LeastCut, Side};

/// What is above a router after a move: `s` where its bit is set and `t` was above it, and else what
/// was.
#[inline]
fn moved(word: u64, bit: usize, above: u32, s: u32, t: u32) -> u32
    requires { bit < 64 }
    ensures { result ≡ (if (bit_at word bit == 1) && (above == t) then s else above) }
{
    if word >> bit & 1 == 1 && above == t {
        s
    } else {
        above
    }
}

/// Hangs from `s` those of the 64 routers from `64 * place` on that hung from `t` and whose bit in
/// the word is set.
#[inline]
fn move_in_word(up: &mut [u32], place: u32, word: u64, s: u32, t: u32)
    ensures { EachIndex up.new (λ i. slice_index up.new i ≡ moved_by place word s t (slice_index up.old) i) }
{
    let first = 64 * place as usize;
    let end = up.len().min(first + 64);
    for i in first..end {
        up[i] = moved(word, i % 64, up[i], s, t);
    }
}

/// Hangs from `s` the routers of the side that hung from `t`. It passes over words of the side that
/// are empty.
fn move_children(up: &mut [u32], s: u32, t: u32, side: &Side)
    requires { length side.now ≡ length up.old }
    ensures { EachIndex up.new (λ i. slice_index up.new i ≡ moved_to s (slice_index up.old) t (set_of side.now) i) }
{
    for place in 0..(side.size() + 63) / 64 {
        let word = side.word(place);
        if word != 0 {
            move_in_word(up, place, word, s, t);
        }
    }
}

/// Whether a commit at `t` takes its place: `t` isn't the root, and the side has the router above it.
fn swaps(up: &[u32], root: u32, t: u32, side: &Side) -> bool
    requires t { t < length up.now }
    requires above { slice_index up.now t < length side.now }
    ensures { result ≡ swaps root (slice_index up.now) t (set_of side.now) }
{
    t != root && side.has(up[t as usize])
}

/// Changes the tables by the commit of a least cut (Gusfield, 1990): the routers of its side that hung
/// from its neighbour hang from its router. Where the neighbour isn't the root, and the side has the
/// router above it too, router and neighbour change places. The time is at most proportional to the
/// number of routers, and 64 routers at once are passed over where the side has none of them.
pub fn commit_tables(up: &mut [u32], width: &mut [u64], root: u32, cut: &LeastCut)
    requires ups { length up.old ≡ cut.now.net.routers }
    requires widths { length width.old ≡ cut.now.net.routers }
    requires above { slice_index up.old cut.now.neighbour < cut.now.net.routers }
    ensures up { EachIndex up.new (λ i. slice_index up.new i
        ≡ (commit root (tables_of up.old width.old) (entry_of cut.now)).up i) }
    ensures width { EachIndex width.new (λ i. slice_index width.new i
        ≡ (commit root (tables_of up.old width.old) (entry_of cut.now)).width i) }
{
    let s = cut.router();
    let t = cut.neighbour();
    let side = cut.side();
    let value = cut.value();
    let above = up[t as usize];
    let swaps = swaps(up, root, t, side);
    move_children(up, s, t, side);
    if swaps {
        up[s as usize] = above;
        width[s as usize] = width[t as usize];
        up[t as usize] = s;
        width[t as usize] = value;
    } else {
        up[s as usize] = t;
        width[s as usize] = value;
    }
}
