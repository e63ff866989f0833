//! Sets of routers.
ghost use Rattle.std.specs.Prelude.{◌≡◌, ◌+◌, ◌*◌, ◌<◌, ◌≤◌, ◌↔◌, true, false};
ghost use Rattle.std.specs.Prelude.{length, replicate, slice_index_or, slice_set, IsTrue};
ghost use Rattle.std.specs.List.{count_by};
ghost use Rattle.cut_model.specs.Side.{HasBits};
ghost use Rattle.cut_model.specs.declared.network.TheConstants.{MOST_ROUTERS};

use std::marker::Model;

/// A set of the routers below its size, which is at most [`MOST_ROUTERS`](crate::MOST_ROUTERS). It is
/// sixteen words of 64 bits, router r in bit `r % 64` of word `r / 64`, and needs no memory beside
/// itself. Contracts see a list of truth values, one for each router.
///
/// After `let mut side = Side::empty(3)` and `side.put(1)`, `side.has(1)` is true, `side.has(2)` is
/// false, and `side.count()` is 1.
#[derive(Clone, Copy, Debug)]
pub struct Side {
    words: [u64; 16],
    size: u32,
}

impl Model for Side {
    ghost use Rattle.std.specs.Prelude.{Bool, List, length};

    ghost Value = { List Bool };

    ghost use Rattle.cut_model.specs.Side.{bits_of, words_of, IsHeld};
    ghost use Rattle.cut_model.specs.Packing.{words_of-bits_of, length-bits_of};

    ghost view = { λ s. bits_of s.words s.size };

    ghost invariant = { λ s. IsHeld s.words s.size };

    ghost inverse = { λ v. record { words = words_of v; size = length v } };

    ghost inverse_ok = { λ s h. λ i.
        record { words = words_of-bits_of s.words s.size h i; size = length-bits_of s.words s.size i } };
}

impl Side {
    /// The side of that size that holds no router.
    pub fn empty(size: u32) -> Side
        requires { size ≤ MOST_ROUTERS }
        ensures { result ≡ replicate size false }
    {
        Side {
            words: [0; 16],
            size,
        }
    }

    /// How many routers there are, in the side or not, at most [`MOST_ROUTERS`](crate::MOST_ROUTERS).
    #[inline]
    pub fn size(&self) -> u32
        ensures size { result ≡ length self.now }
        ensures few { length self.now ≤ MOST_ROUTERS }
    {
        self.size
    }

    /// Whether the router is in.
    #[inline]
    pub fn has(&self, router: u32) -> bool
        requires { router < length self.now }
        ensures { result ≡ slice_index_or self.now router false }
    {
        self.words[(router / 64) as usize] >> (router % 64) & 1 == 1
    }

    /// The truth values of the 64 routers from `64 * place` on, the lowest bit first; those of numbers
    /// past the size are 0.
    #[inline]
    pub fn word(&self, place: u32) -> u64
        requires { place < 16 }
        ensures { HasBits result (λ i. slice_index_or self.now (64 * place + i) false) }
    {
        self.words[place as usize]
    }

    /// Puts a router in. All others stay in or out.
    #[inline]
    pub fn put(&mut self, router: u32)
        requires { router < length self.old }
        ensures { self.new ≡ slice_set self.old router true }
    {
        self.words[(router / 64) as usize] |= 1 << (router % 64);
    }

    /// Takes a router out. All others stay in or out.
    #[inline]
    pub fn take_out(&mut self, router: u32)
        requires { router < length self.old }
        ensures { self.new ≡ slice_set self.old router false }
    {
        self.words[(router / 64) as usize] &= !(1 << (router % 64));
    }

    /// Takes all routers out.
    pub fn clear(&mut self)
        ensures { self.new ≡ replicate (length self.old) false }
    {
        self.words = [0; 16];
    }

    /// How many routers are in.
    pub fn count(&self) -> u32
        ensures { result ≡ count_by (λ b. b) self.now }
    {
        let mut sum = 0u32;
        for word in &self.words {
            sum += word.count_ones();
        }
        sum
    }

    /// Whether both are of one size and hold the same routers. It is what `==` answers.
    pub fn same(&self, other: &Side) -> bool
        ensures { IsTrue result ↔ (self.now ≡ other.now) }
    {
        self.size == other.size && self.words == other.words
    }
}

impl PartialEq for Side {
    ghost use Rattle.std.specs.Bool.{beq};
    ghost use Rattle.std.specs.Cmp.Lexicographic.{pointwise};
    ghost use Rattle.std.specs.Cmp.Rules.{comparing};
    ghost use Rattle.std.proofs.Common.{rules};

    ghost eq = { pointwise beq };

    ghost laws = { Prim.search (comparing, rules) };

    fn eq(&self, other: &Side) -> bool {
        self.same(other)
    }
}

impl Eq for Side {
    ghost use Rattle.std.specs.Cmp.Rules.{comparing};
    ghost use Rattle.std.proofs.Common.{rules};

    ghost laws = { Prim.search (comparing, rules) };
}
