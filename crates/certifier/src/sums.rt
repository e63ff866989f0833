//! What a flow under way sends out of each router.
ghost use Rattle.std.specs.Prelude.{◌≡◌, ℕ, ◌+◌, ◌^◌, ◌<◌, ◌≤◌, IfOk};
ghost use Rattle.std.specs.Prelude.{length, nat_abs, neg_ℤ, pos, replicate, slice_index_or};
ghost use Rattle.std.specs.List.{list_any, range_with_len};
ghost use Rattle.cut_model.specs.declared.network.TheConstants.{MOST_CAPACITY, MOST_LINKS};
ghost use Rattle.certifier.specs.Sums.{sends_amount, some_stays, sum_at, with_end, with_value};

use cut_model::{Link, MOST_LINKS, NoMemory};
use std::alloc::Global;
use std::marker::Model;

/// For each router what the links send out of it, of which so many have their value so far, less what they bring to
/// it. Contracts see a `SumsView`.
#[derive(Drop)]
pub(crate) struct Sums {
    values: usize,
    sums: Vec<i64>,
}

impl Model for Sums {
    ghost use Rattle.certifier.specs.Sums.{AreSmall, SumsView};

    ghost Value = { SumsView };

    ghost view = { λ s. record { values = s.values; sums = s.sums.items } };

    ghost invariant = { λ s. AreSmall s.values s.sums.items };
}

impl Sums {
    /// No link has its value yet. It takes 8 bytes for each router.
    ///
    /// # Errors
    /// [`NoMemory`] where that memory can't be had.
    pub(crate) fn make(alloc: Global, routers: u32) -> Result<Sums, NoMemory>
        ensures { IfOk result (λ s. s ≡ record { values = 0; sums = replicate routers (pos 0) }) }
    {
        Ok(Sums {
            values: 0,
            sums: vec![in alloc; 0i64; routers as usize]?,
        })
    }

    /// How many links have their value.
    pub(crate) fn values(&self) -> usize
        ensures { result ≡ self.now.values }
    {
        self.values
    }

    /// The next link has this value.
    pub(crate) fn add(&mut self, link: &Link, value: i64)
        requires few { self.old.values < MOST_LINKS }
        requires a { link.now.a < length self.old.sums }
        requires b { link.now.b < length self.old.sums }
        requires small { nat_abs value ≤ MOST_CAPACITY }
        ensures { self.new ≡ record {
          values = self.old.values + 1;
          sums = with_value link.now value self.old.sums;
        } }
    {
        self.values += 1;
        add_value(&mut self.sums, link, value);
    }

    /// As much as this is sent out of a router.
    pub(crate) fn sends(&self, router: u32, amount: u64) -> bool
        requires { router < length self.now.sums }
        ensures value { result ≡ sends_amount self.now.sums router amount }
        ensures small { nat_abs (sum_at self.now.sums router) < 2 ^ 63 }
    {
        let sum = self.sums[router as usize];
        sum >= 0 && sum as u64 == amount
    }

    /// Something stays in a router, which is none of these two.
    fn stays(&self, child: u32, up: u32, router: usize) -> bool
        requires { router < length self.now.sums }
        ensures { result ≡ some_stays self.now.sums child up router }
    {
        router != child as usize && router != up as usize && self.sums[router] != 0
    }

    /// Something stays in a router that is none of these two.
    pub(crate) fn leaks_beside(&self, child: u32, up: u32) -> bool
        ensures { result ≡ list_any (some_stays self.now.sums child up) (range_with_len 0 (length self.now.sums)) }
    {
        for router in 0..self.sums.len() {
            if self.stays(child, up, router) {
                return true;
            }
        }
        false
    }
}

/// Adds a value at one end of a link, and takes it away at the other.
fn add_value(sums: &mut [i64], link: &Link, value: i64)
    requires a { link.now.a < length sums.old }
    requires b { link.now.b < length sums.old }
    requires small { (r : ℕ) → r < length sums.old → nat_abs (sum_at sums.old r) + nat_abs value < 2 ^ 61 }
    ensures { sums.new ≡ with_value link.now value sums.old }
{
    add_at(sums, link.a, value);
    take_at(sums, link.b, value);
}

/// Adds a value to the sum of a router.
fn add_at(sums: &mut [i64], router: u32, value: i64)
    requires within { router < length sums.old }
    requires room { nat_abs (sum_at sums.old router) + nat_abs value < 2 ^ 62 }
    ensures { sums.new ≡ with_end router value sums.old }
{
    sums[router as usize] += value;
}

/// Takes a value away from the sum of a router.
fn take_at(sums: &mut [i64], router: u32, value: i64)
    requires within { router < length sums.old }
    requires room { nat_abs (sum_at sums.old router) + nat_abs value < 2 ^ 62 }
    ensures { sums.new ≡ with_end router (neg_ℤ value) sums.old }
{
    sums[router as usize] -= value;
}
