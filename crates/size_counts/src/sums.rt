//! Sums over the ways to split a size.
ghost use Rattle.std.specs.Prelude.{◌≡◌, ◌+◌, ◌*◌, ◌-◌, ◌≤◌, ◌<◌, ◌↔◌, ℕ, Some, length, IfOk, IsTrue};
ghost use Rattle.listing_laws.specs.Numbers.{ways as number_of_ways, joined};
ghost use Rattle.splits.specs.Capped.{Tells};
ghost use Rattle.size_counts.specs.Sums.{ProductTold, ProductsTold};
ghost use Rattle.size_counts.specs.Ways.{universe_of, CanSplit};

use spec_syntax::Universe;
use splits::{Pascal, plus, times};
use std::alloc::{AllocError, Global};

/// In how many ways a part of a supply can be taken: by binomial coefficients in the labelled universe, and in one way in
/// the unlabelled one.
#[derive(Drop)]
pub(crate) enum Ways {
    Labelled(Pascal),
    Unlabelled,
}

impl Ways {
    /// The ways for supplies of at most so many labels.
    ///
    /// # Errors
    ///
    /// Memory may be wanting.
    pub(crate) fn new(alloc: Global, universe: Universe, greatest: u32) -> Result<Ways, AllocError>
        requires { greatest ≤ 1000 }
        ensures universe { IfOk result (λ made. universe_of made ≡ universe) }
        ensures up_to { IfOk result (λ made. CanSplit made greatest) }
    {
        match universe {
            Universe::Labelled => Ok(Ways::Labelled(Pascal::new(alloc, greatest)?)),
            Universe::Unlabelled => Ok(Ways::Unlabelled),
        }
    }

    /// In how many ways a part of d labels can be taken from a supply of n.
    pub(crate) fn number(&self, n: u32, d: u32) -> Option<u128>
        requires within { d ≤ n }
        requires up { CanSplit self.now n }
        ensures { Tells result (number_of_ways (universe_of self.now) n d) }
    {
        match self {
            Ways::Labelled(pascal) => pascal.choose(n, d),
            Ways::Unlabelled => Some(1),
        }
    }
}

/// Whether the number is told to be 0.
fn is_zero(told: Option<u128>) -> bool
    ensures { IsTrue result ↔ (told ≡ Some 0) }
{
    match told {
        Some(number) => number == 0,
        None => false,
    }
}

/// The pairs with a part of d of n labels, by the numbers of the first and of the other. Where one of these is 0, no ways are
/// looked up.
fn split(ways: &Ways, n: u32, d: u32, first: Option<u128>, other: Option<u128>) -> Option<u128>
    requires within { d ≤ n }
    requires up { CanSplit ways.now n }
    ensures { (x y : ℕ) → ProductTold first other x y → Tells result (number_of_ways (universe_of ways.now) n d * (x * y)) }
{
    if is_zero(first) || is_zero(other) {
        return Some(0);
    }
    times(ways.number(n, d), times(first, other))
}

/// How many pairs of a first and another one there are, of n atoms in all. A column has the numbers of each size from 0 on.
pub(crate) fn joined(
    ways: &Ways,
    firsts: &[Option<u128>],
    others: &[Option<u128>],
    n: u32,
) -> Option<u128>
    requires up { CanSplit ways.now n }
    requires firsts { length firsts.now ≡ n + 1 }
    requires others { length others.now ≡ n + 1 }
    ensures { (first other : ℕ → ℕ) → ProductsTold firsts.now others.now first other n → Tells result (joined (universe_of ways.now) first other n) }
{
    let mut sum = Some(0);
    for d in 0..firsts.len() {
        let one = firsts[d];
        let two = others[n as usize - d];
        sum = plus(sum, split(ways, n, d as u32, one, two));
    }
    sum
}
