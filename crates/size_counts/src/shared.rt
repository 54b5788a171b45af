//! Sums of products that come in so many equal parts.
ghost use Rattle.std.specs.Prelude.{◌≡◌, ◌+◌, ◌*◌, ◌≤◌, ◌<◌, ℕ};
ghost use Rattle.splits.specs.Capped.{Tells};
ghost use Rattle.size_counts.specs.Shared.{StandsFor};

use splits::{plus, times};

/// A sum, as what each of so many parts has of it, and a rest of less than one for each.
#[derive(Clone, Copy)]
pub(crate) struct Shared {
    parts: u128,
    each: Option<u128>,
    rest: u128,
}

impl Shared {
    /// The sum of nothing, for so many parts.
    pub(crate) fn new(parts: u32) -> Shared
        requires low { 1 ≤ parts }
        ensures parts { result.parts ≡ parts }
        ensures left { result.rest < result.parts }
        ensures sum { StandsFor result 0 }
    {
        Shared {
            parts: parts as u128,
            each: Some(0),
            rest: 0,
        }
    }

    /// Adds the product of the two to the sum.
    pub(crate) fn add(&mut self, first: u128, second: u128)
        requires few { self.old.parts ≤ 1000 }
        requires left { self.old.rest < self.old.parts }
        ensures parts { self.new.parts ≡ self.old.parts }
        ensures left { self.new.rest < self.new.parts }
        ensures sum { (n : ℕ) → StandsFor self.old n → StandsFor self.new (n + first * second) }
    {
        let parts = self.parts;
        let whole = times(Some(first / parts), Some(second));
        let of_rest = times(Some(first % parts), Some(second / parts));
        let rest = (first % parts) * (second % parts) + self.rest;
        self.each = plus(self.each, plus(whole, plus(of_rest, Some(rest / parts))));
        self.rest = rest % parts;
    }

    /// What each part has of the sum, which comes in equal parts.
    pub(crate) fn each(&self) -> Option<u128>
        ensures { (n : ℕ) → StandsFor self.now (self.now.parts * n) → Tells result n }
    {
        self.each
    }
}
