//! How the bound of a container is written.
ghost use Rattle.std.specs.Prelude.{◌≡◌};
ghost use Rattle.gf_equations.specs.Bounds.{bound, is_any};

use spec_syntax::Card;

/// A bound on the number of components, as it is written.
#[derive(Clone, Copy, PartialEq, Eq, Debug)]
pub(crate) enum Bound {
    /// None.
    Any,
    /// `card = k`.
    Exactly(u32),
    /// `card <= k`.
    AtMost(u32),
    /// `card >= k`.
    AtLeast(u32),
}

impl Bound {
    /// How this bound is written.
    pub(crate) fn of(card: Card) -> Bound
        ensures { result ≡ bound card }
    {
        match card.high {
            None if card.low == 0 => Bound::Any,
            None => Bound::AtLeast(card.low),
            Some(high) if card.low == high => Bound::Exactly(high),
            Some(high) => Bound::AtMost(high),
        }
    }

    /// Whether it is none.
    pub(crate) fn is_any(self) -> bool
        ensures { result ≡ is_any self }
    {
        self == Bound::Any
    }
}
