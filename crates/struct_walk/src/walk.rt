//! What a walk is.
ghost use Rattle.std.specs.Prelude.{◌≡◌, ℕ, Bool, true, false, List, [], ◌∷◌, IfOk, OnErr, IfSome, IfNone, IsTrue, ◌↔◌};

use std::alloc::{AllocError, Global};

/// Gives the items of a list one at a time.
///
/// A contract sees the list that is still to come, `rest`, and whether the walk is broken.
pub trait Walk {
    /// What the walk gives.
    type Item;

    /// The items still to come.
    ghost rest: { Self → List Self.Item };

    /// Whether the walk is broken, as it is after want of memory.
    ghost is_broken: { Self → Bool };

    /// The next item, or None where none is left. The walk isn't broken.
    ///
    /// # Errors
    ///
    /// Where memory is wanting the walk is broken.
    fn next(&mut self, alloc: Global) -> Result<Option<Self::Item>, AllocError>
        requires { is_broken self.old ≡ false }
        ensures some { IfOk result (λ next. IfSome next (λ item. rest self.old ≡ item ∷ rest self.new)) }
        ensures none { IfOk result (λ next. IfNone next (rest self.old ≡ [])) }
        ensures at_end { IfOk result (λ next. IfNone next (rest self.new ≡ [])) }
        ensures kept { IfOk result (λ next. is_broken self.new ≡ false) }
        ensures err { OnErr result (is_broken self.new ≡ true) };

    /// Whether no item is left. The walk isn't broken. It takes no memory.
    fn finished(&self) -> bool
        requires { is_broken self.now ≡ false }
        ensures { IsTrue result ↔ (rest self.now ≡ []) };

    /// Whether the walk is broken. It takes no memory.
    fn broken(&self) -> bool
        ensures { result ≡ is_broken self.now };
}

/// Why no walk begins after a structure.
#[derive(Debug, Drop)]
pub enum AfterFault {
    /// It isn't one of those that the walk gives.
    NotMember,
    /// Memory is wanting.
    Memory,
}
