//! A walk over the parts of a supply whose length lies within bounds.
ghost use Rattle.std.specs.Prelude.{◌≡◌, [], ◌∷◌, IfOk, OnErr, IfSome, IfNone, IsTrue};
ghost use Rattle.struct_model.specs.SupplyView.{supply_labels, supply_universe, is_in_order};
ghost use Rattle.splits.specs.Parts.{parts, after, IsPart};
ghost use Rattle.splits.specs.WalkView.{split_into};

use crate::length_walk::LengthWalk;
use crate::lengths::lengths_between;
use std::alloc::{AllocError, Global};
use std::marker::Model;
use struct_model::Supply;

/// A walk over the parts of a supply whose length lies within bounds, in lexicographic order, a prefix first, each with
/// what remains of the supply. A contract sees the universe of the supply, and the list of those that are still to come.
#[derive(Drop)]
pub struct PartWalk {
    walk: LengthWalk,
}

impl Model for PartWalk {
    ghost use Rattle.splits.specs.WalkView.{Walk};

    ghost Value = { Walk };

    ghost view = { λ a. a.walk };
}

impl PartWalk {
    /// A walk over all parts that have from `low` to `high` labels.
    ///
    /// # Errors
    ///
    /// Memory may be wanting.
    pub fn first(alloc: Global, supply: Supply, low: u32, high: u32) -> Result<PartWalk, AllocError>
        requires { IsTrue (is_in_order supply) }
        ensures universe { IfOk result (λ walk. walk.universe ≡ supply_universe supply) }
        ensures all { IfOk result (λ walk. walk.left ≡ parts low high (supply_labels supply)) }
    {
        let lengths = lengths_between(alloc, low, high, supply.len())?;
        let walk = LengthWalk::first(alloc, supply, lengths)?;
        Ok(PartWalk { walk })
    }

    /// A walk over those parts that have from `low` to `high` labels and come after `part`, which is one of them.
    ///
    /// # Errors
    ///
    /// Memory may be wanting.
    pub fn after(
        alloc: Global,
        supply: Supply,
        low: u32,
        high: u32,
        part: &Supply,
    ) -> Result<PartWalk, AllocError>
        requires in_order { IsTrue (is_in_order supply) }
        requires part_in_order { IsTrue (is_in_order part.now) }
        requires part { IsPart (supply_labels part.now) (parts low high (supply_labels supply)) }
        ensures universe { IfOk result (λ walk. walk.universe ≡ supply_universe supply) }
        ensures later { IfOk result (λ walk. walk.left ≡ after (supply_labels part.now) (parts low high (supply_labels supply))) }
    {
        let lengths = lengths_between(alloc, low, high, supply.len())?;
        let walk = LengthWalk::after(alloc, supply, lengths, part)?;
        Ok(PartWalk { walk })
    }

    /// The next part and what remains, or None where no part is left.
    ///
    /// # Errors
    ///
    /// Where memory is wanting the walk is as before.
    pub fn next(&mut self, alloc: Global) -> Result<Option<(Supply, Supply)>, AllocError>
        ensures some { IfOk result (λ next. IfSome next (λ split. self.old.left ≡ split_into split.0 split.1 ∷ self.new.left)) }
        ensures part_in_order { IfOk result (λ next. IfSome next (λ split. IsTrue (is_in_order split.0))) }
        ensures rest_in_order { IfOk result (λ next. IfSome next (λ split. IsTrue (is_in_order split.1))) }
        ensures part_universe { IfOk result (λ next. IfSome next (λ split. supply_universe split.0 ≡ self.old.universe)) }
        ensures rest_universe { IfOk result (λ next. IfSome next (λ split. supply_universe split.1 ≡ self.old.universe)) }
        ensures universe { self.new.universe ≡ self.old.universe }
        ensures none { IfOk result (λ next. IfNone next (self.old.left ≡ [])) }
        ensures at_end { IfOk result (λ next. IfNone next (self.new.left ≡ [])) }
        ensures err { OnErr result (self.new ≡ self.old) }
    {
        self.walk.next(alloc)
    }
}
