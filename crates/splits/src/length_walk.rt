//! A walk over the parts of a supply whose length is admitted.
ghost use Rattle.std.specs.Prelude.{◌≡◌, [], ◌∷◌, IfOk, OnErr, IfSome, IfNone, IsTrue};
ghost use Rattle.struct_model.specs.SupplyView.{supply_labels, supply_universe, is_in_order};
ghost use Rattle.lists.specs.Enumeration.{IsIn};
ghost use Rattle.splits.specs.Splits.{splits};
ghost use Rattle.splits.specs.Parts.{parts_of, after, IsPart};
ghost use Rattle.splits.specs.WalkView.{given_labels, split_into, to_come, IsToCome};

use crate::labelled::{next_labels, remaining_labels};
use crate::lengths::least_from;
use std::alloc::{AllocError, Global};
use std::marker::Model;
use std::mem;
use struct_model::{Labels, Supply};

/// A walk over the parts of a supply whose length is one of some admitted lengths, in lexicographic order, a prefix first,
/// each with what remains of the supply. No part of another length is made. A contract sees the universe of the supply, and
/// the list of those that are still to come.
#[derive(Drop)]
pub struct LengthWalk {
    supply: Supply,
    lengths: Vec<bool>,
    coming: Option<Supply>,
}

impl Model for LengthWalk {
    ghost use Rattle.std.specs.Prelude.{IsTrue};
    ghost use Rattle.splits.specs.WalkView.{Walk};

    ghost Value = { Walk };

    ghost use Rattle.struct_model.specs.SupplyView.{is_in_order};
    ghost use Rattle.splits.specs.WalkView.{walk_of, IsToCome};

    ghost view = { λ a. walk_of a.supply a.lengths.items a.coming };

    ghost invariant = { λ a. IsTrue (is_in_order a.supply) × IsToCome a.supply a.lengths.items a.coming };
}

impl LengthWalk {
    /// A walk over all parts whose length is admitted: where the mark at the place of the length is true. No length past the
    /// marks is admitted.
    ///
    /// # Errors
    ///
    /// Memory may be wanting.
    pub fn first(
        alloc: Global,
        supply: Supply,
        lengths: Vec<bool>,
    ) -> Result<LengthWalk, AllocError>
        requires { IsTrue (is_in_order supply) }
        ensures universe { IfOk result (λ walk. walk.universe ≡ supply_universe supply) }
        ensures all { IfOk result (λ walk. walk.left ≡ parts_of lengths.items (supply_labels supply)) }
    {
        let coming = first_part(alloc, &supply, lengths.as_slice())?;
        Ok(LengthWalk {
            supply,
            lengths,
            coming,
        })
    }

    /// A walk over those parts whose length is admitted and that come after `part`, which is one of them.
    ///
    /// # Errors
    ///
    /// Memory may be wanting.
    pub fn after(
        alloc: Global,
        supply: Supply,
        lengths: Vec<bool>,
        part: &Supply,
    ) -> Result<LengthWalk, AllocError>
        requires in_order { IsTrue (is_in_order supply) }
        requires part_in_order { IsTrue (is_in_order part.now) }
        requires part { IsPart (supply_labels part.now) (parts_of lengths.items (supply_labels supply)) }
        ensures universe { IfOk result (λ walk. walk.universe ≡ supply_universe supply) }
        ensures later { IfOk result (λ walk. walk.left ≡ after (supply_labels part.now) (parts_of lengths.items (supply_labels supply))) }
    {
        let coming = next_part(alloc, &supply, part, lengths.as_slice())?;
        Ok(LengthWalk {
            supply,
            lengths,
            coming,
        })
    }

    /// The next part and what remains, or None where no part is left.
    ///
    /// # Errors
    ///
    /// Where memory is wanting the walk is as before.
    pub fn next(&mut self, alloc: Global) -> Result<Option<(Supply, Supply)>, AllocError>
        ensures some { IfOk result (λ next. IfSome next (λ split. self.old.left ≡ split_into split.0 split.1 ∷ self.new.left)) }
        ensures part_in_order { IfOk result (λ next. IfSome next (λ split. IsTrue (is_in_order split.0))) }
        ensures rest_in_order { IfOk result (λ next. IfSome next (λ split. IsTrue (is_in_order split.1))) }
        ensures part_universe { IfOk result (λ next. IfSome next (λ split. supply_universe split.0 ≡ self.old.universe)) }
        ensures rest_universe { IfOk result (λ next. IfSome next (λ split. supply_universe split.1 ≡ self.old.universe)) }
        ensures universe { self.new.universe ≡ self.old.universe }
        ensures none { IfOk result (λ next. IfNone next (self.old.left ≡ [])) }
        ensures at_end { IfOk result (λ next. IfNone next (self.new.left ≡ [])) }
        ensures err { OnErr result (self.new ≡ self.old) }
    {
        let Some(part) = &self.coming else {
            return Ok(None);
        };
        let rest = remaining(alloc, &self.supply, part)?;
        let later = next_part(alloc, &self.supply, part, self.lengths.as_slice())?;
        let part = mem::replace(&mut self.coming, later).unwrap();
        Ok(Some((part, rest)))
    }
}

/// The labels of a supply of labels, and none of zeros.
fn given_labels(supply: &Supply) -> &[u32]
    ensures { result.now ≡ given_labels supply.now }
{
    match supply {
        Supply::Zeros(_) => &[],
        Supply::Labels(labels) => labels.as_slice(),
    }
}

/// The first part whose length is admitted, if there is one.
fn first_part(
    alloc: Global,
    supply: &Supply,
    lengths: &[bool],
) -> Result<Option<Supply>, AllocError>
    requires { IsTrue (is_in_order supply.now) }
    ensures all { IfOk
        result
        (λ coming. to_come supply.now lengths.now coming ≡ parts_of lengths.now (supply_labels supply.now)) }
    ensures kept { IfOk result (λ coming. IsToCome supply.now lengths.now coming) }
{
    let Some(length) = least_from(lengths, 0) else {
        return Ok(None);
    };
    if (supply.len() as usize) < length {
        return Ok(None);
    }
    match supply {
        Supply::Zeros(_) => Ok(Some(Supply::Zeros(length as u32))),
        Supply::Labels(labels) => {
            let labels = labels.as_slice();
            let part = Labels::from_slice(alloc, &labels[..length])?;
            Ok(Some(Supply::Labels(part)))
        }
    }
}

/// The part that comes next after `part`, if there is one.
fn next_part(
    alloc: Global,
    supply: &Supply,
    part: &Supply,
    lengths: &[bool],
) -> Result<Option<Supply>, AllocError>
    requires in_order { IsTrue (is_in_order supply.now) }
    requires part_in_order { IsTrue (is_in_order part.now) }
    requires part { IsPart (supply_labels part.now) (parts_of lengths.now (supply_labels supply.now)) }
    ensures later { IfOk
        result
        (λ coming. to_come supply.now lengths.now coming ≡ after (supply_labels part.now) (parts_of lengths.now (supply_labels supply.now))) }
    ensures kept { IfOk result (λ coming. IsToCome supply.now lengths.now coming) }
{
    match supply {
        Supply::Zeros(n) => {
            let Some(length) = least_from(lengths, part.len() as usize + 1) else {
                return Ok(None);
            };
            if length <= *n as usize {
                Ok(Some(Supply::Zeros(length as u32)))
            } else {
                Ok(None)
            }
        }
        Supply::Labels(labels) => {
            match next_labels(alloc, labels.as_slice(), given_labels(part), lengths)? {
                Some(next) => Ok(Some(Supply::Labels(next))),
                None => Ok(None),
            }
        }
    }
}

/// What remains of the supply without `part`.
pub fn remaining(alloc: Global, supply: &Supply, part: &Supply) -> Result<Supply, AllocError>
    requires in_order { IsTrue (is_in_order supply.now) }
    requires part_in_order { IsTrue (is_in_order part.now) }
    requires part { IsPart (supply_labels part.now) (splits (supply_labels supply.now)) }
    ensures rest { IfOk result (λ rest. IsIn (split_into part.now rest) (splits (supply_labels supply.now))) }
    ensures in_order { IfOk result (λ rest. IsTrue (is_in_order rest)) }
    ensures universe { IfOk result (λ rest. supply_universe rest ≡ supply_universe supply.now) }
{
    match supply {
        Supply::Zeros(n) => Ok(Supply::Zeros(*n - part.len())),
        Supply::Labels(labels) => {
            let rest = remaining_labels(alloc, labels.as_slice(), given_labels(part))?;
            Ok(Supply::Labels(rest))
        }
    }
}
