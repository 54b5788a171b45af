//! A walk over splits of a supply: all of them, or those whose part has the least label.
ghost use Rattle.std.specs.Prelude.{◌≡◌, ◌<◌, [], ◌∷◌, drop, length, IfOk, IfSome, IfNone, IsTrue};
ghost use Rattle.spec_syntax.specs.declared.statement.Universe.TheVariants.{Labelled as OfLabels};
ghost use Rattle.struct_model.specs.SupplyView.{supply_labels, supply_universe, is_in_order};
ghost use Rattle.lists.specs.Ascending.{ascends_above};
ghost use Rattle.splits.specs.Parts.{parts_of, after, IsPart};
ghost use Rattle.splits.specs.WalkView.{split_into};
ghost use Rattle.struct_walk.specs.SplitWalkView.{least_parts};

use splits::LengthWalk;
use std::alloc::{AllocError, Global};
use std::marker::Model;
use struct_model::{Labels, Supply};

/// A walk over splits of a supply whose part has one of some admitted lengths, in lexicographic order of the parts, a prefix
/// first: over all of these, or over those whose part has the least label. A contract sees the universe of the supply, and the
/// list of those that are still to come.
#[derive(Drop)]
pub struct SplitWalk {
    /// The label to be put in front of each part of the walk over the other labels.
    least: Option<u32>,
    walk: LengthWalk,
}

impl Model for SplitWalk {
    ghost use Rattle.splits.specs.WalkView.{Walk};

    ghost Value = { Walk };

    ghost use Rattle.struct_walk.specs.SplitWalkView.{leading, CanLead};

    ghost view = { λ a. leading a.least a.walk };

    ghost invariant = { λ a. CanLead a.least a.walk };
}

impl SplitWalk {
    /// A walk over all splits whose part has an admitted length: where the mark at the place of the length is true.
    ///
    /// # Errors
    ///
    /// Memory may be wanting.
    pub(crate) fn first(
        alloc: Global,
        supply: Supply,
        lengths: Vec<bool>,
    ) -> Result<SplitWalk, AllocError>
        requires { IsTrue (is_in_order supply) }
        ensures universe { IfOk result (λ walk. walk.universe ≡ supply_universe supply) }
        ensures all { IfOk result (λ walk. walk.left ≡ parts_of lengths.items (supply_labels supply)) }
    {
        let walk = LengthWalk::first(alloc, supply, lengths)?;
        Ok(SplitWalk { least: None, walk })
    }

    /// A walk over the splits whose part has the least label and an admitted length.
    ///
    /// # Errors
    ///
    /// Memory may be wanting.
    pub(crate) fn first_with_least(
        alloc: Global,
        supply: &Supply,
        lengths: &[bool],
    ) -> Result<SplitWalk, AllocError>
        requires in_order { IsTrue (is_in_order supply.now) }
        requires labelled { supply_universe supply.now ≡ OfLabels }
        requires some { 0 < length (supply_labels supply.now) }
        ensures universe { IfOk result (λ walk. walk.universe ≡ supply_universe supply.now) }
        ensures all { IfOk result (λ walk. walk.left ≡ least_parts lengths.now (supply_labels supply.now)) }
    {
        let (label, others) = without_first(alloc, supply)?;
        let walk = LengthWalk::first(alloc, others, shorter_by_one(alloc, lengths)?)?;
        Ok(SplitWalk {
            least: Some(label),
            walk,
        })
    }

    /// A walk over those splits whose part has an admitted length and comes after `part`, which is that of one of them.
    ///
    /// # Errors
    ///
    /// Memory may be wanting.
    pub(crate) fn after(
        alloc: Global,
        supply: Supply,
        lengths: Vec<bool>,
        part: &Supply,
    ) -> Result<SplitWalk, AllocError>
        requires in_order { IsTrue (is_in_order supply) }
        requires part_in_order { IsTrue (is_in_order part.now) }
        requires part { IsPart (supply_labels part.now) (parts_of lengths.items (supply_labels supply)) }
        ensures universe { IfOk result (λ walk. walk.universe ≡ supply_universe supply) }
        ensures later { IfOk result (λ walk. walk.left ≡ after (supply_labels part.now) (parts_of lengths.items (supply_labels supply))) }
    {
        let walk = LengthWalk::after(alloc, supply, lengths, part)?;
        Ok(SplitWalk { least: None, walk })
    }

    /// A walk over those splits whose part has the least label and an admitted length and comes after `part`, which is that of
    /// one of them.
    ///
    /// # Errors
    ///
    /// Memory may be wanting.
    pub(crate) fn after_with_least(
        alloc: Global,
        supply: &Supply,
        lengths: &[bool],
        part: &Supply,
    ) -> Result<SplitWalk, AllocError>
        requires in_order { IsTrue (is_in_order supply.now) }
        requires labelled { supply_universe supply.now ≡ OfLabels }
        requires part_in_order { IsTrue (is_in_order part.now) }
        requires part_labelled { supply_universe part.now ≡ OfLabels }
        requires part { IsPart (supply_labels part.now) (least_parts lengths.now (supply_labels supply.now)) }
        ensures universe { IfOk result (λ walk. walk.universe ≡ supply_universe supply.now) }
        ensures later { IfOk result (λ walk. walk.left ≡ after (supply_labels part.now) (least_parts lengths.now (supply_labels supply.now))) }
    {
        let (label, others) = without_first(alloc, supply)?;
        let (_, behind) = without_first(alloc, part)?;
        let walk = LengthWalk::after(alloc, others, shorter_by_one(alloc, lengths)?, &behind)?;
        Ok(SplitWalk {
            least: Some(label),
            walk,
        })
    }

    /// The next part and what remains, or None where no split is left.
    ///
    /// # Errors
    ///
    /// Memory may be wanting.
    pub(crate) fn next(&mut self, alloc: Global) -> Result<Option<(Supply, Supply)>, AllocError>
        ensures some { IfOk result (λ next. IfSome next (λ split. self.old.left ≡ split_into split.0 split.1 ∷ self.new.left)) }
        ensures part_in_order { IfOk result (λ next. IfSome next (λ split. IsTrue (is_in_order split.0))) }
        ensures rest_in_order { IfOk result (λ next. IfSome next (λ split. IsTrue (is_in_order split.1))) }
        ensures part_universe { IfOk result (λ next. IfSome next (λ split. supply_universe split.0 ≡ self.old.universe)) }
        ensures rest_universe { IfOk result (λ next. IfSome next (λ split. supply_universe split.1 ≡ self.old.universe)) }
        ensures universe { self.new.universe ≡ self.old.universe }
        ensures none { IfOk result (λ next. IfNone next (self.old.left ≡ [])) }
        ensures at_end { IfOk result (λ next. IfNone next (self.new.left ≡ [])) }
    {
        let Some((part, rest)) = self.walk.next(alloc)? else {
            return Ok(None);
        };
        match self.least {
            None => Ok(Some((part, rest))),
            Some(label) => Ok(Some((with_first(label, part)?, rest))),
        }
    }
}

/// The first label of a supply of labels, which has one, and the others.
fn without_first(alloc: Global, supply: &Supply) -> Result<(u32, Supply), AllocError>
    requires in_order { IsTrue (is_in_order supply.now) }
    requires labelled { supply_universe supply.now ≡ OfLabels }
    requires some { 0 < length (supply_labels supply.now) }
    ensures labels { IfOk result (λ split. supply_labels supply.now ≡ split.0 ∷ supply_labels split.1) }
    ensures in_order { IfOk result (λ split. IsTrue (is_in_order split.1)) }
    ensures universe { IfOk result (λ split. supply_universe split.1 ≡ OfLabels) }
{
    match supply {
        Supply::Zeros(_) => unreachable!(),
        Supply::Labels(labels) => {
            let labels = labels.as_slice();
            let others = Labels::from_slice(alloc, &labels[1..])?;
            Ok((labels[0], Supply::Labels(others)))
        }
    }
}

/// The supply of labels with one more in front, which is less than all of them.
fn with_first(label: u32, supply: Supply) -> Result<Supply, AllocError>
    requires labelled { supply_universe supply ≡ OfLabels }
    requires ascends { IsTrue (ascends_above 0 (label ∷ supply_labels supply)) }
    ensures labels { IfOk result (λ longer. supply_labels longer ≡ label ∷ supply_labels supply) }
    ensures in_order { IfOk result (λ longer. IsTrue (is_in_order longer)) }
    ensures universe { IfOk result (λ longer. supply_universe longer ≡ OfLabels) }
{
    match supply {
        Supply::Zeros(_) => unreachable!(),
        Supply::Labels(mut labels) => {
            labels.insert(0, label)?;
            Ok(Supply::Labels(labels))
        }
    }
}

/// The marks of the lengths that are shorter by one than those of these marks.
fn shorter_by_one(alloc: Global, lengths: &[bool]) -> Result<Vec<bool>, AllocError>
    ensures { IfOk result (λ marks. marks.items ≡ drop 1 lengths.now) }
{
    if lengths.is_empty() {
        return Ok(Vec::new(alloc));
    }
    Vec::from_slice(alloc, &lengths[1..])
}
