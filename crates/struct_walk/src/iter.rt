//! Walks over the members of a class.
ghost use Rattle.std.specs.Prelude.{◌≡◌, ℕ, ◌∷◌, [], Some, false, true, drop, slice_get, IfOk, IfErr, IfSome, IfNone, OnOk, OnErr, IsTrue};
ghost use Rattle.spec_syntax.specs.Expression.{Name};
ghost use Rattle.spec_syntax.specs.Rules.{rule_name};
ghost use Rattle.struct_model.specs.Bounded.{listing};
ghost use Rattle.struct_model.specs.Membership.{supply, is_member};
ghost use Rattle.well_founded.specs.Checked.{grammar as grammar_of};
ghost use Rattle.listing_laws.specs.NodeListing.{listing_of_rule};
ghost use Rattle.size_counts.specs.CountedView.{Counts};
ghost use Rattle.struct_walk.specs.Resumed.{those_after, AfterFaultSays};

use crate::walk::{AfterFault, Walk};
use crate::walker::Walker;
use canon::is_member;
use size_counts::Counted;
use std::alloc::{AllocError, Global};
use std::marker::Model;
use struct_model::Struct;

/// A walk over the members of a class with so many atoms as the greatest size of its numbers, in ascending order.
///
/// A contract sees the numbers, the members that are still to come, and whether the walk is broken.
#[derive(Drop)]
pub struct Iter {
    counted: Counted,
    walker: Walker,
}

impl Model for Iter {
    ghost use Rattle.struct_walk.specs.WalkerView.{Iterated};

    ghost Value = { Iterated };

    ghost use Rattle.struct_walk.specs.WalkerView.{iterated_code};

    ghost coded = { iterated_code };

    ghost use Rattle.struct_walk.specs.WalkerView.{iterated, HasRest};

    ghost view = { λ a. iterated a.counted a.walker };

    ghost invariant = { λ a. HasRest a.counted a.walker };
}

/// Whether the structure is a member of the class at the greatest size of the numbers.
fn is_member_of(counted: &Counted, s: &Struct) -> bool
    ensures { (sym : ℕ) → counted.now.checked.start ≡ Some sym → result ≡ is_member (grammar_of counted.now.checked) (rule_name counted.now.checked.rules sym) counted.now.size s.now }
{
    let grammar = counted.grammar();
    let sym = grammar.start().unwrap();
    is_member(grammar, sym, counted.size(), s)
}

impl Iter {
    /// A walk over the members of the class at the size.
    ///
    /// # Errors
    ///
    /// Memory may be wanting.
    pub fn first(alloc: Global, counted: Counted) -> Result<Iter, AllocError>
        ensures counts { IfOk result (λ iter. iter.counts ≡ counted) }
        ensures rest { (sym : ℕ) → counted.checked.start ≡ Some sym → IfOk result (λ iter. iter.rest ≡ listing_of_rule counted.checked sym counted.size) }
        ensures whole { IfOk result (λ iter. iter.is_broken ≡ false) }
    {
        let walker = Walker::over_members(alloc, &counted)?;
        Ok(Iter { counted, walker })
    }

    /// A walk over the members of the class at the size that come after `from`.
    ///
    /// # Errors
    ///
    /// `from` may be no member of the class at the size, or memory may be wanting.
    pub fn after(alloc: Global, counted: Counted, from: &Struct) -> Result<Iter, AfterFault>
        ensures counts { IfOk result (λ iter. iter.counts ≡ counted) }
        ensures rest { (sym : ℕ) → counted.checked.start ≡ Some sym → IfOk result (λ iter. iter.rest ≡ those_after true from.now (listing_of_rule counted.checked sym counted.size)) }
        ensures whole { IfOk result (λ iter. iter.is_broken ≡ false) }
        ensures member { (sym : ℕ) → counted.checked.start ≡ Some sym → IfOk result (λ iter. IsTrue (is_member (grammar_of counted.checked) (rule_name counted.checked.rules sym) counted.size from.now)) }
        ensures fault { (sym : ℕ) → counted.checked.start ≡ Some sym → IfErr result (AfterFaultSays (grammar_of counted.checked) (rule_name counted.checked.rules sym) counted.size from.now) }
    {
        if !is_member_of(&counted, from) {
            return Err(AfterFault::NotMember);
        }
        let Ok(walker) = Walker::after_member(alloc, &counted, from) else {
            return Err(AfterFault::Memory);
        };
        Ok(Iter { counted, walker })
    }

    /// The numbers that the walk was made with. It takes no memory.
    pub fn counted(&self) -> &Counted
        ensures { result.now ≡ self.now.counts }
    {
        &self.counted
    }

    /// The member that comes next, or None where none is left. The walk isn't broken. It takes no memory.
    pub fn coming(&self) -> Option<&Struct>
        requires { self.now.is_broken ≡ false }
        ensures some { IfSome result (λ s. slice_get self.now.rest 0 ≡ Some s.now) }
        ensures none { IfNone result (self.now.rest ≡ []) }
    {
        self.walker.coming()
    }

    /// Passes the member that comes next, if one is left. The walk isn't broken.
    ///
    /// # Errors
    ///
    /// Where memory is wanting the walk is broken.
    pub fn pass(&mut self, alloc: Global) -> Result<(), AllocError>
        requires { self.old.is_broken ≡ false }
        ensures rest { OnOk result (self.new.rest ≡ drop 1 self.old.rest) }
        ensures counts { self.new.counts ≡ self.old.counts }
        ensures kept { OnOk result (self.new.is_broken ≡ false) }
        ensures err { OnErr result (self.new.is_broken ≡ true) }
    {
        self.walker.pass(alloc, &self.counted)
    }
}

impl Walk for Iter {
    type Item = Struct;

    ghost rest = { λ iter. iter.rest };

    ghost is_broken = { λ iter. iter.is_broken };

    fn next(&mut self, alloc: Global) -> Result<Option<Struct>, AllocError>
        requires { self.old.is_broken ≡ false }
        ensures some { IfOk result (λ next. IfSome next (λ item. self.old.rest ≡ item ∷ self.new.rest)) }
        ensures none { IfOk result (λ next. IfNone next (self.old.rest ≡ [])) }
        ensures at_end { IfOk result (λ next. IfNone next (self.new.rest ≡ [])) }
        ensures kept { IfOk result (λ next. self.new.is_broken ≡ false) }
        ensures err { OnErr result (self.new.is_broken ≡ true) }
        ensures counts { self.new.counts ≡ self.old.counts }
    {
        self.walker.next(alloc, &self.counted)
    }

    fn finished(&self) -> bool {
        self.coming().is_none()
    }

    fn broken(&self) -> bool {
        self.walker.broken()
    }
}
