//! Walkers over the structures of a node.
ghost use Rattle.std.specs.Prelude.{◌≡◌, ℕ, ◌∷◌, [], false, true, List, IfOk, IfSome, IfNone, OnOk, OnErr, IsTrue, ◌↔◌, drop, slice_get, Some};
ghost use Rattle.struct_model.specs.SupplyView.{supply_labels};
ghost use Rattle.lists.specs.Enumeration.{IsIn};
ghost use Rattle.listing_laws.specs.NodeListing.{listing_on, listing_of_rule};
ghost use Rattle.listing_laws.specs.SortedNodes.{following_at};
ghost use Rattle.size_counts.specs.CountedView.{Counts, IsReachedIn};
ghost use Rattle.spec_syntax.specs.Rules.{rule_name};
ghost use Rattle.struct_model.specs.Membership.{is_member};
ghost use Rattle.well_founded.specs.Checked.{grammar as grammar_of};
ghost use Rattle.struct_walk.specs.Resumed.{those_after};
ghost use Rattle.struct_walk.specs.Stands.{IsAsked};
ghost use Rattle.struct_walk.specs.WalkerView.{walker_rest, walker_is_broken, HasRest};

use crate::later::Later;
use crate::open::{open_node, open_rule};
use crate::resume::{resume, resume_rule};
use crate::stepping::step;
use size_counts::Counted;
use std::alloc::{AllocError, Global};
use std::mem;
use struct_model::{Struct, Supply, copy};

/// A walk over the structures of a node with the labels of a supply, in ascending order.
///
/// What is still to come is told together with the numbers of the class.
#[derive(Drop)]
pub enum Walker {
    /// Memory was wanting.
    Broken,
    /// Nothing is left.
    Ended,
    /// This structure comes next, and others come later.
    At(Struct, Later),
}

impl Walker {
    /// A walk over all structures of the node, which is reached, with the labels of the supply.
    ///
    /// # Errors
    ///
    /// Memory may be wanting.
    pub fn first(
        alloc: Global,
        counted: &Counted,
        node: u32,
        supply: Supply,
    ) -> Result<Walker, AllocError>
        requires reached { IsReachedIn counted.now node }
        requires asked { IsAsked counted.now supply }
        ensures rest { IfOk result (λ walker. walker_rest counted.now walker ≡ listing_on counted.now.checked node (supply_labels supply)) }
        ensures has_rest { IfOk result (HasRest counted.now) }
        ensures whole { IfOk result (λ walker. walker_is_broken walker ≡ false) }
    {
        let _ = counted.grammar();
        if counted.number(node, supply.len()) == 0 {
            return Ok(Walker::Ended);
        }
        let (later, s) = open_node(alloc, counted, node, supply)?;
        Ok(Walker::At(s, later))
    }

    /// A walk over all members of the class at the greatest size of its numbers.
    ///
    /// # Errors
    ///
    /// Memory may be wanting.
    pub(crate) fn over_members(alloc: Global, counted: &Counted) -> Result<Walker, AllocError>
        ensures rest { (sym : ℕ) → counted.now.checked.start ≡ Some sym → IfOk result (λ walker. walker_rest counted.now walker ≡ listing_of_rule counted.now.checked sym counted.now.size) }
        ensures has_rest { IfOk result (HasRest counted.now) }
        ensures whole { IfOk result (λ walker. walker_is_broken walker ≡ false) }
    {
        if counted.count() == 0 {
            return Ok(Walker::Ended);
        }
        let grammar = counted.grammar();
        let sym = grammar.start().unwrap();
        let supply = Supply::whole(alloc, grammar.universe(), counted.size())?;
        let (later, s) = open_rule(alloc, counted, sym, supply)?;
        Ok(Walker::At(s, later))
    }

    /// A walk over the structures of the node, which is reached, with the labels of the supply that come after `from`, which is
    /// one of them, and over `from` itself too where `strict` is false.
    ///
    /// # Errors
    ///
    /// Memory may be wanting.
    pub fn seek(
        alloc: Global,
        counted: &Counted,
        node: u32,
        supply: Supply,
        from: &Struct,
        strict: bool,
    ) -> Result<Walker, AllocError>
        requires reached { IsReachedIn counted.now node }
        requires asked { IsAsked counted.now supply }
        requires one { IsIn from.now (listing_on counted.now.checked node (supply_labels supply)) }
        ensures rest { IfOk result (λ walker. walker_rest counted.now walker ≡ following_at counted.now.checked node strict from.now (supply_labels supply)) }
        ensures has_rest { IfOk result (HasRest counted.now) }
        ensures whole { IfOk result (λ walker. walker_is_broken walker ≡ false) }
    {
        let _ = counted.grammar();
        let later = resume(alloc, counted, node, supply, from)?;
        let s = copy(alloc, from)?;
        let mut walker = Walker::At(s, later);
        if strict {
            walker.pass(alloc, counted)?;
        }
        Ok(walker)
    }

    /// A walk over the members of the class at the greatest size of its numbers that come after `from`, which is one of them.
    ///
    /// # Errors
    ///
    /// Memory may be wanting.
    pub(crate) fn after_member(
        alloc: Global,
        counted: &Counted,
        from: &Struct,
    ) -> Result<Walker, AllocError>
        requires { (sym : ℕ) → counted.now.checked.start ≡ Some sym → IsTrue (is_member (grammar_of counted.now.checked) (rule_name counted.now.checked.rules sym) counted.now.size from.now) }
        ensures rest { (sym : ℕ) → counted.now.checked.start ≡ Some sym → IfOk result (λ walker. walker_rest counted.now walker ≡ those_after true from.now (listing_of_rule counted.now.checked sym counted.now.size)) }
        ensures has_rest { IfOk result (HasRest counted.now) }
        ensures whole { IfOk result (λ walker. walker_is_broken walker ≡ false) }
    {
        let grammar = counted.grammar();
        let sym = grammar.start().unwrap();
        let supply = Supply::whole(alloc, grammar.universe(), counted.size())?;
        let later = resume_rule(alloc, counted, sym, supply, from)?;
        let s = copy(alloc, from)?;
        let mut walker = Walker::At(s, later);
        walker.pass(alloc, counted)?;
        Ok(walker)
    }

    /// The structure that comes next, or None where none is left. The walker isn't broken. It takes no memory.
    pub fn coming(&self) -> Option<&Struct>
        requires whole { walker_is_broken self.now ≡ false }
        ensures some { (counts : Counts) → IfSome result (λ s. slice_get (walker_rest counts self.now) 0 ≡ Some s.now) }
        ensures none { (counts : Counts) → IfNone result (walker_rest counts self.now ≡ []) }
    {
        match self {
            Walker::At(s, _) => Some(s),
            Walker::Broken | Walker::Ended => None,
        }
    }

    /// Passes the structure that comes next, if one is left. The walker isn't broken, and has a rest with these numbers.
    ///
    /// # Errors
    ///
    /// Where memory is wanting the walker is broken.
    pub fn pass(&mut self, alloc: Global, counted: &Counted) -> Result<(), AllocError>
        requires whole { walker_is_broken self.old ≡ false }
        requires has_rest { HasRest counted.now self.old }
        ensures rest { OnOk result (walker_rest counted.now self.new ≡ drop 1 (walker_rest counted.now self.old)) }
        ensures has_rest { HasRest counted.now self.new }
        ensures kept { OnOk result (walker_is_broken self.new ≡ false) }
        ensures err { OnErr result (walker_is_broken self.new ≡ true) }
    {
        match mem::replace(self, Walker::Broken) {
            Walker::Broken => unreachable!(),
            Walker::Ended => *self = Walker::Ended,
            Walker::At(mut s, mut later) => {
                *self = if step(alloc, counted, &mut later, &mut s)? {
                    Walker::At(s, later)
                } else {
                    Walker::Ended
                };
            }
        }
        Ok(())
    }

    /// The next structure, or None where none is left. The walker isn't broken, and has a rest with these numbers.
    ///
    /// # Errors
    ///
    /// Where memory is wanting the walker is broken.
    pub fn next(&mut self, alloc: Global, counted: &Counted) -> Result<Option<Struct>, AllocError>
        requires whole { walker_is_broken self.old ≡ false }
        requires has_rest { HasRest counted.now self.old }
        ensures some { IfOk result (λ next. IfSome next (λ s. walker_rest counted.now self.old ≡ s ∷ walker_rest counted.now self.new)) }
        ensures none { IfOk result (λ next. IfNone next (walker_rest counted.now self.old ≡ [])) }
        ensures at_end { IfOk result (λ next. IfNone next (walker_rest counted.now self.new ≡ [])) }
        ensures has_rest { HasRest counted.now self.new }
        ensures kept { IfOk result (λ next. walker_is_broken self.new ≡ false) }
        ensures err { OnErr result (walker_is_broken self.new ≡ true) }
    {
        let Some(s) = self.coming() else {
            return Ok(None);
        };
        let Ok(given) = copy(alloc, s) else {
            *self = Walker::Broken;
            return Err(AllocError);
        };
        self.pass(alloc, counted)?;
        Ok(Some(given))
    }

    /// Whether the walker is broken, as it is after want of memory. It takes no memory.
    pub fn broken(&self) -> bool
        ensures { result ≡ walker_is_broken self.now }
    {
        match self {
            Walker::Broken => true,
            Walker::Ended | Walker::At(_, _) => false,
        }
    }
}
