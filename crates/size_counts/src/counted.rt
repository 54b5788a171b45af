//! The numbers of a class up to a size.
ghost use Rattle.std.specs.Prelude.{◌≡◌, ◌⊎◌, ◌+◌, ◌-◌, ◌*◌, ◌^◌, ◌≤◌, ◌<◌, ◌↔◌, ◌∷◌, [], ◌++◌, ℕ, List, nat_eq, true, false, slice_get, Some, None, length, IfOk, IfErr, OnOk, IsSome, IfSome, IsTrue};
ghost use Rattle.std.specs.Option.{option_map, option_map_or};
ghost use Rattle.spec_syntax.specs.declared.expr.Card.{Card as AnyCard};
ghost use Rattle.spec_syntax.specs.Card.{is_within};
ghost use Rattle.spec_syntax.specs.Expression.{Name};
ghost use Rattle.spec_syntax.specs.Rules.{all_nodes, rule_name};
ghost use Rattle.spec_syntax.specs.declared.statement.Universe.TheVariants.{Unlabelled};
ghost use Rattle.struct_model.specs.Bounded.{number};
ghost use Rattle.struct_model.specs.Structure.{Structure, size};
ghost use Rattle.struct_model.specs.Membership.{supply};
ghost use Rattle.spec_syntax.specs.Nodes.{node_at, card_at, children_at, right_node, arguments_at};
ghost use Rattle.well_founded.specs.declared.node.NodeKind.TheVariants as told;
ghost use Rattle.well_founded.specs.NodeKinds.{kind_of};
ghost use Rattle.well_founded.specs.Checked.{grammar as grammar_of};
ghost use Rattle.listing_laws.specs.SortedNodes.{sorted_at};
ghost use Rattle.size_counts.specs.Reached.{IsReached};
ghost use Rattle.size_counts.specs.Numbers.{NumbersSay, first_large};
ghost use Rattle.size_counts.specs.Told.{IsReady};
ghost use Rattle.size_counts.specs.Ways.{CanSplit};
ghost use Rattle.size_counts.specs.CountedView.{Counts as CountsSeen, IsCounted, IsReachedIn, number_of, suffix_of, lists_of, sets_of, cycles_of, FaultSays};
ghost use Rattle.size_counts.specs.Filled.{LayerSays, FaultAt, IsFilledTo};
ghost use Rattle.size_counts.specs.Totals.{may_fill};

use crate::fill::{counts, longer_each};
use crate::layer::{kept, too_large};
use crate::place::CountFault;
use crate::reached::reached_from;
use crate::rows::rows;
use crate::spot::place_of;
use crate::sums::Ways;
use crate::tables::{Tables, cell};
use crate::totals::{is_filled, totals};
use seq::Seq;
use spec_syntax::{Card, Universe};
use std::alloc::{AllocError, Global};
use std::marker::Model;
use well_founded::Grammar;

/// The numbers of the marked nodes at size m, none of which is too large.
///
/// # Errors
///
/// The first of them may be too large, or memory may be wanting.
fn layer(alloc: Global, tables: &Tables, m: u32) -> Result<Seq<Seq<u128>>, CountFault>
    requires { IsReady tables.now m }
    ensures { LayerSays tables.now m result }
{
    let mut beside = longer_each(alloc, tables, m)?;
    let now = counts(alloc, tables, m, beside.as_mut_slice())?;
    let rows = rows(alloc, tables, m, now.as_slice(), beside.as_slice())?;
    if let Some((node, i)) = too_large(rows.as_slice()) {
        let place = place_of(&tables.grammar, node as u32, i as u32, m);
        return Err(CountFault::TooLarge(place));
    }
    Ok(kept(alloc, rows.as_slice())?)
}

/// Puts the numbers of one size more at the end.
fn add(layers: &mut Vec<Seq<Seq<u128>>>, numbers: Seq<Seq<u128>>) -> Result<(), AllocError>
    ensures { OnOk result (layers.new.items ≡ layers.old.items ++ numbers ∷ []) }
{
    layers.push(numbers)?;
    Ok(())
}

/// The tables with the numbers at all sizes up to `size`.
fn filled(alloc: Global, mut tables: Tables, size: u32) -> Result<Tables, CountFault>
    requires ready { IsReady tables 0 }
    requires ways { CanSplit tables.ways size }
    requires small { size ≤ 1000 }
    ensures full { IfOk result (λ full. IsFilledTo tables full (size + 1)) }
    ensures fault { IfErr result (λ fault. FaultAt tables (first_large (grammar_of tables.grammar) tables.marks.items size) fault) }
{
    for m in 0..size + 1 {
        let numbers = layer(alloc, &tables, m)?;
        add(&mut tables.layers, numbers)?;
    }
    Ok(tables)
}

/// The numbers of a class: for each node that is reached from it, and for each size up to one, how many structures the node
/// has, and how many lists its parts make.
///
/// A contract sees the checked grammar and the size.
#[derive(Drop)]
pub struct Counted {
    tables: Tables,
    size: u32,
    totals: Vec<Seq<Seq<u32>>>,
}

impl Model for Counted {
    ghost use Rattle.size_counts.specs.CountedView.{Counts};
    ghost use Rattle.size_counts.specs.CountedCode.{counts_code};

    ghost Value = { Counts };

    ghost coded = { counts_code };

    ghost use Rattle.size_counts.specs.Filled.{counts_of, IsFull};

    ghost view = { counts_of };

    ghost invariant = { IsFull };
}

impl Counted {
    /// The numbers of the grammar's class at all sizes up to `size`.
    ///
    /// # Errors
    ///
    /// The first number, by size, node, group and index, that is above 2^128 - 1 is told, and memory may be wanting.
    pub fn new(alloc: Global, grammar: Grammar, size: u32) -> Result<Counted, CountFault>
        requires start { IsSome grammar.start }
        requires small { size ≤ 1000 }
        ensures counted { IfOk result (λ counted. counted ≡ record { checked = grammar; size = size }) }
        ensures fit { IfOk result (λ counted. (sym : ℕ) → grammar.start ≡ Some sym → NumbersSay (grammar_of grammar) sym size None) }
        ensures fault { IfErr result (λ fault. (sym : ℕ) → grammar.start ≡ Some sym → FaultSays (grammar_of grammar) sym size fault) }
    {
        let sym = grammar.start().unwrap();
        let marks = reached_from(alloc, &grammar, sym)?;
        let ways = Ways::new(alloc, grammar.universe(), size)?;
        let tables = Tables {
            grammar,
            marks,
            ways,
            layers: Vec::new(alloc),
        };
        let tables = filled(alloc, tables, size)?;
        let totals = totals(alloc, &tables)?;
        Ok(Counted {
            tables,
            size,
            totals,
        })
    }

    /// The grammar.
    pub fn grammar(&self) -> &Grammar
        ensures value { result.now ≡ self.now.checked }
        ensures kept { IsCounted self.now }
    {
        &self.tables.grammar
    }

    /// The greatest size.
    pub fn size(&self) -> u32
        ensures { result ≡ self.now.size }
    {
        self.size
    }

    /// Whether the node is reached from the class.
    pub fn reached(&self, node: u32) -> bool
        requires { node < length (all_nodes self.now.checked.rules) }
        ensures only { IsTrue result → IsReachedIn self.now node }
        ensures always { IsReachedIn self.now node → IsTrue result }
    {
        self.tables.marks[node as usize]
    }

    /// The number of members of the class at the greatest size.
    pub fn count(&self) -> u128
        ensures { (sym : ℕ) → self.now.checked.start ≡ Some sym → result ≡ number (grammar_of self.now.checked) (Name (rule_name self.now.checked.rules sym)) self.now.size }
    {
        let sym = self.tables.grammar.start().unwrap();
        self.number(self.tables.grammar.rule_node(sym), self.size)
    }

    /// The number of structures of the node with m atoms.
    pub fn number(&self, node: u32, m: u32) -> u128
        requires reached { IsReachedIn self.now node }
        requires within { m ≤ self.now.size }
        ensures { result ≡ number_of self.now node m }
    {
        cell(&self.tables.layers[m as usize], node, 0)
    }

    /// The number of lists of structures of the Prod's arguments from number i on, with m atoms in all.
    pub fn suffix(&self, node: u32, i: u32, m: u32) -> u128
        requires reached { IsReachedIn self.now node }
        requires prod { option_map kind_of (node_at self.now.checked.rules node) ≡ Some told.Prod }
        requires low { 2 ≤ i }
        requires high { i ≤ length (children_at self.now.checked.rules node) }
        requires within { m ≤ self.now.size }
        ensures { result ≡ suffix_of self.now node i m }
    {
        cell(&self.tables.layers[m as usize], node, i - 1)
    }

    /// The number of lists of c elements of the Sequence or the Cycle with m atoms in all.
    pub fn lists(&self, node: u32, c: u32, m: u32) -> u128
        requires reached { IsReachedIn self.now node }
        requires kind { (option_map kind_of (node_at self.now.checked.rules node) ≡ Some told.Sequence) ⊎ (option_map kind_of (node_at self.now.checked.rules node) ≡ Some told.Cycle) }
        requires high { (card : AnyCard) → card_at self.now.checked.rules node ≡ Some card → is_within card.high c ≡ true }
        requires within { m ≤ self.now.size }
        ensures { result ≡ lists_of self.now node c m }
    {
        let layer = &self.tables.layers[m as usize];
        if c == 0 {
            return if m == 0 { 1 } else { 0 };
        }
        cell(layer, node, c)
    }

    /// The number of Sets or PowerSets of exactly c elements of the node with m atoms in all.
    pub fn sets(&self, node: u32, c: u32, m: u32) -> u128
        requires reached { IsReachedIn self.now node }
        requires kind { (option_map kind_of (node_at self.now.checked.rules node) ≡ Some told.Set) ⊎ (option_map kind_of (node_at self.now.checked.rules node) ≡ Some told.PowerSet) }
        requires high { (card : AnyCard) → card_at self.now.checked.rules node ≡ Some card → is_within card.high c ≡ true }
        requires within { m ≤ self.now.size }
        ensures value { result ≡ sets_of self.now node c m }
        ensures fits { c * result < 2 ^ 128 }
    {
        let layer = &self.tables.layers[m as usize];
        if c == 0 {
            return if m == 0 { 1 } else { 0 };
        }
        cell(layer, node, c) / c as u128
    }

    /// The number of Cycles of exactly c elements of the node with m atoms in all.
    pub fn cycles(&self, node: u32, c: u32, m: u32) -> u128
        requires reached { IsReachedIn self.now node }
        requires cycle { option_map kind_of (node_at self.now.checked.rules node) ≡ Some told.Cycle }
        requires low { 1 ≤ c }
        requires high { (card : AnyCard) → card_at self.now.checked.rules node ≡ Some card → is_within card.high c ≡ true }
        requires within { m ≤ self.now.size }
        ensures { result ≡ cycles_of self.now node c m }
    {
        cell(&self.tables.layers[m as usize], node, c) / c as u128
    }

    /// Whether so many atoms can be shared out among as many components as the bound admits, each of at least `least` atoms,
    /// of sizes of which the element has structures; in a PowerSet at most as many of a size as the element has structures of
    /// it. With labels it is told of no atoms alone.
    pub fn may_fill(&self, node: u32, card: Card, least: u32, n: u32) -> bool
        requires reached { IsReachedIn self.now node }
        requires kind { (option_map kind_of (node_at self.now.checked.rules node) ≡ Some told.Set) ⊎ (option_map kind_of (node_at self.now.checked.rules node) ≡ Some told.PowerSet) }
        requires high { (own : AnyCard) (c : ℕ) → card_at self.now.checked.rules node ≡ Some own → is_within card.high c ≡ true → is_within own.high c ≡ true }
        requires within { n ≤ self.now.size }
        ensures no_sets { self.now.checked.universe ≡ Unlabelled → option_map kind_of (node_at self.now.checked.rules node) ≡ Some told.Set → result ≡ false → (element : ℕ) → slice_get (children_at self.now.checked.rules node) 0 ≡ Some element → (s : Structure) → least ≤ size s → sorted_at self.now.checked element false card (Some s) (supply Unlabelled n) ≡ [] }
        ensures no_power_sets { self.now.checked.universe ≡ Unlabelled → option_map kind_of (node_at self.now.checked.rules node) ≡ Some told.PowerSet → result ≡ false → (element : ℕ) → slice_get (children_at self.now.checked.rules node) 0 ≡ Some element → (s : Structure) → least ≤ size s → sorted_at self.now.checked element true card (Some s) (supply Unlabelled n) ≡ [] }
        ensures no_atoms { n ≡ 0 → result ≡ nat_eq card.low 0 }
        ensures sets { self.now.checked.universe ≡ Unlabelled → option_map kind_of (node_at self.now.checked.rules node) ≡ Some told.Set → (element : ℕ) → slice_get (children_at self.now.checked.rules node) 0 ≡ Some element → result ≡ may_fill (number_of self.now element) false card least n }
        ensures power_sets { self.now.checked.universe ≡ Unlabelled → option_map kind_of (node_at self.now.checked.rules node) ≡ Some told.PowerSet → (element : ℕ) → slice_get (children_at self.now.checked.rules node) 0 ≡ Some element → result ≡ may_fill (number_of self.now element) true card least n }
    {
        if n == 0 {
            return card.low == 0;
        }
        match self.tables.grammar.universe() {
            Universe::Labelled => true,
            Universe::Unlabelled => {
                let rows = self.totals[node as usize].as_slice();
                is_filled(rows, card, least.max(1), n)
            }
        }
    }
}
