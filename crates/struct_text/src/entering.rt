//! Steps in front of a structure.
ghost use Rattle.std.specs.Prelude.{◌≡◌, Bool, ℕ, ◌+◌, ◌*◌, ◌<◌, ◌≤◌, ◌^◌, Some, List, length, codes, option_map, not, IsTrue};
ghost use Rattle.spec_syntax.specs.Expression.{Name as NameOf, Expression};
ghost use Rattle.spec_syntax.specs.Rules.{Rules, rule_name, right_side, all_nodes};
ghost use Rattle.spec_syntax.specs.Nodes.{node_at, right_node};
ghost use Rattle.struct_model.specs.Structure.{Structure};
ghost use Rattle.struct_model.specs.Membership.{is_of};
ghost use Rattle.well_founded.specs.declared.node.NodeKind.TheVariants as told;
ghost use Rattle.well_founded.specs.NodeKinds.{kind_of};
ghost use Rattle.well_founded.specs.Checked.{Checked, IsChecked, grammar as grammar_of};
ghost use Rattle.struct_text.specs.Text.{word_or_name};
ghost use Rattle.struct_text.specs.Labels.{are_small};
ghost use Rattle.struct_text.specs.declared.holes.Hole.{Hole as HoleOf};
ghost use Rattle.struct_text.specs.Reading.{atoms_in, AreHoles, Ends, ahead, is_of_node, rank_of, name_weight, ReadsLeaf, is_epsilon_of, is_atom_of, is_many_of};

use crate::holes::{Hole, Place};
use crate::lexing::Left;
use crate::reading::TextFault;
use crate::stack::Stack;
use crate::writing::form_word;
use spec_syntax::Universe;
use std::alloc::Global;
use struct_model::{Form5, Shape, Struct, Structs};
use well_founded::{Grammar, NodeKind};

/// The structure of Epsilon, or of the rule of this number, that has this text.
fn read_epsilon(word: &[u8], rule: u32, left: &mut Left<'_>) -> Option<Struct>
    requires { 0 < length word.now }
    ensures { (rules : Rules) → word.now ≡ word_or_name rules (codes "Epsilon") rule → ReadsLeaf rules (is_epsilon_of rule) left.old result left.new }
{
    if left.take(word) {
        Some(Struct {
            shape: Shape::Eps(rule),
        })
    } else {
        None
    }
}

/// The atom, that of Z or of the rule of this number, that has this text and a label.
fn read_atom(universe: Universe, word: &[u8], rule: u32, left: &mut Left<'_>) -> Option<Struct>
    requires { 0 < length word.now }
    ensures { (rules : Rules) → word.now ≡ word_or_name rules (codes "Z") rule → ReadsLeaf rules (is_atom_of universe rule) left.old result left.new }
{
    if !left.take(word) {
        return None;
    }
    let Some(label) = left.take_label(universe) else {
        return None;
    };
    Some(Struct {
        shape: Shape::Atom(rule, label),
    })
}

/// The place behind the structure that was read.
fn behind(read: Option<Struct>) -> Result<Place, TextFault>
    ensures { (checked : Checked) (holes : List HoleOf) (among fits : Structure → Bool) (text left : List ℕ)
        → ((s : Structure) → IsTrue (fits s) → IsTrue (are_small s) → IsTrue (among s)) → AreHoles checked holes
        → ReadsLeaf checked.rules among text read left → Ends checked (ahead checked holes fits 0 text) result holes left }
{
    match read {
        Some(s) => Ok(Place::Behind(s)),
        None => Err(TextFault::NotStructure),
    }
}

/// The place in front of a Union's argument, whose number stands first.
fn enter_union(
    grammar: &Grammar,
    node: u32,
    holes: &mut Stack<Hole>,
    left: &mut Left<'_>,
) -> Result<Place, TextFault>
    requires within { node < length (all_nodes grammar.now.rules) }
    requires kind { option_map kind_of (node_at grammar.now.rules node) ≡ Some told.Union }
    requires holes { AreHoles grammar.now holes.old }
    ensures { Ends grammar.now (ahead grammar.now holes.old (is_of_node grammar.now node) 0 left.old) result holes.new left.new }
{
    let _ = grammar.nodes();
    let Some(number) = left.take_number() else {
        return Err(TextFault::NotStructure);
    };
    if number > grammar.children(node) {
        return Err(TextFault::NotStructure);
    }
    if !left.take(b":") {
        return Err(TextFault::NotStructure);
    }
    holes.push(Hole::Alt(number))?;
    Ok(Place::Before(grammar.child(node, number)))
}

/// The place in front of a Prod's first component.
fn enter_prod(
    alloc: Global,
    grammar: &Grammar,
    node: u32,
    holes: &mut Stack<Hole>,
    left: &mut Left<'_>,
) -> Result<Place, TextFault>
    requires within { node < length (all_nodes grammar.now.rules) }
    requires kind { option_map kind_of (node_at grammar.now.rules node) ≡ Some told.Prod }
    requires holes { AreHoles grammar.now holes.old }
    ensures { Ends grammar.now (ahead grammar.now holes.old (is_of_node grammar.now node) 0 left.old) result holes.new left.new }
{
    let _ = grammar.nodes();
    if !left.take(b"Prod(") {
        return Err(TextFault::NotStructure);
    }
    holes.push(Hole::Factor(node, Structs::new(alloc)))?;
    Ok(Place::Before(grammar.child(node, 1)))
}

/// The place in front of a container's first component, or behind a container without one.
fn enter_many(
    alloc: Global,
    grammar: &Grammar,
    node: u32,
    form: Form5,
    holes: &mut Stack<Hole>,
    left: &mut Left<'_>,
) -> Result<Place, TextFault>
    requires within { node < length (all_nodes grammar.now.rules) }
    requires kind { IsTrue (is_many_of grammar.now node form) }
    requires holes { AreHoles grammar.now holes.old }
    ensures { Ends grammar.now (ahead grammar.now holes.old (is_of_node grammar.now node) 0 left.old) result holes.new left.new }
{
    let _ = grammar.nodes();
    if !left.take(form_word(form)) {
        return Err(TextFault::NotStructure);
    }
    if !left.take(b"(") {
        return Err(TextFault::NotStructure);
    }
    let parts = Structs::new(alloc);
    if left.take(b")") {
        return Ok(Place::Behind(Struct {
            shape: Shape::Tup(form, parts),
        }));
    }
    let element = grammar.child(node, 1);
    holes.push(Hole::Element(form, element, parts))?;
    Ok(Place::Before(element))
}

/// A step in front of a structure of rule number `sym`.
pub(crate) fn enter_rule(
    grammar: &Grammar,
    sym: u32,
    holes: &mut Stack<Hole>,
    left: &mut Left<'_>,
) -> Result<Place, TextFault>
    requires low { 1 ≤ sym }
    requires high { sym ≤ length grammar.now.rules }
    requires holes { AreHoles grammar.now holes.old }
    ensures { Ends grammar.now (ahead grammar.now holes.old (λ s. is_of (grammar_of grammar.now) (NameOf (rule_name grammar.now.rules sym)) s) (name_weight grammar.now sym) left.old) result holes.new left.new }
{
    let _ = grammar.nodes();
    let right = grammar.rule_node(sym);
    let name = grammar.spec().name(sym).as_slice();
    match grammar.kind(right) {
        NodeKind::Epsilon => behind(read_epsilon(name, sym, left)),
        NodeKind::Atom => behind(read_atom(grammar.universe(), name, sym, left)),
        NodeKind::Rule
        | NodeKind::Union
        | NodeKind::Prod
        | NodeKind::Sequence
        | NodeKind::Set
        | NodeKind::PowerSet
        | NodeKind::Cycle => {
            holes.push(Hole::Named(sym))?;
            Ok(Place::Before(right))
        }
    }
}

/// A step in front of a structure of the node.
pub(crate) fn enter(
    alloc: Global,
    grammar: &Grammar,
    node: u32,
    holes: &mut Stack<Hole>,
    left: &mut Left<'_>,
) -> Result<Place, TextFault>
    requires within { node < length (all_nodes grammar.now.rules) }
    requires holes { AreHoles grammar.now holes.old }
    ensures { Ends grammar.now (ahead grammar.now holes.old (is_of_node grammar.now node) (2 * rank_of grammar.now node + 1) left.old) result holes.new left.new }
{
    let _ = grammar.nodes();
    match grammar.kind(node) {
        NodeKind::Epsilon => behind(read_epsilon(b"Epsilon", 0, left)),
        NodeKind::Atom => behind(read_atom(grammar.universe(), b"Z", 0, left)),
        NodeKind::Rule => enter_rule(grammar, grammar.sym(node), holes, left),
        NodeKind::Union => enter_union(grammar, node, holes, left),
        NodeKind::Prod => enter_prod(alloc, grammar, node, holes, left),
        NodeKind::Sequence => enter_many(alloc, grammar, node, Form5::Sequence, holes, left),
        NodeKind::Set => enter_many(alloc, grammar, node, Form5::Set, holes, left),
        NodeKind::PowerSet => enter_many(alloc, grammar, node, Form5::PowerSet, holes, left),
        NodeKind::Cycle => enter_many(alloc, grammar, node, Form5::Cycle, holes, left),
    }
}
