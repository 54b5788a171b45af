//! Where a number stands.
ghost use Rattle.std.specs.Prelude.{◌≡◌, ◌+◌, ◌-◌, ◌≤◌, ◌<◌, ℕ, Some, length, slice_get, IsTrue};
ghost use Rattle.spec_syntax.specs.Expression.{Expression};
ghost use Rattle.spec_syntax.specs.Rules.{all_nodes};
ghost use Rattle.spec_syntax.specs.Nodes.{node_at, place_in_rule, right_node};
ghost use Rattle.well_founded.specs.Checked.{IsChecked, grammar as grammar_of};
ghost use Rattle.size_counts.specs.Numbers.{Numbered, numbers_at, place_of};
ghost use Rattle.size_counts.specs.Spots.{group_at, index_at};

use crate::{Group, Place};
use well_founded::{Grammar, NodeKind};

/// The group of number i, counted from 0, of a node.
fn group_of(kind: NodeKind, i: u32) -> Group
    ensures { result ≡ group_at kind i }
{
    if i == 0 {
        return Group::Count;
    }
    match kind {
        NodeKind::Prod => Group::Suffix,
        NodeKind::Sequence | NodeKind::Cycle => Group::Lists,
        NodeKind::Set | NodeKind::PowerSet => Group::Sets,
        NodeKind::Epsilon | NodeKind::Atom | NodeKind::Rule | NodeKind::Union => Group::Count,
    }
}

/// The index of number i, counted from 0, of a node.
fn index_of(kind: NodeKind, i: u32) -> u32
    requires { i ≤ 1000 }
    ensures { result ≡ index_at kind i }
{
    if i == 0 {
        return 0;
    }
    match kind {
        NodeKind::Prod => i + 1,
        NodeKind::Sequence | NodeKind::Cycle | NodeKind::Set | NodeKind::PowerSet => i,
        NodeKind::Epsilon | NodeKind::Atom | NodeKind::Rule | NodeKind::Union => 0,
    }
}

/// The number of the rule in which the node stands, from 1.
pub fn rule_of(grammar: &Grammar, node: u32) -> u32
    requires { node < length (all_nodes grammar.now.rules) }
    ensures rule { (r k : ℕ) → place_in_rule grammar.now.rules node ≡ Some (r, k) → result ≡ r }
    ensures low { 1 ≤ result }
    ensures high { result ≤ length grammar.now.rules }
    ensures before { right_node grammar.now.rules result ≤ node }
    ensures kept { IsChecked grammar.now }
{
    let mut rule = 1;
    for earlier in 0..grammar.spec().rules() {
        let sym = earlier + 1;
        if grammar.rule_node(sym) <= node {
            rule = sym;
        }
    }
    rule
}

/// The place of number i, counted from 0, of a node at size m.
pub(crate) fn place_of(grammar: &Grammar, node: u32, i: u32, m: u32) -> Place
    requires within { node < length (all_nodes grammar.now.rules) }
    requires small { i ≤ 1000 }
    ensures { (e : Expression) (numbered : Numbered) → node_at grammar.now.rules node ≡ Some e → slice_get (numbers_at (grammar_of grammar.now) e m) i ≡ Some numbered → result ≡ place_of grammar.now.rules (record { size = m; node = node; numbered = numbered }) }
{
    let rule = rule_of(grammar, node);
    let kind = grammar.kind(node);
    Place {
        rule,
        node: node - grammar.rule_node(rule) + 1,
        group: group_of(kind, i),
        index: index_of(kind, i),
        size: m,
    }
}
