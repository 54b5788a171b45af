//! The count of a node at a size, from what is told of others at the same size.
ghost use Rattle.std.specs.Prelude.{◌≡◌, ◌+◌, ◌-◌, ◌≤◌, ◌<◌, ◌∷◌, [], ℕ, Bool, Some, true, length, slice_get, IfOk, IsTrue};
ghost use Rattle.std.specs.Option.{option_map};
ghost use Rattle.spec_syntax.specs.declared.expr.Card.{Card as AnyCard};
ghost use Rattle.spec_syntax.specs.declared.expr.Kind.{Kind};
ghost use Rattle.spec_syntax.specs.Expression.{Expression, Expressions, Union as UnionOf, Prod as ProdOf, Many, expression_list};
ghost use Rattle.spec_syntax.specs.Card.{admits};
ghost use Rattle.spec_syntax.specs.Rules.{all_nodes};
ghost use Rattle.spec_syntax.specs.Grammar.{Grammar};
ghost use Rattle.spec_syntax.specs.Nodes.{node_at, children_at};
ghost use Rattle.struct_model.specs.Bounded.{number};
ghost use Rattle.well_founded.specs.declared.node.NodeKind.TheVariants as told;
ghost use Rattle.well_founded.specs.NodeKinds.{kind_of, is_container};
ghost use Rattle.well_founded.specs.Checked.{grammar};
ghost use Rattle.listing_laws.specs.Numbers.{one_at};
ghost use Rattle.splits.specs.Capped.{Tells};
ghost use Rattle.size_counts.specs.Told.{IsReady};
ghost use Rattle.size_counts.specs.Suffixes.{FirstsTold, AreBegun};
ghost use Rattle.size_counts.specs.Turns.{word_size, EachTold, NameTold, LongerTold, BesideTold, IsTurn};

use crate::components::of_components;
use crate::tables::Tables;
use splits::plus;
use well_founded::NodeKind;

/// 1 where these are equal, and 0 otherwise.
fn one_at(size: u32, m: u32) -> Option<u128>
    ensures { Tells result (one_at size m) }
{
    Some(if m == size { 1 } else { 0 })
}

/// The count of a Union, by those of its arguments.
fn union_count(tables: &Tables, node: u32, m: u32, now: &[Option<u128>]) -> Option<u128>
    requires ready { IsReady tables.now m }
    requires within { node < length (all_nodes tables.now.grammar.rules) }
    requires for_each { length now.now ≡ length (all_nodes tables.now.grammar.rules) }
    ensures { (arguments : Expressions) → node_at tables.now.grammar.rules node ≡ Some (UnionOf arguments) → EachTold (grammar tables.now.grammar) (expression_list arguments) (children_at tables.now.grammar.rules node) now.now m → Tells result (number (grammar tables.now.grammar) (UnionOf arguments) m) }
{
    let mut sum = Some(0);
    for i in 0..tables.grammar.children(node) {
        let argument = tables.grammar.child(node, i + 1);
        sum = plus(sum, now[argument as usize]);
    }
    sum
}

/// The count of a container, by that of its element and the numbers of those of two components or more.
fn container_count(
    tables: &Tables,
    node: u32,
    m: u32,
    now: &[Option<u128>],
    longer: &[Option<u128>],
) -> Option<u128>
    requires ready { IsReady tables.now m }
    requires container { option_map is_container (option_map kind_of (node_at tables.now.grammar.rules node)) ≡ Some true }
    requires within { node < length (all_nodes tables.now.grammar.rules) }
    requires for_each { length now.now ≡ length (all_nodes tables.now.grammar.rules) }
    requires longer { LongerTold tables.now.grammar node m longer.now }
    ensures { (kind : Kind) (element : Expression) (card : AnyCard) → node_at tables.now.grammar.rules node ≡ Some (Many kind element card) → (admits card 1 ≡ true → EachTold (grammar tables.now.grammar) (element ∷ []) (children_at tables.now.grammar.rules node) now.now m) → Tells result (number (grammar tables.now.grammar) (Many kind element card) m) }
{
    let kind = tables.grammar.kind(node);
    let card = tables.grammar.card(node);
    let element = now[tables.grammar.child(node, 1) as usize];
    let mut sum = Some(0);
    for c in 0..m + 1 {
        if card.admits(c) {
            sum = plus(sum, of_components(kind, c, m, element, longer));
        }
    }
    sum
}

/// The size of a word, where the node is one.
fn word_size(kind: NodeKind) -> Option<u32>
    ensures { result ≡ word_size kind }
{
    match kind {
        NodeKind::Epsilon => Some(0),
        NodeKind::Atom => Some(1),
        NodeKind::Rule
        | NodeKind::Union
        | NodeKind::Prod
        | NodeKind::Sequence
        | NodeKind::Set
        | NodeKind::PowerSet
        | NodeKind::Cycle => None,
    }
}

/// The count of the name of a rule, by that of the right side.
fn name_count(tables: &Tables, node: u32, m: u32, now: &[Option<u128>]) -> Option<u128>
    requires ready { IsReady tables.now m }
    requires within { node < length (all_nodes tables.now.grammar.rules) }
    requires name { option_map kind_of (node_at tables.now.grammar.rules node) ≡ Some told.Rule }
    requires for_each { length now.now ≡ length (all_nodes tables.now.grammar.rules) }
    ensures { (e : Expression) → node_at tables.now.grammar.rules node ≡ Some e → NameTold tables.now.grammar node e now.now m → Tells result (number (grammar tables.now.grammar) e m) }
{
    let right = tables.grammar.rule_node(tables.grammar.sym(node));
    match word_size(tables.grammar.kind(right)) {
        Some(size) => one_at(size, m),
        None => now[right as usize],
    }
}

/// The count of a Prod, the last of its suffixes, or that of lists of no structures.
fn prod_count(m: u32, firsts: &[Option<u128>]) -> Option<u128>
    ensures { (g : Grammar) (arguments : Expressions) → FirstsTold g arguments m firsts.now → AreBegun arguments firsts.now → Tells result (number g (ProdOf arguments) m) }
{
    if firsts.is_empty() {
        return one_at(0, m);
    }
    firsts[firsts.len() - 1]
}

/// The count of the node, by those of lower rank and by what is told beside it.
pub(crate) fn count_of(
    tables: &Tables,
    node: u32,
    m: u32,
    rank: u32,
    now: &[Option<u128>],
    beside: &[Option<u128>],
) -> Option<u128>
    requires turn { IsTurn tables.now node m rank now.now }
    requires beside { BesideTold tables.now.grammar node m beside.now }
    requires begun { (arguments : Expressions) → node_at tables.now.grammar.rules node ≡ Some (ProdOf arguments) → AreBegun arguments beside.now }
    ensures { (e : Expression) → node_at tables.now.grammar.rules node ≡ Some e → Tells result (number (grammar tables.now.grammar) e m) }
{
    match tables.grammar.kind(node) {
        NodeKind::Epsilon => one_at(0, m),
        NodeKind::Atom => one_at(1, m),
        NodeKind::Rule => name_count(tables, node, m, now),
        NodeKind::Union => union_count(tables, node, m, now),
        NodeKind::Prod => prod_count(m, beside),
        NodeKind::Sequence | NodeKind::Set | NodeKind::PowerSet | NodeKind::Cycle => {
            container_count(tables, node, m, now, beside)
        }
    }
}
