//! The nodes of a grammar: the expressions in its rules, numbered from 0 in preorder, rule by rule.
ghost use Rattle.std.specs.Prelude.{◌≡◌, [], ◌∷◌, ◌+◌, ◌++◌, ◌≤◌, ◌<◌, Some, length, slice_get, IfOk, OnOk};
ghost use Rattle.spec_syntax.specs.Expression.{nodes, nodes_of_all, preorder, preorder_of_all, expressions_of};
ghost use Rattle.spec_syntax.specs.Nodes.{places_from, all_right_nodes};
ghost use Rattle.well_founded.specs.NodeTable.{node_kind, node_children, node_rule, node_card, nodes_from, nodes_of};

use seq::Seq;
use spec_syntax::{Card, Expr, ExprShape, Kind, Spec};
use std::alloc::{AllocError, Global};

/// What a node is.
#[derive(Clone, Copy, PartialEq, Eq, Debug)]
pub enum NodeKind {
    /// The empty structure.
    Epsilon,
    /// The atom.
    Atom,
    /// The name of a rule.
    Rule,
    Union,
    Prod,
    Sequence,
    Set,
    PowerSet,
    Cycle,
}

/// A node, with the numbers of the nodes directly inside it.
#[derive(Debug, Drop)]
pub(crate) enum Node {
    Epsilon,
    Atom,
    /// The number of the rule that is named, or 0 where no rule has the name.
    Rule(u32),
    Union(Seq<u32>),
    Prod(Seq<u32>),
    Many(Kind, u32, Card),
}

impl Node {
    /// What it is.
    pub(crate) fn kind(&self) -> NodeKind
        ensures { result ≡ node_kind self.now }
    {
        match self {
            Node::Epsilon => NodeKind::Epsilon,
            Node::Atom => NodeKind::Atom,
            Node::Rule(_) => NodeKind::Rule,
            Node::Union(_) => NodeKind::Union,
            Node::Prod(_) => NodeKind::Prod,
            Node::Many(Kind::Sequence, _, _) => NodeKind::Sequence,
            Node::Many(Kind::Set, _, _) => NodeKind::Set,
            Node::Many(Kind::PowerSet, _, _) => NodeKind::PowerSet,
            Node::Many(Kind::Cycle, _, _) => NodeKind::Cycle,
        }
    }

    /// The number of nodes directly inside it.
    pub(crate) fn children(&self) -> u32
        requires { length (node_children self.now) ≤ 128 }
        ensures { result ≡ length (node_children self.now) }
    {
        match self {
            Node::Union(places) | Node::Prod(places) => places.len() as u32,
            Node::Many(_, _, _) => 1,
            Node::Epsilon | Node::Atom | Node::Rule(_) => 0,
        }
    }

    /// The node at place i, counted from 0, of those directly inside it.
    pub(crate) fn child(&self, i: u32) -> u32
        requires { i < length (node_children self.now) }
        ensures { slice_get (node_children self.now) i ≡ Some result }
    {
        match self {
            Node::Union(places) | Node::Prod(places) => *places.at(i as usize),
            Node::Many(_, place, _) => *place,
            Node::Epsilon | Node::Atom | Node::Rule(_) => 0,
        }
    }

    /// The number of the rule that it names, or 0.
    pub(crate) fn rule(&self) -> u32
        ensures { result ≡ node_rule self.now }
    {
        match self {
            Node::Rule(sym) => *sym,
            Node::Epsilon | Node::Atom | Node::Union(_) | Node::Prod(_) | Node::Many(_, _, _) => 0,
        }
    }

    /// The bound on the number of its components, where it is a container.
    pub(crate) fn card(&self) -> Card
        ensures { result ≡ node_card self.now }
    {
        match self {
            Node::Many(_, _, card) => *card,
            Node::Epsilon | Node::Atom | Node::Rule(_) | Node::Union(_) | Node::Prod(_) => {
                Card { low: 0, high: None }
            }
        }
    }
}

/// The number of expressions in an expression, itself counted.
#[cycle(counting)]
fn count(expr: &Expr) -> u32
    requires { nodes expr.now ≤ 128 }
    ensures { result ≡ nodes expr.now }
{
    match &expr.shape {
        ExprShape::Epsilon | ExprShape::Atom | ExprShape::Name(_) => 1,
        ExprShape::Union(arguments) => 1 + count_all(arguments.as_slice()),
        ExprShape::Prod(arguments) => 1 + count_all(arguments.as_slice()),
        ExprShape::Many(_, element, _) => 1 + count(element),
    }
}

/// The number of expressions in these expressions.
#[cycle(counting)]
#[tactic(auto, using(spec_syntax::proofs::NodeSteps::nodes_step, spec_syntax::proofs::NodeSteps::nodes_of_one))]
fn count_all(exprs: &[Expr]) -> u32
    requires { nodes_of_all (expressions_of exprs.now) ≤ 128 }
    ensures { result ≡ nodes_of_all (expressions_of exprs.now) }
{
    let mut total = 0;
    for expr in exprs {
        total += count(expr);
    }
    total
}

/// The numbers of these expressions, which follow one another, as nodes from `first` on.
#[tactic(auto, using(spec_syntax::proofs::NodeSteps::nodes_step, spec_syntax::proofs::NodeSteps::nodes_of_one, spec_syntax::proofs::NodeSteps::places_step))]
pub(crate) fn places(alloc: Global, first: u32, exprs: &[Expr]) -> Result<Seq<u32>, AllocError>
    requires { first + nodes_of_all (expressions_of exprs.now) ≤ 128 }
    ensures { IfOk result (λ places. places ≡ places_from first (expressions_of exprs.now)) }
{
    let mut places = Seq::new(alloc);
    let mut next = first;
    for expr in exprs {
        places.push(next)?;
        next += count(expr);
    }
    Ok(places)
}

/// Puts a node at the end.
fn push_node(table: &mut Vec<Node>, node: Node) -> Result<(), AllocError>
    ensures { OnOk result (table.new.items ≡ table.old.items ++ node ∷ []) }
{
    table.push(node)?;
    Ok(())
}

/// Puts the nodes of an expression at the end.
#[cycle(numbering)]
fn push_nodes(
    alloc: Global,
    spec: &Spec,
    expr: &Expr,
    table: &mut Vec<Node>,
) -> Result<(), AllocError>
    requires { length table.old.items + nodes expr.now ≤ 128 }
    ensures { OnOk result (table.new.items ≡ table.old.items ++ nodes_from spec.now (length table.old.items) (preorder expr.now)) }
{
    let behind = table.len() as u32 + 1;
    match &expr.shape {
        ExprShape::Epsilon => push_node(table, Node::Epsilon),
        ExprShape::Atom => push_node(table, Node::Atom),
        ExprShape::Name(name) => push_node(
            table,
            Node::Rule(spec.find(name.as_slice()).unwrap_or(0)),
        ),
        ExprShape::Union(arguments) => {
            let arguments = arguments.as_slice();
            push_node(table, Node::Union(places(alloc, behind, arguments)?))?;
            push_all_nodes(alloc, spec, arguments, table)
        }
        ExprShape::Prod(arguments) => {
            let arguments = arguments.as_slice();
            push_node(table, Node::Prod(places(alloc, behind, arguments)?))?;
            push_all_nodes(alloc, spec, arguments, table)
        }
        ExprShape::Many(kind, element, card) => {
            push_node(table, Node::Many(*kind, behind, *card))?;
            push_nodes(alloc, spec, element, table)
        }
    }
}

/// Puts the nodes of these expressions at the end.
#[cycle(numbering)]
fn push_all_nodes(
    alloc: Global,
    spec: &Spec,
    exprs: &[Expr],
    table: &mut Vec<Node>,
) -> Result<(), AllocError>
    requires { length table.old.items + nodes_of_all (expressions_of exprs.now) ≤ 128 }
    ensures { OnOk result (table.new.items ≡ table.old.items ++ nodes_from spec.now (length table.old.items) (preorder_of_all (expressions_of exprs.now))) }
{
    for expr in exprs {
        push_nodes(alloc, spec, expr, table)?;
    }
    Ok(())
}

/// The nodes of the rules.
pub(crate) fn nodes_of_rules(alloc: Global, spec: &Spec) -> Result<Vec<Node>, AllocError>
    ensures { IfOk result (λ table. table.items ≡ nodes_of spec.now) }
{
    let mut table = Vec::new(alloc);
    for place in 0..spec.rules() {
        push_nodes(alloc, spec, spec.right(place + 1), &mut table)?;
    }
    Ok(table)
}

/// For each rule the node of its right side.
pub(crate) fn right_nodes(alloc: Global, spec: &Spec) -> Result<Vec<u32>, AllocError>
    ensures { IfOk result (λ table. table.items ≡ all_right_nodes spec.now) }
{
    let mut table = Vec::new(alloc);
    let mut next = 0;
    for place in 0..spec.rules() {
        table.push(next)?;
        next += count(spec.right(place + 1));
    }
    Ok(table)
}
