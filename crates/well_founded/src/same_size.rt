//! Which nodes' structures can stand directly inside a node's of the same size, as told by least sizes.
ghost use Rattle.std.specs.Prelude.{◌≡◌, ◌&&◌, [], ◌∷◌, ◌+◌, ◌++◌, ◌≤◌, length, map, is_some, true, All, IfOk, OnOk, IsTrue};
ghost use Rattle.std.specs.List.{list_all};
ghost use Rattle.spec_syntax.specs.Expression.{Name as NameOf, is_well_formed, nodes, nodes_of_all, preorder, preorder_of_all, expressions_of};
ghost use Rattle.well_founded.specs.Least.{IsSmall, least_with, size_of_name};
ghost use Rattle.spec_syntax.specs.Nodes.{all_right_nodes};
ghost use Rattle.well_founded.specs.SameSize.{is_null, alone_from, is_told_inside, picked, followers, followers_from, same_size_graph};

use crate::least::least_in;
use crate::node::places;
use seq::Seq;
use spec_syntax::{Card, Expr, ExprShape, Name, Spec};
use std::alloc::{AllocError, Global};

/// Those of the nodes that have a flag.
fn picked(alloc: Global, flags: &[bool], nodes: &[u32]) -> Result<Seq<u32>, AllocError>
    ensures { IfOk result (λ row. row ≡ picked flags.now nodes.now) }
{
    let mut row = Seq::new(alloc);
    for place in 0..flags.len().min(nodes.len()) {
        if flags[place] {
            row.push(nodes[place])?;
        }
    }
    Ok(row)
}

/// Whether a structure of this right side is told inside the rule's name, as those of the two words are not.
fn is_told_inside(right: &Expr) -> bool
    ensures { result ≡ is_told_inside right.now }
{
    match &right.shape {
        ExprShape::Epsilon | ExprShape::Atom => false,
        ExprShape::Name(_) | ExprShape::Union(_) | ExprShape::Prod(_) | ExprShape::Many(_, _, _) =>
            { true }
    }
}

/// The right side of the name's rule, where its structures can stand inside those of the name.
fn name_followers(
    alloc: Global,
    spec: &Spec,
    sizes: &[Option<u32>],
    roots: &[u32],
    name: &Name,
) -> Result<Seq<u32>, AllocError>
    requires { roots.now ≡ all_right_nodes spec.now }
    ensures { IfOk result (λ row. row ≡ followers spec.now (least_with (size_of_name spec.now sizes.now)) 0 (NameOf name.now)) }
{
    let mut row = Seq::new(alloc);
    if let Some(sym) = spec.find(name.as_slice()) {
        if is_told_inside(spec.right(sym)) {
            row.push(roots[sym as usize - 1])?;
        }
    }
    Ok(row)
}

/// For each argument of a Union whether it has a structure.
fn union_flags(
    alloc: Global,
    spec: &Spec,
    sizes: &[Option<u32>],
    arguments: &[Expr],
) -> Result<Vec<bool>, AllocError>
    requires for_each { length sizes.now ≡ length spec.now }
    requires small { All IsSmall sizes.now }
    ensures { IfOk result (λ flags. flags.items ≡ map (λ e. is_some (least_with (size_of_name spec.now sizes.now) e)) arguments.now) }
{
    let mut flags = Vec::new(alloc);
    for argument in arguments {
        flags.push(least_in(spec, sizes, argument).is_some())?;
    }
    Ok(flags)
}

/// Whether each of the expressions has a structure of size 0.
fn can_all_be_empty(spec: &Spec, sizes: &[Option<u32>], exprs: &[Expr]) -> bool
    requires for_each { length sizes.now ≡ length spec.now }
    requires small { All IsSmall sizes.now }
    ensures { result ≡ list_all (λ other. is_null (least_with (size_of_name spec.now sizes.now) other)) exprs.now }
{
    for expr in exprs {
        if least_in(spec, sizes, expr) != Some(0) {
            return false;
        }
    }
    true
}

/// Whether a component can have all the atoms, where those before it and behind it can be empty or not.
fn can_have_all(before: bool, size: Option<u32>, behind: bool) -> bool
    ensures { result ≡ (before && is_some size && behind) }
{
    before && size.is_some() && behind
}

/// Whether a component can be empty as those before it can.
fn can_be_empty(before: bool, size: Option<u32>) -> bool
    ensures { result ≡ (before && is_null size) }
{
    before && size == Some(0)
}

/// For each argument of a Prod whether it has a structure and all others can be empty.
fn prod_flags(
    alloc: Global,
    spec: &Spec,
    sizes: &[Option<u32>],
    arguments: &[Expr],
) -> Result<Vec<bool>, AllocError>
    requires for_each { length sizes.now ≡ length spec.now }
    requires small { All IsSmall sizes.now }
    ensures { IfOk result (λ flags. flags.items ≡ alone_from (least_with (size_of_name spec.now sizes.now)) true (expressions_of arguments.now)) }
{
    let mut flags = Vec::new(alloc);
    let mut before = true;
    for place in 0..arguments.len() {
        let size = least_in(spec, sizes, &arguments[place]);
        let behind = can_all_be_empty(spec, sizes, &arguments[place + 1..]);
        flags.push(can_have_all(before, size, behind))?;
        before = can_be_empty(before, size);
    }
    Ok(flags)
}

/// The element of a container, where a structure of it can be the only component.
fn element_followers(alloc: Global, flag: bool, element: u32) -> Result<Seq<u32>, AllocError>
    ensures { IfOk result (λ row. row ≡ picked (flag ∷ []) (element ∷ [])) }
{
    let mut row = Seq::new(alloc);
    if flag {
        row.push(element)?;
    }
    Ok(row)
}

/// The nodes whose structures can stand directly inside those of the expression, which is node number `number`, of the
/// same size.
#[tactic(auto, using(spec_syntax::proofs::ExpressionLemmas::list_of))]
fn followers(
    alloc: Global,
    spec: &Spec,
    sizes: &[Option<u32>],
    roots: &[u32],
    number: u32,
    expr: &Expr,
) -> Result<Seq<u32>, AllocError>
    requires for_each { length sizes.now ≡ length spec.now }
    requires small { All IsSmall sizes.now }
    requires roots { roots.now ≡ all_right_nodes spec.now }
    requires room { number + nodes expr.now ≤ 128 }
    ensures { IfOk result (λ row. row ≡ followers spec.now (least_with (size_of_name spec.now sizes.now)) number expr.now) }
{
    match &expr.shape {
        ExprShape::Epsilon | ExprShape::Atom => Ok(Seq::new(alloc)),
        ExprShape::Name(name) => name_followers(alloc, spec, sizes, roots, name),
        ExprShape::Union(arguments) => {
            let flags = union_flags(alloc, spec, sizes, arguments.as_slice())?;
            let inside = places(alloc, number + 1, arguments.as_slice())?;
            picked(alloc, &flags, inside.as_slice())
        }
        ExprShape::Prod(arguments) => {
            let flags = prod_flags(alloc, spec, sizes, arguments.as_slice())?;
            let inside = places(alloc, number + 1, arguments.as_slice())?;
            picked(alloc, &flags, inside.as_slice())
        }
        ExprShape::Many(_, element, card) => {
            let flag = card.admits(1) && least_in(spec, sizes, element).is_some();
            element_followers(alloc, flag, number + 1)
        }
    }
}

/// Puts the followers of the expression, and of those inside it in preorder, at the end.
#[cycle(following)]
fn push_followers(
    alloc: Global,
    spec: &Spec,
    sizes: &[Option<u32>],
    roots: &[u32],
    expr: &Expr,
    graph: &mut Vec<Seq<u32>>,
) -> Result<(), AllocError>
    requires for_each { length sizes.now ≡ length spec.now }
    requires small { All IsSmall sizes.now }
    requires roots { roots.now ≡ all_right_nodes spec.now }
    requires room { length graph.old.items + nodes expr.now ≤ 128 }
    ensures { OnOk result (graph.new.items ≡ graph.old.items ++ followers_from spec.now (least_with (size_of_name spec.now sizes.now)) (length graph.old.items) (preorder expr.now)) }
{
    let number = graph.len() as u32;
    graph.push(followers(alloc, spec, sizes, roots, number, expr)?)?;
    match &expr.shape {
        ExprShape::Epsilon | ExprShape::Atom | ExprShape::Name(_) => Ok(()),
        ExprShape::Union(arguments) => {
            push_all_followers(alloc, spec, sizes, roots, arguments.as_slice(), graph)
        }
        ExprShape::Prod(arguments) => {
            push_all_followers(alloc, spec, sizes, roots, arguments.as_slice(), graph)
        }
        ExprShape::Many(_, element, _) => {
            push_followers(alloc, spec, sizes, roots, element, graph)
        }
    }
}

/// Puts the followers of the expressions, and of those inside them in preorder, at the end.
#[cycle(following)]
fn push_all_followers(
    alloc: Global,
    spec: &Spec,
    sizes: &[Option<u32>],
    roots: &[u32],
    exprs: &[Expr],
    graph: &mut Vec<Seq<u32>>,
) -> Result<(), AllocError>
    requires for_each { length sizes.now ≡ length spec.now }
    requires small { All IsSmall sizes.now }
    requires roots { roots.now ≡ all_right_nodes spec.now }
    requires room { length graph.old.items + nodes_of_all (expressions_of exprs.now) ≤ 128 }
    ensures { OnOk result (graph.new.items ≡ graph.old.items ++ followers_from spec.now (least_with (size_of_name spec.now sizes.now)) (length graph.old.items) (preorder_of_all (expressions_of exprs.now))) }
{
    for expr in exprs {
        push_followers(alloc, spec, sizes, roots, expr, graph)?;
    }
    Ok(())
}

/// For each node those whose structures can stand directly inside it of the same size, by the least sizes of the rules and
/// the nodes of their right sides.
///
/// # Errors
///
/// Memory may be wanting.
pub(crate) fn same_size_graph(
    alloc: Global,
    spec: &Spec,
    sizes: &[Option<u32>],
    roots: &[u32],
) -> Result<Vec<Seq<u32>>, AllocError>
    requires for_each { length sizes.now ≡ length spec.now }
    requires small { All IsSmall sizes.now }
    requires roots { roots.now ≡ all_right_nodes spec.now }
    ensures { IfOk result (λ graph. graph.items ≡ same_size_graph spec.now (least_with (size_of_name spec.now sizes.now))) }
{
    let mut graph = Vec::new(alloc);
    for place in 0..spec.rules() {
        push_followers(alloc, spec, sizes, roots, spec.right(place + 1), &mut graph)?;
    }
    Ok(graph)
}

#[cfg(test)]
mod tests {
    use super::*;
    use crate::least::least_sizes;
    use crate::node::right_nodes;
    use spec_syntax::Exprs;
    use std::test::Fail;

    /// The rule with this name.
    fn named(alloc: Global, name: &[u8]) -> Result<Expr, AllocError>
        ensures { IfOk result (λ expr. expr ≡ NameOf name.now) }
    {
        Ok(Expr {
            shape: ExprShape::Name(Name::from_slice(alloc, name)?),
        })
    }

    /// Nothing, or a structure of `B` and one of `A`.
    fn nothing_or_more(alloc: Global) -> Result<Expr, AllocError>
        ensures { IfOk result (λ expr. IsTrue (is_well_formed expr) × (nodes expr ≡ 5)) }
    {
        let mut components = Exprs::new(alloc);
        components.push(named(alloc, b"B")?)?;
        components.push(named(alloc, b"A")?)?;
        let mut arguments = Exprs::new(alloc);
        arguments.push(Expr {
            shape: ExprShape::Epsilon,
        })?;
        arguments.push(Expr {
            shape: ExprShape::Prod(components),
        })?;
        Ok(Expr {
            shape: ExprShape::Union(arguments),
        })
    }

    #[test]
    fn the_graph_of_two_rules(rt: HostRuntime) -> Result<(), Fail> {
        let alloc = rt.alloc();
        let mut spec = Spec::new(alloc);
        spec.add(Name::from_slice(alloc, b"A")?, nothing_or_more(alloc)?)?;
        spec.add(
            Name::from_slice(alloc, b"B")?,
            Expr {
                shape: ExprShape::Epsilon,
            },
        )?;
        let sizes = least_sizes(alloc, &spec)?;
        let roots = right_nodes(alloc, &spec)?;
        let graph = same_size_graph(alloc, &spec, &sizes, roots.as_slice())?;
        let mut rows = Vec::new(alloc);
        for row in &graph {
            rows.extend_from_slice(row.as_slice())?;
            rows.push(99)?;
        }
        let expected = [1, 2, 99, 99, 3, 4, 99, 99, 0, 99, 99];
        assert!(rt; rows.as_slice() == expected.as_slice());
        Ok(())
    }
}
