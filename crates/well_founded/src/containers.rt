//! What is asked of the containers in the rules.
ghost use Rattle.std.specs.Prelude.{◌≡◌, not, length, All};
ghost use Rattle.std.specs.List.{list_all, position_from};
ghost use Rattle.spec_syntax.specs.Expression.{preorder_of_all, expressions_of};
ghost use Rattle.well_founded.specs.Least.{IsSmall, least_with, size_of_name};
ghost use Rattle.well_founded.specs.WellFounded.{is_no_cycle};
ghost use Rattle.well_founded.specs.Containers.{is_without_cycle, is_allowed, is_not_over_null, is_without_null};

use crate::least::least_in;
use spec_syntax::{Expr, ExprShape, Kind, Spec, Universe};

/// Whether no Cycle stands in the expression.
#[cycle(cycles)]
fn is_without_cycle(expr: &Expr) -> bool
    ensures { result ≡ is_without_cycle expr.now }
{
    match &expr.shape {
        ExprShape::Epsilon | ExprShape::Atom | ExprShape::Name(_) => true,
        ExprShape::Union(arguments) => are_without_cycle(arguments.as_slice()),
        ExprShape::Prod(arguments) => are_without_cycle(arguments.as_slice()),
        ExprShape::Many(kind, element, _) => *kind != Kind::Cycle && is_without_cycle(element),
    }
}

/// Whether no Cycle stands in the expressions.
#[cycle(cycles)]
#[tactic(auto, using(crate::proofs::ContainerSteps::all_step, spec_syntax::proofs::NodeSteps::nodes_of_one))]
fn are_without_cycle(exprs: &[Expr]) -> bool
    ensures { result ≡ list_all is_no_cycle (preorder_of_all (expressions_of exprs.now)) }
{
    for expr in exprs {
        if !is_without_cycle(expr) {
            return false;
        }
    }
    true
}

/// Whether the Cycles in the expression may stand in the universe.
fn is_allowed(universe: Universe, expr: &Expr) -> bool
    ensures { result ≡ is_allowed universe expr.now }
{
    universe == Universe::Labelled || is_without_cycle(expr)
}

/// The number of the first rule with a Cycle that may not stand in the universe.
pub(crate) fn first_with_cycle(spec: &Spec, universe: Universe) -> Option<u32>
    ensures { result ≡ position_from (λ rule. not (is_allowed universe rule.1)) 1 spec.now }
{
    for place in 0..spec.rules() {
        if !is_allowed(universe, spec.right(place + 1)) {
            return Some(place + 1);
        }
    }
    None
}

/// Whether no container in the expression stands over one that can be empty.
#[cycle(nulls)]
fn is_without_null(spec: &Spec, sizes: &[Option<u32>], expr: &Expr) -> bool
    requires for_each { length sizes.now ≡ length spec.now }
    requires small { All IsSmall sizes.now }
    ensures { result ≡ is_without_null (least_with (size_of_name spec.now sizes.now)) expr.now }
{
    match &expr.shape {
        ExprShape::Epsilon | ExprShape::Atom | ExprShape::Name(_) => true,
        ExprShape::Union(arguments) => are_without_null(spec, sizes, arguments.as_slice()),
        ExprShape::Prod(arguments) => are_without_null(spec, sizes, arguments.as_slice()),
        ExprShape::Many(_, element, _) => {
            least_in(spec, sizes, element) != Some(0) && is_without_null(spec, sizes, element)
        }
    }
}

/// Whether no container in the expressions stands over one that can be empty.
#[cycle(nulls)]
#[tactic(auto, using(crate::proofs::ContainerSteps::all_step, spec_syntax::proofs::NodeSteps::nodes_of_one))]
fn are_without_null(spec: &Spec, sizes: &[Option<u32>], exprs: &[Expr]) -> bool
    requires for_each { length sizes.now ≡ length spec.now }
    requires small { All IsSmall sizes.now }
    ensures { result ≡ list_all (is_not_over_null (least_with (size_of_name spec.now sizes.now))) (preorder_of_all (expressions_of exprs.now)) }
{
    for expr in exprs {
        if !is_without_null(spec, sizes, expr) {
            return false;
        }
    }
    true
}

/// The number of the first rule with a container over a class that has a structure of size 0.
pub(crate) fn first_over_null(spec: &Spec, sizes: &[Option<u32>]) -> Option<u32>
    requires for_each { length sizes.now ≡ length spec.now }
    requires small { All IsSmall sizes.now }
    ensures { result ≡ position_from (λ rule. not (is_without_null (least_with (size_of_name spec.now sizes.now)) rule.1)) 1 spec.now }
{
    for place in 0..spec.rules() {
        if !is_without_null(spec, sizes, spec.right(place + 1)) {
            return Some(place + 1);
        }
    }
    None
}
