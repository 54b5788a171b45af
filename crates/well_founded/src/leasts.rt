//! The least sizes of the nodes of a grammar.
ghost use Rattle.std.specs.Prelude.{◌≡◌, ◌++◌, length, map, All, IfOk, OnOk};
ghost use Rattle.spec_syntax.specs.Expression.{preorder, preorder_of_all, expressions_of};
ghost use Rattle.well_founded.specs.Least.{IsSmall, least_by, leasts_of};

use crate::least::{NO_LEAST, least_in};
use spec_syntax::{Expr, ExprShape, Spec};
use std::alloc::{AllocError, Global};

/// Puts the least size of the expression, and of those inside it in preorder, at the end.
#[cycle(sizing)]
fn push_leasts(
    spec: &Spec,
    sizes: &[Option<u32>],
    expr: &Expr,
    leasts: &mut Vec<u32>,
) -> Result<(), AllocError>
    requires for_each { length sizes.now ≡ length spec.now }
    requires small { All IsSmall sizes.now }
    ensures { OnOk result (leasts.new.items ≡ leasts.old.items ++ map (least_by spec.now sizes.now) (preorder expr.now)) }
{
    leasts.push(least_in(spec, sizes, expr).unwrap_or(NO_LEAST))?;
    match &expr.shape {
        ExprShape::Epsilon | ExprShape::Atom | ExprShape::Name(_) => Ok(()),
        ExprShape::Union(arguments) => {
            push_all_leasts(spec, sizes, arguments.as_slice(), leasts)
        }
        ExprShape::Prod(arguments) => push_all_leasts(spec, sizes, arguments.as_slice(), leasts),
        ExprShape::Many(_, element, _) => push_leasts(spec, sizes, element, leasts),
    }
}

/// Puts the least sizes of the expressions, and of those inside them in preorder, at the end.
#[cycle(sizing)]
fn push_all_leasts(
    spec: &Spec,
    sizes: &[Option<u32>],
    exprs: &[Expr],
    leasts: &mut Vec<u32>,
) -> Result<(), AllocError>
    requires for_each { length sizes.now ≡ length spec.now }
    requires small { All IsSmall sizes.now }
    ensures { OnOk result (leasts.new.items ≡ leasts.old.items ++ map (least_by spec.now sizes.now) (preorder_of_all (expressions_of exprs.now))) }
{
    for expr in exprs {
        push_leasts(spec, sizes, expr, leasts)?;
    }
    Ok(())
}

/// The least size of each node, or 1001 where it is greater or where there is no structure.
///
/// # Errors
///
/// Memory may be wanting.
pub(crate) fn node_leasts(
    alloc: Global,
    spec: &Spec,
    sizes: &[Option<u32>],
) -> Result<Vec<u32>, AllocError>
    requires for_each { length sizes.now ≡ length spec.now }
    requires small { All IsSmall sizes.now }
    ensures { IfOk result (λ leasts. leasts.items ≡ leasts_of spec.now sizes.now) }
{
    let mut leasts = Vec::new(alloc);
    for place in 0..spec.rules() {
        push_leasts(spec, sizes, spec.right(place + 1), &mut leasts)?;
    }
    Ok(leasts)
}
