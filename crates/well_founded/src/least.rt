//! The least sizes of the structures of rules and of expressions.
//!
//! They are found in rounds, as R. Bellman finds shortest paths ("On a routing problem", Quarterly of Applied Mathematics
//! 16, 1958): each round takes for each rule the least size of its right side by what the round before said of names, from
//! knowing none at all, until a round changes nothing.
ghost use Rattle.std.specs.Prelude.{◌≡◌, length, replicate, All, IfOk, IsTrue, Option, Some, None};
ghost use Rattle.spec_syntax.specs.Expression.{expressions_of};
ghost use Rattle.spec_syntax.specs.Rules.{is_spec};
ghost use Rattle.well_founded.specs.Least.{IsSmall, AreSizes, lesser, together, fewest, copies, least_of_many, least_with, least_of_some, least_of_all, size_of_name, next_sizes};

use spec_syntax::{Card, Expr, ExprShape, Kind, Spec};
use std::alloc::{AllocError, Global};

/// The number that stands for a least size above 1000.
pub(crate) const NO_LEAST: u32 = 1001;

/// The lesser of two least sizes, where there is one.
fn lesser(one: Option<u32>, other: Option<u32>) -> Option<u32>
    ensures { result ≡ lesser one other }
{
    match (one, other) {
        (None, other) => other,
        (Some(n), None) => Some(n),
        (Some(n), Some(m)) => Some(n.min(m)),
    }
}

/// The least size of two structures together.
fn together(one: Option<u32>, other: Option<u32>) -> Option<u32>
    requires one_small { IsSmall one }
    requires other_small { IsSmall other }
    ensures { result ≡ together one other }
{
    match (one, other) {
        (Some(n), Some(m)) => Some((n + m).min(NO_LEAST)),
        _ => None,
    }
}

/// The least number of components of a container, where any number is admitted.
fn fewest(kind: Kind, card: Card) -> Option<u32>
    ensures { result ≡ fewest kind card }
{
    let count = match kind {
        Kind::Cycle => card.low.max(1),
        Kind::Sequence | Kind::Set | Kind::PowerSet => card.low,
    };
    card.admits(count).then_some(count)
}

/// The least size of so many structures together, by that of one.
fn copies(count: u32, size: Option<u32>) -> Option<u32>
    ensures { result ≡ copies count size }
{
    if count == 0 {
        return Some(0);
    }
    Some(count.saturating_mul(size?).min(NO_LEAST))
}

/// The least size of a container, by that of its element.
fn least_of_many(kind: Kind, card: Card, size: Option<u32>) -> Option<u32>
    ensures { result ≡ least_of_many kind card size }
{
    let count = fewest(kind, card)?;
    copies(count, size)
}

/// The least size of a structure of the rule with this name.
fn least_of_name(spec: &Spec, sizes: &[Option<u32>], name: &[u8]) -> Option<u32>
    requires { length sizes.now ≡ length spec.now }
    ensures { result ≡ size_of_name spec.now sizes.now name.now }
{
    let sym = spec.find(name)?;
    sizes[sym as usize - 1]
}

/// The least size of a structure of the expression, by what is said of rules, or 1001 where it is greater.
#[cycle(least)]
pub(crate) fn least_in(spec: &Spec, sizes: &[Option<u32>], expr: &Expr) -> Option<u32>
    requires for_each { length sizes.now ≡ length spec.now }
    requires small { All IsSmall sizes.now }
    ensures { result ≡ least_with (size_of_name spec.now sizes.now) expr.now }
{
    match &expr.shape {
        ExprShape::Epsilon => Some(0),
        ExprShape::Atom => Some(1),
        ExprShape::Name(name) => least_of_name(spec, sizes, name.as_slice()),
        ExprShape::Union(arguments) => least_of_some(spec, sizes, arguments.as_slice()),
        ExprShape::Prod(arguments) => least_of_all(spec, sizes, arguments.as_slice()),
        ExprShape::Many(kind, element, card) => {
            least_of_many(*kind, *card, least_in(spec, sizes, element))
        }
    }
}

/// The least size of a structure of one of the expressions.
#[cycle(least)]
fn least_of_some(spec: &Spec, sizes: &[Option<u32>], exprs: &[Expr]) -> Option<u32>
    requires for_each { length sizes.now ≡ length spec.now }
    requires small { All IsSmall sizes.now }
    ensures { result ≡ least_of_some (size_of_name spec.now sizes.now) (expressions_of exprs.now) }
{
    let mut least = None;
    for expr in exprs {
        least = lesser(least, least_in(spec, sizes, expr));
    }
    least
}

/// The least size of structures of all the expressions together.
#[cycle(least)]
fn least_of_all(spec: &Spec, sizes: &[Option<u32>], exprs: &[Expr]) -> Option<u32>
    requires for_each { length sizes.now ≡ length spec.now }
    requires small { All IsSmall sizes.now }
    ensures { result ≡ least_of_all (size_of_name spec.now sizes.now) (expressions_of exprs.now) }
{
    let mut least = Some(0);
    for expr in exprs {
        least = together(least, least_in(spec, sizes, expr));
    }
    least
}

/// The table of the rules of which no size is known.
fn nothing_known(alloc: Global, spec: &Spec) -> Result<Vec<Option<u32>>, AllocError>
    ensures sizes { IfOk result (λ sizes. sizes.items ≡ replicate (length spec.now) None) }
    ensures kept { IsTrue (is_spec spec.now) }
{
    let mut sizes = Vec::new(alloc);
    for _ in 0..spec.rules() {
        sizes.push(None)?;
    }
    Ok(sizes)
}

/// The table after one more round.
fn next_sizes(
    alloc: Global,
    spec: &Spec,
    sizes: &[Option<u32>],
) -> Result<Vec<Option<u32>>, AllocError>
    requires for_each { length sizes.now ≡ length spec.now }
    requires small { All IsSmall sizes.now }
    ensures { IfOk result (λ next. next.items ≡ next_sizes spec.now sizes.now) }
{
    let mut next = Vec::new(alloc);
    for place in 0..spec.rules() {
        next.push(least_in(spec, sizes, spec.right(place + 1)))?;
    }
    Ok(next)
}

/// The least sizes of the structures of rules, rule by rule: none where a rule has no structure, and 1001 where the size is
/// greater.
///
/// # Errors
///
/// Memory may be wanting.
pub(crate) fn least_sizes(alloc: Global, spec: &Spec) -> Result<Vec<Option<u32>>, AllocError>
    ensures sizes { IfOk result (λ sizes. AreSizes spec.now sizes.items) }
    ensures small { IfOk result (λ sizes. All IsSmall sizes.items) }
    ensures kept { IsTrue (is_spec spec.now) }
{
    let mut sizes = nothing_known(alloc, spec)?;
    loop {
        let next = next_sizes(alloc, spec, &sizes)?;
        if next == sizes {
            return Ok(sizes);
        }
        sizes = next;
    }
}
