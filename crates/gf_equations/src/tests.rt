//! The equations of small grammars.
ghost use Rattle.std.specs.Prelude.{◌≡◌, [], ◌∷◌, IfOk, IsTrue};
ghost use Rattle.spec_syntax.specs.Rules.{is_spec};
ghost use Rattle.spec_syntax.specs.Card.{is_writable};
ghost use Rattle.spec_syntax.specs.Expression.{Atom as AtomOf, Name as NameOf, Union as UnionOf, Prod as ProdOf, Many as ManyOf, more_expressions, no_expressions};

use crate::bound::Bound;
use crate::term::push_number;
use crate::{GfFault, equations};
use spec_syntax::{Bytes, Card, Expr, ExprShape, Exprs, Kind, Name, Spec, Universe};
use std::alloc::{AllocError, Global};
use std::test::Fail;
use well_founded::{Grammar, check};

/// Z.
fn atom() -> Expr
    ensures { result ≡ AtomOf }
{
    Expr {
        shape: ExprShape::Atom,
    }
}

/// The rule with this name.
fn named(alloc: Global, name: &[u8]) -> Result<Expr, AllocError>
    ensures { IfOk result (λ expr. expr ≡ NameOf name.now) }
{
    Ok(Expr {
        shape: ExprShape::Name(Name::from_slice(alloc, name)?),
    })
}

/// A structure of one or of the other.
fn union_of(alloc: Global, one: Expr, other: Expr) -> Result<Expr, AllocError>
    ensures { IfOk result (λ expr. expr ≡ UnionOf (more_expressions one (more_expressions other no_expressions))) }
{
    let mut arguments = Exprs::new(alloc);
    arguments.push(one)?;
    arguments.push(other)?;
    Ok(Expr {
        shape: ExprShape::Union(arguments),
    })
}

/// A structure of the one and one of the other.
fn prod_of(alloc: Global, one: Expr, other: Expr) -> Result<Expr, AllocError>
    ensures { IfOk result (λ expr. expr ≡ ProdOf (more_expressions one (more_expressions other no_expressions))) }
{
    let mut arguments = Exprs::new(alloc);
    arguments.push(one)?;
    arguments.push(other)?;
    Ok(Expr {
        shape: ExprShape::Prod(arguments),
    })
}

/// A container of structures of the element, so many as the bound admits.
fn many_of(alloc: Global, kind: Kind, element: Expr, card: Card) -> Result<Expr, AllocError>
    ensures { IfOk result (λ expr. expr ≡ ManyOf kind element card) }
{
    Ok(Expr {
        shape: ExprShape::Many(kind, Box::new(alloc, element)?, card),
    })
}

/// The bound that is written so.
fn card_of(bound: Bound) -> Card
    ensures { IsTrue (is_writable result) }
{
    match bound {
        Bound::Any => Card { low: 0, high: None },
        Bound::Exactly(k) => Card {
            low: k,
            high: Some(k),
        },
        Bound::AtMost(k) => Card {
            low: 0,
            high: Some(k),
        },
        Bound::AtLeast(k) => Card { low: k, high: None },
    }
}

/// Puts the equations of a checked grammar at the end, or the number of the rule that has none, and a line feed.
fn put_equations(alloc: Global, grammar: &Grammar, text: &mut Bytes) -> Result<(), AllocError> {
    match equations(alloc, grammar, &Name::from_slice(alloc, b"z")?) {
        Ok(said) => text.extend_from_slice(said.as_slice())?,
        Err(GfFault::CardUnlabelled(rule)) => push_number(rule, text)?,
        Err(GfFault::Memory) => text.extend_from_slice(b"memory")?,
    }
    text.push(b'\n')
}

/// Puts those of these rules at the end, and nothing where they don't pass the check.
fn put_line(
    alloc: Global,
    spec: &Spec,
    universe: Universe,
    text: &mut Bytes,
) -> Result<(), AllocError> {
    match check(alloc, spec, None, universe) {
        Ok(grammar) => put_equations(alloc, &grammar, text),
        Err(_) => Ok(()),
    }
}

/// The grammar of this rule alone.
fn of_rule(alloc: Global, name: &[u8], right: Expr) -> Result<Spec, AllocError>
    requires { IsTrue (is_spec ((name.now, right) ∷ [])) }
    ensures { IfOk result (λ spec. spec ≡ (name.now, right) ∷ []) }
{
    let mut spec = Spec::new(alloc);
    spec.add(Name::from_slice(alloc, name)?, right)?;
    Ok(spec)
}

/// `B = Union(Z, Prod(B, B))`.
fn binary(alloc: Global) -> Result<Spec, AllocError> {
    let fork = prod_of(alloc, named(alloc, b"B")?, named(alloc, b"B")?)?;
    of_rule(alloc, b"B", union_of(alloc, atom(), fork)?)
}

/// `T = Prod(Z, Set(T))`.
fn trees(alloc: Global) -> Result<Spec, AllocError> {
    let subtrees = many_of(alloc, Kind::Set, named(alloc, b"T")?, card_of(Bound::Any))?;
    of_rule(alloc, b"T", prod_of(alloc, atom(), subtrees)?)
}

/// `X = Union(Z, K)`, where `K` is this container of structures of `Prod(Z, Z)`.
fn over_pairs(alloc: Global, kind: Kind, bound: Bound) -> Result<Spec, AllocError> {
    let pair = prod_of(alloc, atom(), atom())?;
    let container = many_of(alloc, kind, pair, card_of(bound))?;
    of_rule(alloc, b"X", union_of(alloc, atom(), container)?)
}

/// Puts the equations of each container with each bound at the end, a line for each.
fn put_containers(alloc: Global, universe: Universe, text: &mut Bytes) -> Result<(), AllocError> {
    let kinds = [Kind::Sequence, Kind::Set, Kind::PowerSet, Kind::Cycle];
    let bounds = [
        Bound::Any,
        Bound::Exactly(0),
        Bound::Exactly(2),
        Bound::AtMost(12),
        Bound::AtLeast(1),
        Bound::AtLeast(3),
    ];
    for kind in kinds {
        for bound in bounds {
            put_line(alloc, &over_pairs(alloc, kind, bound)?, universe, text)?;
        }
    }
    Ok(())
}

/// The equations in labelled grammars, a container with all bounds after the other.
const LABELLED: &str = "[X(z) = z + 1/(1 - (z*z))]
[X(z) = z + (z*z)^0]
[X(z) = z + (z*z)^2]
[X(z) = z + Sum((z*z)^i, i = 0 .. 12)]
[X(z) = z + (z*z)^1/(1 - (z*z))]
[X(z) = z + (z*z)^3/(1 - (z*z))]
[X(z) = z + exp(z*z)]
[X(z) = z + (z*z)^0/0!]
[X(z) = z + (z*z)^2/2!]
[X(z) = z + Sum((z*z)^i/i!, i = 0 .. 12)]
[X(z) = z + exp(z*z) - Sum((z*z)^i/i!, i = 0 .. 0)]
[X(z) = z + exp(z*z) - Sum((z*z)^i/i!, i = 0 .. 2)]
[X(z) = z + exp(z*z)]
[X(z) = z + (z*z)^0/0!]
[X(z) = z + (z*z)^2/2!]
[X(z) = z + Sum((z*z)^i/i!, i = 0 .. 12)]
[X(z) = z + exp(z*z) - Sum((z*z)^i/i!, i = 0 .. 0)]
[X(z) = z + exp(z*z) - Sum((z*z)^i/i!, i = 0 .. 2)]
[X(z) = z + log(1/(1 - (z*z)))]
[X(z) = z + 0]
[X(z) = z + (z*z)^2/2]
[X(z) = z + Sum((z*z)^i/i, i = 1 .. 12)]
[X(z) = z + log(1/(1 - (z*z)))]
[X(z) = z + log(1/(1 - (z*z))) - Sum((z*z)^i/i, i = 1 .. 2)]
";

/// In unlabelled ones, where 1 is the rule that has none, and a Cycle isn't allowed.
const UNLABELLED: &str = "[X(z) = z + 1/(1 - (z*z))]
[X(z) = z + (z*z)^0]
[X(z) = z + (z*z)^2]
[X(z) = z + Sum((z*z)^i, i = 0 .. 12)]
[X(z) = z + (z*z)^1/(1 - (z*z))]
[X(z) = z + (z*z)^3/(1 - (z*z))]
[X(z) = z + exp(Sum(((z^j1)*(z^j1))/j1, j1 = 1 .. infinity))]
1
1
1
1
1
[X(z) = z + exp(Sum((-1)^(j1 - 1)*((z^j1)*(z^j1))/j1, j1 = 1 .. infinity))]
1
1
1
1
1
";

#[test]
fn containers_with_each_bound(rt: HostRuntime) -> Result<(), Fail> {
    let alloc = rt.alloc();
    let mut text = Bytes::new(alloc);
    put_containers(alloc, Universe::Labelled, &mut text)?;
    assert!(rt; text.as_slice() == LABELLED.as_bytes());
    let mut text = Bytes::new(alloc);
    put_containers(alloc, Universe::Unlabelled, &mut text)?;
    assert!(rt; text.as_slice() == UNLABELLED.as_bytes());
    Ok(())
}

/// `A = Set(Prod(Z, Set(Prod(Z, Set(Z)))))`.
fn sets_in_sets(alloc: Global) -> Result<Spec, AllocError> {
    let innermost = many_of(alloc, Kind::Set, atom(), card_of(Bound::Any))?;
    let within = prod_of(alloc, atom(), innermost)?;
    let middle = many_of(alloc, Kind::Set, within, card_of(Bound::Any))?;
    let outer = prod_of(alloc, atom(), middle)?;
    of_rule(
        alloc,
        b"A",
        many_of(alloc, Kind::Set, outer, card_of(Bound::Any))?,
    )
}

/// A Union of one argument.
fn only(alloc: Global, one: Expr) -> Result<Expr, AllocError>
    ensures { IfOk result (λ expr. expr ≡ UnionOf (more_expressions one no_expressions)) }
{
    let mut arguments = Exprs::new(alloc);
    arguments.push(one)?;
    Ok(Expr {
        shape: ExprShape::Union(arguments),
    })
}

/// `A = Prod(Union(Z, Epsilon), Union(B))`, `B = Prod(Z, Union(Z))`.
fn two_rules(alloc: Global) -> Result<Spec, AllocError> {
    let epsilon = Expr {
        shape: ExprShape::Epsilon,
    };
    let maybe = union_of(alloc, atom(), epsilon)?;
    let first = prod_of(alloc, maybe, only(alloc, named(alloc, b"B")?)?)?;
    let mut spec = of_rule(alloc, b"A", first)?;
    let second = prod_of(alloc, atom(), only(alloc, atom())?)?;
    spec.add(Name::from_slice(alloc, b"B")?, second)?;
    Ok(spec)
}

/// `A = Set(Z)`, `B = Set(Z, card = 2)`, `C = Set(Z, card = 2)`.
fn second_bounded(alloc: Global) -> Result<Spec, AllocError> {
    let free = many_of(alloc, Kind::Set, atom(), card_of(Bound::Any))?;
    let mut spec = of_rule(alloc, b"A", free)?;
    let pair = many_of(alloc, Kind::Set, atom(), card_of(Bound::Exactly(2)))?;
    spec.add(Name::from_slice(alloc, b"B")?, pair)?;
    let other = many_of(alloc, Kind::Set, atom(), card_of(Bound::Exactly(2)))?;
    spec.add(Name::from_slice(alloc, b"C")?, other)?;
    Ok(spec)
}

/// The equations of binary trees, of rooted trees with labels and without, of sets in sets, and of two rules, and the second rule of
/// three, which has none.
const GRAMMARS: &str = "[B(z) = z + B(z)*B(z)]
[T(z) = z*exp(T(z))]
[T(z) = z*exp(Sum(T(z^j1)/j1, j1 = 1 .. infinity))]
[A(z) = exp(Sum(((z^j1)*exp(Sum(((z^(j1*j2))*exp(Sum((z^(j1*j2*j3))/j3, j3 = 1 .. infinity)))/j2, j2 = 1 .. infinity)))/j1, j1 = 1 .. infinity))]
[A(z) = (z + 1)*B(z), B(z) = z*z]
2
";

#[test]
fn grammars_have_these_equations(rt: HostRuntime) -> Result<(), Fail> {
    let alloc = rt.alloc();
    let mut text = Bytes::new(alloc);
    put_line(alloc, &binary(alloc)?, Universe::Unlabelled, &mut text)?;
    put_line(alloc, &trees(alloc)?, Universe::Labelled, &mut text)?;
    put_line(alloc, &trees(alloc)?, Universe::Unlabelled, &mut text)?;
    put_line(
        alloc,
        &sets_in_sets(alloc)?,
        Universe::Unlabelled,
        &mut text,
    )?;
    put_line(alloc, &two_rules(alloc)?, Universe::Labelled, &mut text)?;
    put_line(
        alloc,
        &second_bounded(alloc)?,
        Universe::Unlabelled,
        &mut text,
    )?;
    assert!(rt; text.as_slice() == GRAMMARS.as_bytes());
    Ok(())
}
