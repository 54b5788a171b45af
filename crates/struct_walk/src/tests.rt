//! Walks over small classes, and the first steps over large ones.
ghost use Rattle.std.specs.Prelude.{◌≡◌, Some, false, [], ◌∷◌, ◌≤◌, IfOk, IfSome, IsTrue, IsSome, length};
ghost use Rattle.spec_syntax.specs.Rules.{is_spec, symbol};
ghost use Rattle.spec_syntax.specs.Expression.{Atom as AtomOf, Name as NameOf, Union as UnionOf, Prod as ProdOf, Many as ManyOf, more_expressions, no_expressions};
ghost use Rattle.spec_syntax.specs.declared.expr.Kind.TheVariants.{Sequence as SequenceOf};
ghost use Rattle.struct_walk.specs.Stands.{IsAsked};
ghost use Rattle.struct_walk.specs.WalkerView.{HasRest, walker_is_broken};

use crate::{Iter, Walk, Walker};
use size_counts::Counted;
use spec_syntax::{Card, Expr, ExprShape, Exprs, Kind, Name, Spec, Universe};
use std::alloc::{AllocError, Global};
use std::test::Fail;
use struct_model::{Form5, Labels, Shape, Struct, Structs, Supply, labels, size};
use well_founded::check;

/// Z.
fn atom() -> Expr
    ensures { result ≡ AtomOf }
{
    Expr {
        shape: ExprShape::Atom,
    }
}

/// The rule of this name.
fn named(alloc: Global, name: &[u8]) -> Result<Expr, AllocError>
    ensures { IfOk result (λ expr. expr ≡ NameOf name.now) }
{
    Ok(Expr {
        shape: ExprShape::Name(Name::from_slice(alloc, name)?),
    })
}

/// One and another one.
fn both(alloc: Global, one: Expr, other: Expr) -> Result<Exprs, AllocError>
    ensures { IfOk result (λ exprs. exprs ≡ one ∷ other ∷ []) }
{
    let mut exprs = Exprs::new(alloc);
    exprs.push(one)?;
    exprs.push(other)?;
    Ok(exprs)
}

/// A structure of one or of the other.
fn union_of(alloc: Global, one: Expr, other: Expr) -> Result<Expr, AllocError>
    ensures { IfOk result (λ expr. expr ≡ UnionOf (more_expressions one (more_expressions other no_expressions))) }
{
    Ok(Expr {
        shape: ExprShape::Union(both(alloc, one, other)?),
    })
}

/// A structure of the one and one of the other.
fn prod_of(alloc: Global, one: Expr, other: Expr) -> Result<Expr, AllocError>
    ensures { IfOk result (λ expr. expr ≡ ProdOf (more_expressions one (more_expressions other no_expressions))) }
{
    Ok(Expr {
        shape: ExprShape::Prod(both(alloc, one, other)?),
    })
}

/// A container of the element, with this bound.
fn many_of(alloc: Global, kind: Kind, element: Expr, card: Card) -> Result<Expr, AllocError>
    ensures { IfOk result (λ expr. expr ≡ ManyOf kind element card) }
{
    Ok(Expr {
        shape: ExprShape::Many(kind, Box::new(alloc, element)?, card),
    })
}

/// A Sequence of the element, with this bound.
fn sequence_of(alloc: Global, element: Expr, card: Card) -> Result<Expr, AllocError>
    ensures { IfOk result (λ expr. expr ≡ ManyOf SequenceOf element card) }
{
    Ok(Expr {
        shape: ExprShape::Many(Kind::Sequence, Box::new(alloc, element)?, card),
    })
}

/// The bound that admits any number.
const ANY: Card = Card { low: 0, high: None };

/// The bound that admits any number but none.
const SOME: Card = Card { low: 1, high: None };

/// The words of this length over two letters.
fn words_of(alloc: Global, length: u32) -> Result<Expr, AllocError>
    ensures { IfOk result (λ expr. expr ≡ ManyOf SequenceOf (UnionOf (more_expressions AtomOf (more_expressions AtomOf no_expressions))) (record { low = length; high = Some length })) }
{
    let letters = union_of(alloc, atom(), atom())?;
    let card = Card {
        low: length,
        high: Some(length),
    };
    sequence_of(alloc, letters, card)
}

/// The rule `S = right`.
fn one_rule(alloc: Global, right: Expr) -> Result<Spec, AllocError>
    requires { IsTrue (is_spec ((83 ∷ [], right) ∷ [])) }
    ensures { IfOk result (λ spec. spec ≡ (83 ∷ [], right) ∷ []) }
{
    let mut spec = Spec::new(alloc);
    spec.add(Name::from_slice(alloc, b"S")?, right)?;
    Ok(spec)
}

/// The numbers of a class, where it passes the check and no number is too large.
fn counted(
    alloc: Global,
    spec: &Spec,
    name: &Name,
    universe: Universe,
    size: u32,
) -> Option<Counted>
    requires class { IsSome (symbol spec.now name.now) }
    requires small { size ≤ 1000 }
    ensures universe { IfSome result (λ counted. counted.checked.universe ≡ universe) }
    ensures size { IfSome result (λ counted. counted.size ≡ size) }
{
    let Ok(grammar) = check(alloc, spec, Some(name), universe) else {
        return None;
    };
    Counted::new(alloc, grammar, size).ok()
}

/// The walk over the members of the class of the rule `S = right`, which is one that is counted.
fn members(
    alloc: Global,
    right: Expr,
    universe: Universe,
    size: u32,
) -> Result<Option<Iter>, AllocError>
    requires spec { IsTrue (is_spec ((83 ∷ [], right) ∷ [])) }
    requires small { size ≤ 1000 }
{
    let spec = one_rule(alloc, right)?;
    let name = Name::from_slice(alloc, b"S")?;
    match counted(alloc, &spec, &name, universe, size) {
        Some(counted) => Ok(Some(Iter::first(alloc, counted)?)),
        None => Ok(None),
    }
}

/// Whether a member comes next, and its labels from left to right are these.
fn is_next(alloc: Global, iter: &mut Iter, expected: &[u32]) -> Result<bool, AllocError> {
    if iter.broken() {
        return Ok(false);
    }
    match iter.next(alloc)? {
        Some(s) => {
            let found = labels(alloc, &s)?;
            Ok(found.as_slice() == expected)
        }
        None => Ok(false),
    }
}

/// Whether no member is left, and none comes.
fn is_over(alloc: Global, iter: &mut Iter) -> Result<bool, AllocError> {
    if iter.broken() || !iter.finished() {
        return Ok(false);
    }
    Ok(iter.next(alloc)?.is_none())
}

/// How many members are passed until none is left, or `limit` where there are as many.
fn passed(alloc: Global, iter: &mut Iter, limit: usize) -> Result<usize, AllocError> {
    for count in 0..limit {
        if iter.broken() || iter.finished() {
            return Ok(count);
        }
        iter.pass(alloc)?;
    }
    Ok(limit)
}

/// Puts the labels of a Cycle's components, which are atoms, and a 0 at the end.
fn tell_cycle(alloc: Global, s: &Struct, told: &mut Vec<u32>) -> Result<(), AllocError> {
    if matches!(&s.shape, Shape::Tup(Form5::Cycle, _)) {
        told.extend_from_slice(labels(alloc, s)?.as_slice())?;
    }
    told.push(0)?;
    Ok(())
}

/// Puts the labels of each Cycle in a Set of them, with a 0 behind each, and a 0 at the end.
fn tell_set(alloc: Global, s: &Struct, told: &mut Vec<u32>) -> Result<(), AllocError> {
    if let Shape::Named(1, inside) = &s.shape {
        if let Shape::Tup(Form5::Set, cycles) = &inside.shape {
            for cycle in cycles.as_slice() {
                tell_cycle(alloc, cycle, told)?;
            }
        }
    }
    told.push(0)?;
    Ok(())
}

/// What is told of the Sets of Cycles that come next, and of at most 9.
fn told_sets(alloc: Global, iter: &mut Iter) -> Result<Vec<u32>, AllocError> {
    let mut told = Vec::new(alloc);
    for _ in 0..9 {
        if iter.broken() {
            return Ok(told);
        }
        if let Some(s) = iter.next(alloc)? {
            tell_set(alloc, &s, &mut told)?;
        }
    }
    Ok(told)
}

/// Puts the sizes of the components of a PowerSet at the end, and a 0 behind them.
fn tell_sizes(s: &Struct, told: &mut Vec<u32>) -> Result<(), AllocError> {
    if let Shape::Named(1, inside) = &s.shape {
        if let Shape::Tup(Form5::PowerSet, parts) = &inside.shape {
            for part in parts.as_slice() {
                told.push(size(part))?;
            }
        }
    }
    told.push(0)?;
    Ok(())
}

/// What is told of the PowerSets that come next, and of at most 9.
fn told_sizes(alloc: Global, iter: &mut Iter) -> Result<Vec<u32>, AllocError> {
    let mut told = Vec::new(alloc);
    for _ in 0..9 {
        if iter.broken() {
            return Ok(told);
        }
        if let Some(s) = iter.next(alloc)? {
            tell_sizes(&s, &mut told)?;
        }
    }
    Ok(told)
}

/// Whether it is a structure of a Union's first argument, which is the letter of rule 2.
fn is_first_letter(s: &Struct) -> bool {
    if let Shape::Alt(1, inside) = &s.shape {
        return matches!(&inside.shape, Shape::Atom(2, 0));
    }
    false
}

/// Whether it is a Sequence of 60 such structures, as one of rule 1.
fn is_first_word(s: &Struct) -> bool {
    let Shape::Named(1, inside) = &s.shape else {
        return false;
    };
    let Shape::Tup(Form5::Sequence, parts) = &inside.shape else {
        return false;
    };
    for part in parts.as_slice() {
        if !is_first_letter(part) {
            return false;
        }
    }
    parts.len() == 60
}

/// The words of the letters a and b: `F = Sequence(Union(a, b)), a = Atom, b = Atom`.
fn words(alloc: Global) -> Result<Option<Counted>, AllocError> {
    let mut spec = Spec::new(alloc);
    let letters = union_of(alloc, named(alloc, b"a")?, named(alloc, b"b")?)?;
    let right = sequence_of(alloc, letters, ANY)?;
    spec.add(Name::from_slice(alloc, b"F")?, right)?;
    spec.add(Name::from_slice(alloc, b"a")?, atom())?;
    spec.add(Name::from_slice(alloc, b"b")?, atom())?;
    let name = Name::from_slice(alloc, b"F")?;
    Ok(counted(alloc, &spec, &name, Universe::Unlabelled, 60))
}

/// The labels of the next two structures of a walker, where there are two.
fn next_two(
    alloc: Global,
    counted: &Counted,
    walker: &mut Walker,
) -> Result<Option<(Labels, Labels)>, AllocError>
    requires whole { walker_is_broken walker.old ≡ false }
    requires has_rest { HasRest counted.now walker.old }
{
    let Some(one) = walker.next(alloc, counted)? else {
        return Ok(None);
    };
    let one = labels(alloc, &one)?;
    let Some(other) = walker.next(alloc, counted)? else {
        return Ok(None);
    };
    let other = labels(alloc, &other)?;
    Ok(Some((one, other)))
}

/// The labels of the first two structures of the node on the supply, where there are two.
fn first_two(
    alloc: Global,
    counted: &Counted,
    node: u32,
    supply: Supply,
) -> Result<Option<(Labels, Labels)>, AllocError>
    requires { IsAsked counted.now supply }
{
    if node >= counted.grammar().nodes() || !counted.reached(node) {
        return Ok(None);
    }
    let mut walker = Walker::first(alloc, counted, node, supply)?;
    next_two(alloc, counted, &mut walker)
}

/// Whether the walk gives four members: one with the labels 1 and 2, another one, one with them turned, and another one.
fn gives_four(alloc: Global, iter: &mut Iter) -> Result<bool, AllocError> {
    Ok(
        is_next(alloc, iter, &[1, 2])?
            && passed(alloc, iter, 1)? == 1
            && is_next(alloc, iter, &[2, 1])?
            && passed(alloc, iter, 9)? == 1
            && is_over(alloc, iter)?,
    )
}

#[test]
fn to_the_end(rt: HostRuntime) -> Result<(), Fail> {
    let alloc = rt.alloc();
    let list = prod_of(alloc, atom(), sequence_of(alloc, atom(), ANY)?)?;
    let lists = sequence_of(alloc, list, ANY)?;
    let mut iter = members(alloc, lists, Universe::Labelled, 2)?.expect(&rt, "a class");
    assert!(rt; gives_four(alloc, &mut iter)?);
    Ok(())
}

#[test]
fn no_member(rt: HostRuntime) -> Result<(), Fail> {
    let alloc = rt.alloc();
    let mut iter = members(alloc, atom(), Universe::Labelled, 2)?.expect(&rt, "a class");
    assert!(rt; is_over(alloc, &mut iter)?);
    Ok(())
}

#[test]
fn the_first_of_many(rt: HostRuntime) -> Result<(), Fail> {
    let alloc = rt.alloc();
    let words = words(alloc)?.expect(&rt, "a class");
    let iter = Iter::first(alloc, words)?;
    assert!(rt; is_first_word(iter.coming().expect(&rt, "a member")));
    Ok(())
}

#[test]
fn other_labels(rt: HostRuntime) -> Result<(), Fail> {
    let alloc = rt.alloc();
    let spec = one_rule(alloc, sequence_of(alloc, atom(), ANY)?)?;
    let name = Name::from_slice(alloc, b"S")?;
    let words = counted(alloc, &spec, &name, Universe::Labelled, 4);
    let words = words.expect(&rt, "a class");
    let supply = Supply::Labels(Labels::from_slice(alloc, &[3, 5, 9])?);
    let found = first_two(alloc, &words, 0, supply)?;
    let (one, other) = found.expect(&rt, "two structures");
    assert_eq!(rt; one.as_slice(), [3, 5, 9].as_slice());
    assert_eq!(rt; other.as_slice(), [3, 9, 5].as_slice());
    Ok(())
}

#[test]
fn sets_of_cycles(rt: HostRuntime) -> Result<(), Fail> {
    let alloc = rt.alloc();
    let cycles = many_of(alloc, Kind::Cycle, atom(), ANY)?;
    let sets = many_of(alloc, Kind::Set, cycles, ANY)?;
    let mut iter = members(alloc, sets, Universe::Labelled, 3)?.expect(&rt, "a class");
    let told = told_sets(alloc, &mut iter)?;
    assert_eq!(rt;
        told.as_slice(),
        [
            1, 0, 2, 0, 3, 0, 0, // Set(Cycle(Z[1]), Cycle(Z[2]), Cycle(Z[3]))
            1, 0, 2, 3, 0, 0, // Set(Cycle(Z[1]), Cycle(Z[2], Z[3]))
            1, 2, 0, 3, 0, 0, // Set(Cycle(Z[1], Z[2]), Cycle(Z[3]))
            1, 2, 3, 0, 0, // Set(Cycle(Z[1], Z[2], Z[3]))
            1, 3, 2, 0, 0, // Set(Cycle(Z[1], Z[3], Z[2]))
            1, 3, 0, 2, 0, 0, // Set(Cycle(Z[1], Z[3]), Cycle(Z[2]))
        ]
        .as_slice()
    );
    Ok(())
}

#[test]
fn powersets_of_sequences(rt: HostRuntime) -> Result<(), Fail> {
    let alloc = rt.alloc();
    let sequences = sequence_of(alloc, atom(), SOME)?;
    let sets = many_of(alloc, Kind::PowerSet, sequences, ANY)?;
    let mut iter = members(alloc, sets, Universe::Unlabelled, 6)?.expect(&rt, "a class");
    let told = told_sizes(alloc, &mut iter)?;
    assert_eq!(rt;
        told.as_slice(),
        [1, 2, 3, 0, 1, 5, 0, 2, 4, 0, 6, 0].as_slice()
    );
    Ok(())
}

/// Whether the class of the rule `S = right` has a hundred members, as far as they are passed.
fn has_a_hundred(
    alloc: Global,
    right: Expr,
    universe: Universe,
    size: u32,
) -> Result<bool, AllocError>
    requires spec { IsTrue (is_spec ((83 ∷ [], right) ∷ [])) }
    requires small { size ≤ 1000 }
{
    match members(alloc, right, universe, size)? {
        Some(mut iter) => Ok(passed(alloc, &mut iter, 100)? == 100),
        None => Ok(false),
    }
}

#[test]
fn the_first_hundred_of_many(rt: HostRuntime) -> Result<(), Fail> {
    let alloc = rt.alloc();
    let parts = sequence_of(alloc, atom(), SOME)?;
    let partitions = many_of(alloc, Kind::Set, parts, ANY)?;
    assert!(rt; has_a_hundred(alloc, partitions, Universe::Unlabelled, 100)?);
    let blocks = many_of(alloc, Kind::Set, atom(), SOME)?;
    let partitions = many_of(alloc, Kind::Set, blocks, ANY)?;
    assert!(rt; has_a_hundred(alloc, partitions, Universe::Labelled, 30)?);
    let gaps = union_of(alloc, words_of(alloc, 7)?, words_of(alloc, 11)?)?;
    let gaps = union_of(alloc, gaps, words_of(alloc, 13)?)?;
    let distinct = many_of(alloc, Kind::PowerSet, gaps, ANY)?;
    assert!(rt; has_a_hundred(alloc, distinct, Universe::Unlabelled, 100)?);
    Ok(())
}

/// The Sequence of three atoms with these labels, as one of rule 1.
fn word_of_three(alloc: Global, one: u32, two: u32, three: u32) -> Result<Struct, AllocError> {
    let mut parts = Structs::new(alloc);
    parts.push(Struct {
        shape: Shape::Atom(0, one),
    })?;
    parts.push(Struct {
        shape: Shape::Atom(0, two),
    })?;
    parts.push(Struct {
        shape: Shape::Atom(0, three),
    })?;
    let inside = Struct {
        shape: Shape::Tup(Form5::Sequence, parts),
    };
    Ok(Struct {
        shape: Shape::Named(1, Box::new(alloc, inside)?),
    })
}

#[test]
fn after_a_member(rt: HostRuntime) -> Result<(), Fail> {
    let alloc = rt.alloc();
    let spec = one_rule(alloc, sequence_of(alloc, atom(), ANY)?)?;
    let name = Name::from_slice(alloc, b"S")?;
    let words = counted(alloc, &spec, &name, Universe::Labelled, 3);
    let words = words.expect(&rt, "a class");
    let from = word_of_three(alloc, 1, 3, 2)?;
    let mut iter = Iter::after(alloc, words, &from)
        .ok()
        .expect(&rt, "a member");
    assert!(rt; is_next(alloc, &mut iter, &[2, 1, 3])?);
    Ok(())
}
