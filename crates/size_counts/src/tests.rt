//! Tests of the numbers of small classes.
ghost use Rattle.std.specs.Prelude.{◌≡◌, Some, None, [], ◌∷◌, ◌++◌, ◌≤◌, length, IfOk, IsTrue, IsSome};
ghost use Rattle.spec_syntax.specs.Rules.{is_spec, symbol};
ghost use Rattle.spec_syntax.specs.Card.{is_writable};
ghost use Rattle.spec_syntax.specs.declared.expr.Kind.TheVariants.{Sequence as SequenceOf, Cycle as CycleOf};
ghost use Rattle.spec_syntax.specs.Expression.{Atom as AtomOf, Name as NameOf, Union as UnionOf, Prod as ProdOf, Many as ManyOf, more_expressions, no_expressions};

use crate::{CountFault, Counted, Group, Place, numbers_of_a_class_say_one_thing};
use spec_syntax::{Card, Expr, ExprShape, Exprs, Kind, Name, Spec, Universe};
use std::alloc::{AllocError, Global};
use std::test::Fail;
use well_founded::{Grammar, NodeKind, check};

/// Z.
fn atom() -> Expr
    ensures { result ≡ AtomOf }
{
    Expr {
        shape: ExprShape::Atom,
    }
}

/// The rule S.
fn class(alloc: Global) -> Result<Expr, AllocError>
    ensures { IfOk result (λ expr. expr ≡ NameOf (83 ∷ [])) }
{
    Ok(Expr {
        shape: ExprShape::Name(Name::from_slice(alloc, b"S")?),
    })
}

/// One and another one.
fn both(alloc: Global, one: Expr, other: Expr) -> Result<Exprs, AllocError>
    ensures { IfOk result (λ exprs. exprs ≡ one ∷ other ∷ []) }
{
    let mut exprs = Exprs::new(alloc);
    exprs.push(one)?;
    exprs.push(other)?;
    Ok(exprs)
}

/// A structure of one or of the other.
fn union_of(alloc: Global, one: Expr, other: Expr) -> Result<Expr, AllocError>
    ensures { IfOk result (λ expr. expr ≡ UnionOf (more_expressions one (more_expressions other no_expressions))) }
{
    Ok(Expr {
        shape: ExprShape::Union(both(alloc, one, other)?),
    })
}

/// A structure of the one and one of the other.
fn prod_of(alloc: Global, one: Expr, other: Expr) -> Result<Expr, AllocError>
    ensures { IfOk result (λ expr. expr ≡ ProdOf (more_expressions one (more_expressions other no_expressions))) }
{
    Ok(Expr {
        shape: ExprShape::Prod(both(alloc, one, other)?),
    })
}

/// A container of the element, with this bound.
fn many(alloc: Global, kind: Kind, element: Expr, card: Card) -> Result<Expr, AllocError>
    ensures { IfOk result (λ expr. expr ≡ ManyOf kind element card) }
{
    Ok(Expr {
        shape: ExprShape::Many(kind, Box::new(alloc, element)?, card),
    })
}

/// The bound that admits any number.
const ANY: Card = Card { low: 0, high: None };

/// The bound that admits any number but none.
const SOME: Card = Card { low: 1, high: None };

/// The numbers of the class of the rule `S = right`, where it passes the check.
fn counted(
    alloc: Global,
    right: Expr,
    universe: Universe,
    size: u32,
) -> Result<Option<Result<Counted, CountFault>>, AllocError>
    requires spec { IsTrue (is_spec ((83 ∷ [], right) ∷ [])) }
    requires small { size ≤ 1000 }
{
    let mut spec = Spec::new(alloc);
    spec.add(Name::from_slice(alloc, b"S")?, right)?;
    let name = Name::from_slice(alloc, b"S")?;
    match check(alloc, &spec, Some(&name), universe) {
        Ok(grammar) => Ok(Some(Counted::new(alloc, grammar, size))),
        Err(_) => Ok(None),
    }
}

/// The count of the class, or where a number is too large.
fn told(answer: Option<Result<Counted, CountFault>>) -> Result<u128, Option<Place>> {
    match answer {
        Some(Ok(counted)) => Ok(counted.count()),
        Some(Err(CountFault::TooLarge(place))) => Err(Some(place)),
        Some(Err(CountFault::Memory)) | None => Err(None),
    }
}

/// What the accessor for the node's kind tells: the suffix from argument i on, the lists, Sets or Cycles of i components, or the
/// number.
fn other(counted: &Counted, node: u32, i: u32, m: u32) -> u128 {
    let grammar = counted.grammar();
    if node >= grammar.nodes() || m > counted.size() || !counted.reached(node) {
        return 0;
    }
    match grammar.kind(node) {
        NodeKind::Prod => {
            if 2 <= i && i <= grammar.children(node) {
                counted.suffix(node, i, m)
            } else {
                0
            }
        }
        NodeKind::Sequence => match grammar.card(node).high {
            Some(_) => 0,
            None => counted.lists(node, i, m),
        },
        NodeKind::Set => match grammar.card(node).high {
            Some(_) => 0,
            None => counted.sets(node, i, m),
        },
        NodeKind::Cycle => match grammar.card(node).high {
            Some(_) => 0,
            None if i > 0 => counted.cycles(node, i, m),
            None => 0,
        },
        NodeKind::Epsilon
        | NodeKind::Atom
        | NodeKind::Rule
        | NodeKind::Union
        | NodeKind::PowerSet => counted.number(node, m),
    }
}

#[test]
fn counts(rt: HostRuntime) -> Result<(), Fail> {
    let alloc = rt.alloc();
    let trees = union_of(alloc, atom(), prod_of(alloc, class(alloc)?, class(alloc)?)?)?;
    let trees = counted(alloc, trees, Universe::Unlabelled, 30)?;
    assert!(rt; told(trees) == Ok(1002242216651368));
    let words = many(alloc, Kind::Sequence, atom(), ANY)?;
    let words = counted(alloc, words, Universe::Labelled, 34)?;
    assert!(rt; told(words) == Ok(295232799039604140847618609643520000000));
    let words = many(alloc, Kind::Sequence, atom(), ANY)?;
    let words = counted(alloc, words, Universe::Labelled, 35)?;
    let place = Place {
        rule: 1,
        node: 1,
        group: Group::Count,
        index: 0,
        size: 35,
    };
    assert!(rt; told(words) == Err(Some(place)));
    Ok(())
}

#[test]
fn numbers(rt: HostRuntime) -> Result<(), Fail> {
    let alloc = rt.alloc();
    let one = many(alloc, Kind::Sequence, atom(), ANY)?;
    let two = many(alloc, Kind::Sequence, atom(), ANY)?;
    let pairs = counted(alloc, prod_of(alloc, one, two)?, Universe::Labelled, 3)?;
    if let Some(Ok(counted)) = pairs {
        assert_eq!(rt; counted.count(), 24);
        assert_eq!(rt; other(&counted, 0, 2, 3), 6);
        assert_eq!(rt; other(&counted, 1, 2, 3), 0);
        assert_eq!(rt; other(&counted, 1, 3, 3), 6);
        assert_eq!(rt; other(&counted, 1, 0, 0), 1);
        assert_eq!(rt; other(&counted, 2, 0, 1), 1);
        return Ok(());
    }
    assert!(rt; false);
    Ok(())
}

/// The count of the class of the rule `S = right` at this size.
fn count(
    alloc: Global,
    right: Expr,
    universe: Universe,
    size: u32,
) -> Result<Result<u128, Option<Place>>, AllocError>
    requires spec { IsTrue (is_spec ((83 ∷ [], right) ∷ [])) }
    requires small { size ≤ 1000 }
{
    Ok(told(counted(alloc, right, universe, size)?))
}

#[test]
fn rooted_trees(rt: HostRuntime) -> Result<(), Fail> {
    let alloc = rt.alloc();
    let five = prod_of(alloc, atom(), many(alloc, Kind::Set, class(alloc)?, ANY)?)?;
    assert!(rt; count(alloc, five, Universe::Unlabelled, 5)? == Ok(9));
    let ten = prod_of(alloc, atom(), many(alloc, Kind::Set, class(alloc)?, ANY)?)?;
    assert!(rt; count(alloc, ten, Universe::Unlabelled, 10)? == Ok(719));
    Ok(())
}

/// A container of lists of atoms, none of which is empty: a partition, or an order of the parts of one.
fn parts(alloc: Global, kind: Kind) -> Result<Expr, AllocError>
    ensures { IfOk result (λ expr. expr ≡ ManyOf kind (ManyOf SequenceOf AtomOf (record { low = 1; high = None })) (record { low = 0; high = None })) }
{
    many(alloc, kind, many(alloc, Kind::Sequence, atom(), SOME)?, ANY)
}

#[test]
fn partitions(rt: HostRuntime) -> Result<(), Fail> {
    let alloc = rt.alloc();
    let distinct = parts(alloc, Kind::PowerSet)?;
    assert!(rt; count(alloc, distinct, Universe::Unlabelled, 10)? == Ok(10));
    let any = parts(alloc, Kind::Set)?;
    assert!(rt; count(alloc, any, Universe::Unlabelled, 10)? == Ok(42));
    let many_any = parts(alloc, Kind::Set)?;
    assert!(rt; count(alloc, many_any, Universe::Unlabelled, 200)? == Ok(3972999029388));
    let cycles = parts(alloc, Kind::Cycle)?;
    assert!(rt; count(alloc, cycles, Universe::Labelled, 4)? == Ok(90));
    Ok(())
}

#[test]
fn sets_of_words(rt: HostRuntime) -> Result<(), Fail> {
    let alloc = rt.alloc();
    let ten = Card {
        low: 10,
        high: Some(10),
    };
    let five = Card {
        low: 5,
        high: Some(5),
    };
    let word = many(alloc, Kind::Sequence, union_of(alloc, atom(), atom())?, ten)?;
    let words = many(alloc, Kind::PowerSet, word, five)?;
    assert!(rt; count(alloc, words, Universe::Unlabelled, 50)? == Ok(9291185992704));
    Ok(())
}

#[test]
fn labelled_sets(rt: HostRuntime) -> Result<(), Fail> {
    let alloc = rt.alloc();
    let five = many(alloc, Kind::Set, many(alloc, Kind::Set, atom(), SOME)?, ANY)?;
    assert!(rt; count(alloc, five, Universe::Labelled, 5)? == Ok(52));
    let more = many(alloc, Kind::Set, many(alloc, Kind::Set, atom(), SOME)?, ANY)?;
    assert!(rt; count(alloc, more, Universe::Labelled, 25)? == Ok(4638590332229999353));
    let one = many(alloc, Kind::Set, atom(), ANY)?;
    assert!(rt; count(alloc, one, Universe::Labelled, 200)? == Ok(1));
    Ok(())
}

#[test]
fn sets_of_atoms(rt: HostRuntime) -> Result<(), Fail> {
    let alloc = rt.alloc();
    let labelled = many(alloc, Kind::PowerSet, atom(), ANY)?;
    assert!(rt; count(alloc, labelled, Universe::Labelled, 3)? == Ok(1));
    let unlabelled = many(alloc, Kind::PowerSet, atom(), ANY)?;
    assert!(rt; count(alloc, unlabelled, Universe::Unlabelled, 3)? == Ok(0));
    let cycle = many(alloc, Kind::Cycle, atom(), ANY)?;
    assert!(rt; count(alloc, cycle, Universe::Labelled, 6)? == Ok(120));
    Ok(())
}

/// Cycles of atoms of two kinds.
fn necklaces(alloc: Global) -> Result<Expr, AllocError>
    ensures { IfOk result (λ expr. expr ≡ ManyOf CycleOf (UnionOf (more_expressions AtomOf (more_expressions AtomOf no_expressions))) (record { low = 0; high = None })) }
{
    many(alloc, Kind::Cycle, union_of(alloc, atom(), atom())?, ANY)
}

#[test]
fn labelled_cycles(rt: HostRuntime) -> Result<(), Fail> {
    let alloc = rt.alloc();
    let four = necklaces(alloc)?;
    assert!(rt; count(alloc, four, Universe::Labelled, 4)? == Ok(96));
    let six = necklaces(alloc)?;
    assert!(rt; count(alloc, six, Universe::Labelled, 6)? == Ok(7680));
    let twenty = necklaces(alloc)?;
    assert!(rt; count(alloc, twenty, Universe::Labelled, 20)? == Ok(127554132806291423232000));
    Ok(())
}

#[test]
fn the_first_too_large(rt: HostRuntime) -> Result<(), Fail> {
    let alloc = rt.alloc();
    let pairs = Card {
        low: 2,
        high: Some(2),
    };
    let halves = Card {
        low: 66,
        high: Some(66),
    };
    let half = many(alloc, Kind::Set, atom(), halves)?;
    let sets = many(alloc, Kind::Set, half, pairs)?;
    let place = Place {
        rule: 1,
        node: 1,
        group: Group::Sets,
        index: 2,
        size: 132,
    };
    assert!(rt; count(alloc, sets, Universe::Labelled, 132)? == Err(Some(place)));
    Ok(())
}

/// Whether the containers of atoms of two kinds and of pairs of atoms are so many, by size from 0 on.
fn are_so_many(
    alloc: Global,
    kind: Kind,
    card: Card,
    universe: Universe,
    numbers: &[u128],
) -> Result<bool, AllocError>
    requires bound { IsTrue (is_writable card) }
    requires few { length numbers.now ≤ 6 }
{
    for (size, number) in numbers.iter().enumerate() {
        let pair = prod_of(alloc, atom(), atom())?;
        let element = union_of(alloc, atom(), union_of(alloc, atom(), pair)?)?;
        let right = many(alloc, kind, element, card)?;
        if count(alloc, right, universe, size as u32)? != Ok(*number) {
            return Ok(false);
        }
    }
    Ok(true)
}

/// The bound that admits two components.
const TWO: Card = Card {
    low: 2,
    high: Some(2),
};

/// The bound that admits at most two.
const TO_TWO: Card = Card {
    low: 0,
    high: Some(2),
};

#[test]
fn numbers_are_of_the_listings(rt: HostRuntime) -> Result<(), Fail> {
    let alloc = rt.alloc();
    let zeros = Universe::Unlabelled;
    let labels = Universe::Labelled;
    let words = are_so_many(alloc, Kind::Sequence, ANY, zeros, &[1, 2, 5, 12, 29, 70])?;
    assert!(rt; words);
    let sets = are_so_many(alloc, Kind::Set, ANY, zeros, &[1, 2, 4, 6, 9, 12])?
        && are_so_many(alloc, Kind::Set, TO_TWO, zeros, &[1, 2, 4, 2, 1, 0])?
        && are_so_many(alloc, Kind::Set, ANY, labels, &[1, 2, 6, 20, 76])?;
    assert!(rt; sets);
    let power_sets = are_so_many(alloc, Kind::PowerSet, ANY, zeros, &[1, 2, 2, 2, 1, 0])?
        && are_so_many(alloc, Kind::PowerSet, TWO, zeros, &[0, 0, 1, 2, 0, 0])?
        && are_so_many(alloc, Kind::PowerSet, TWO, labels, &[0, 0, 4, 12, 12])?;
    assert!(rt; power_sets);
    let cycles = are_so_many(alloc, Kind::Cycle, ANY, labels, &[0, 2, 6, 28, 204])?
        && are_so_many(alloc, Kind::Cycle, TO_TWO, labels, &[0, 2, 6, 12, 12])?;
    assert!(rt; cycles);
    Ok(())
}

/// Whether so many parts of the class's partitions, each at least so large, can have n atoms in all.
fn may_fill(counted: &Counted, card: Card, least: u32, n: u32) -> bool {
    let grammar = counted.grammar();
    if grammar.nodes() == 0 || n > counted.size() || !counted.reached(0) {
        return false;
    }
    match grammar.kind(0) {
        NodeKind::Set | NodeKind::PowerSet => match grammar.card(0).high {
            Some(_) => false,
            None => counted.may_fill(0, card, least, n),
        },
        NodeKind::Epsilon
        | NodeKind::Atom
        | NodeKind::Rule
        | NodeKind::Union
        | NodeKind::Prod
        | NodeKind::Sequence
        | NodeKind::Cycle => false,
    }
}

#[test]
fn parts_that_are_left(rt: HostRuntime) -> Result<(), Fail> {
    let alloc = rt.alloc();
    let any = counted(alloc, parts(alloc, Kind::Set)?, Universe::Unlabelled, 8)?;
    let distinct = counted(
        alloc,
        parts(alloc, Kind::PowerSet)?,
        Universe::Unlabelled,
        8,
    )?;
    if let (Some(Ok(any)), Some(Ok(distinct))) = (any, distinct) {
        let halves = may_fill(&any, TWO, 4, 8) && !may_fill(&distinct, TWO, 4, 8);
        assert!(rt; halves);
        let large = !may_fill(&any, TWO, 5, 8) && may_fill(&distinct, ANY, 8, 8);
        assert!(rt; large);
        let none = may_fill(&any, TO_TWO, 3, 0) && !may_fill(&any, TWO, 1, 0);
        assert!(rt; none);
        return Ok(());
    }
    assert!(rt; false);
    Ok(())
}

#[test]
fn the_laws(_rt: HostRuntime) -> Result<(), Fail> {
    numbers_of_a_class_say_one_thing();
    Ok(())
}
