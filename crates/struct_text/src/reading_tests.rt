//! Texts that are read, and texts that aren't.
ghost use Rattle.std.specs.Prelude.{◌≡◌, ◌≤◌, ◌<◌, length, IfOk};
ghost use Rattle.spec_syntax.specs.Expression.{Atom as AtomOf, Name as NameOf, Union as UnionOf, more_expressions, no_expressions};

use crate::{TextFault, read_tagged, tagged};
use canon::is_member;
use spec_syntax::{Bytes, Card, Expr, ExprShape, Exprs, Kind, Name, Spec, Universe};
use std::alloc::{AllocError, Global};
use std::test::Fail;
use struct_model::{Shape, Struct};
use well_founded::{Grammar, check};

/// Z.
fn atom() -> Expr
    ensures { result ≡ AtomOf }
{
    Expr {
        shape: ExprShape::Atom,
    }
}

/// `P = Set(Cycle(Z))`.
fn sets_of_cycles(alloc: Global) -> Result<Spec, AllocError>
    ensures { IfOk result (λ spec. length spec ≡ 1) }
{
    let any = Card { low: 0, high: None };
    let cycle = Expr {
        shape: ExprShape::Many(Kind::Cycle, Box::new(alloc, atom())?, any),
    };
    let set = Expr {
        shape: ExprShape::Many(Kind::Set, Box::new(alloc, cycle)?, any),
    };
    let mut spec = Spec::new(alloc);
    spec.add(Name::from_slice(alloc, b"P")?, set)?;
    Ok(spec)
}

/// The rule of this name.
fn named(alloc: Global, name: &[u8]) -> Result<Expr, AllocError>
    ensures { IfOk result (λ expr. expr ≡ NameOf name.now) }
{
    Ok(Expr {
        shape: ExprShape::Name(Name::from_slice(alloc, name)?),
    })
}

/// `B = Union(Z, Prod(B, B))`.
fn binary_trees(alloc: Global) -> Result<Spec, AllocError>
    ensures { IfOk result (λ spec. length spec ≡ 1) }
{
    let mut children = Exprs::new(alloc);
    children.push(named(alloc, b"B")?)?;
    children.push(named(alloc, b"B")?)?;
    let mut arguments = Exprs::new(alloc);
    arguments.push(atom())?;
    arguments.push(Expr {
        shape: ExprShape::Prod(children),
    })?;
    let union = Expr {
        shape: ExprShape::Union(arguments),
    };
    let mut spec = Spec::new(alloc);
    spec.add(Name::from_slice(alloc, b"B")?, union)?;
    Ok(spec)
}

/// A name in a Union of the two names.
fn one_of(alloc: Global, one: &[u8], other: &[u8]) -> Result<Expr, AllocError>
    ensures { IfOk result (λ expr. expr ≡ UnionOf (more_expressions (NameOf one.now) (more_expressions (NameOf other.now) no_expressions))) }
{
    let mut arguments = Exprs::new(alloc);
    arguments.push(named(alloc, one)?)?;
    arguments.push(named(alloc, other)?)?;
    Ok(Expr {
        shape: ExprShape::Union(arguments),
    })
}

/// `S = Union(Z, Z)`.
fn two_atoms(alloc: Global) -> Result<Spec, AllocError>
    ensures { IfOk result (λ spec. length spec ≡ 1) }
{
    let mut arguments = Exprs::new(alloc);
    arguments.push(atom())?;
    arguments.push(atom())?;
    let union = Expr {
        shape: ExprShape::Union(arguments),
    };
    let mut spec = Spec::new(alloc);
    spec.add(Name::from_slice(alloc, b"S")?, union)?;
    Ok(spec)
}

/// `F = Sequence(Union(a, b)), a = Atom, b = Atom`.
fn words(alloc: Global) -> Result<Spec, AllocError>
    ensures { IfOk result (λ spec. length spec ≡ 3) }
{
    let letter = one_of(alloc, b"a", b"b")?;
    let any = Card { low: 0, high: None };
    let words = Expr {
        shape: ExprShape::Many(Kind::Sequence, Box::new(alloc, letter)?, any),
    };
    let mut spec = Spec::new(alloc);
    spec.add(Name::from_slice(alloc, b"F")?, words)?;
    spec.add(Name::from_slice(alloc, b"a")?, atom())?;
    spec.add(Name::from_slice(alloc, b"b")?, atom())?;
    Ok(spec)
}

/// Whether the text of a structure of the first rule is read, and what it is written as again is the same.
fn reads(alloc: Global, grammar: &Grammar, text: &[u8]) -> Result<bool, AllocError>
    requires { 1 ≤ length grammar.now.rules }
{
    if text.len() > 200_000 {
        return Ok(false);
    }
    match read_tagged(alloc, grammar, 1, text) {
        Ok(s) => {
            let mut again = Bytes::new(alloc);
            tagged(alloc, grammar.spec(), &s, &mut again)?;
            Ok(again.as_slice() == text)
        }
        Err(TextFault::NotStructure) => Ok(false),
        Err(TextFault::Memory) => Err(AllocError),
    }
}

/// Whether it is read, and so is no text without its last byte or with one more.
fn reads_exactly(alloc: Global, grammar: &Grammar, text: &[u8]) -> Result<bool, AllocError>
    requires { 1 ≤ length grammar.now.rules }
{
    if text.is_empty() {
        return Ok(false);
    }
    let mut longer = Bytes::from_slice(alloc, text)?;
    longer.push(b')')?;
    let shorter = &text[..text.len() - 1];
    Ok(
        reads(alloc, grammar, text)?
            && !reads(alloc, grammar, shorter)?
            && !reads(alloc, grammar, longer.as_slice())?,
    )
}

/// Whether each of these texts is read exactly, and none of those.
fn reads_these(
    alloc: Global,
    spec: &Spec,
    universe: Universe,
    texts: &[&str],
    others: &[&str],
) -> Result<bool, AllocError>
    requires { 1 ≤ length spec.now }
{
    let Ok(grammar) = check(alloc, spec, None, universe) else {
        return Ok(false);
    };
    for text in texts {
        if !reads_exactly(alloc, &grammar, text.as_bytes())? {
            return Ok(false);
        }
    }
    for text in others {
        if reads(alloc, &grammar, text.as_bytes())? {
            return Ok(false);
        }
    }
    Ok(true)
}

#[test]
fn texts_of_trees(rt: HostRuntime) -> Result<(), Fail> {
    let alloc = rt.alloc();
    let spec = binary_trees(alloc)?;
    let texts = [
        "1:Z",
        "2:Prod(1:Z, 1:Z)",
        "2:Prod(1:Z, 2:Prod(1:Z, 1:Z))",
        "2:Prod(2:Prod(1:Z, 1:Z), 1:Z)",
    ];
    let others = [
        "",
        "Z",
        "0:Z",
        "01:Z",
        "3:Z",
        "4294967297:Z",
        "1: Z",
        "1:Z[1]",
        "2:Prod(1:Z,  1:Z)",
        "2:Prod(1:Z)",
        "2:Prod(1:Z, 1:Z, 1:Z)",
    ];
    let right = reads_these(alloc, &spec, Universe::Unlabelled, &texts, &others)?;
    assert!(rt; right);
    Ok(())
}

#[test]
fn texts_of_words(rt: HostRuntime) -> Result<(), Fail> {
    let alloc = rt.alloc();
    let spec = words(alloc)?;
    let texts = ["Sequence()", "Sequence(1:a)", "Sequence(2:b, 2:b, 1:a)"];
    let others = [
        "Sequence(a)",
        "Sequence(1:b)",
        "Sequence(1:a2:b)",
        "Sequence(1:a, )",
        "Set(1:a)",
        "1:a",
    ];
    let right = reads_these(alloc, &spec, Universe::Unlabelled, &texts, &others)?;
    assert!(rt; right);
    Ok(())
}

#[test]
fn texts_of_sets_of_cycles(rt: HostRuntime) -> Result<(), Fail> {
    let alloc = rt.alloc();
    let spec = sets_of_cycles(alloc)?;
    let texts = [
        "Set()",
        "Set(Cycle(Z[1]))",
        "Set(Cycle(Z[1]), Cycle(Z[2], Z[3]))",
        "Set(Cycle(Z[1], Z[3]), Cycle(Z[2]))",
    ];
    let others = [
        "Set(Cycle(Z[2]), Cycle(Z[1]))",
        "Set(Cycle(Z[2], Z[1]))",
        "Set(Cycle())",
        "Set(Cycle(Z[1])",
        "Set(Cycle(Z))",
        "Set(Cycle(Z[0]))",
        "Set(Cycle(Z[01]))",
        "Set(Cycle(Z[4294967296]))",
    ];
    let right = reads_these(alloc, &spec, Universe::Labelled, &texts, &others)?;
    assert!(rt; right);
    Ok(())
}

/// Whether the structure with this text is a member of the first rule's class at size `n`.
fn is_read_at(alloc: Global, spec: &Spec, text: &[u8], n: u32) -> Result<bool, AllocError>
    requires some { length spec.now ≡ 1 }
    requires short { length text.now < 100 }
{
    let Ok(grammar) = check(alloc, spec, None, Universe::Labelled) else {
        return Ok(false);
    };
    match read_tagged(alloc, &grammar, 1, text) {
        Ok(s) => Ok(is_member(&grammar, 1, n, &s)),
        Err(_) => Ok(false),
    }
}

/// Whether the structure is an atom without a label, of that argument of the first rule's Union.
fn is_choice(s: &Struct, argument: u32) -> bool {
    let Shape::Named(1, choice) = &s.shape else {
        return false;
    };
    let Shape::Alt(chosen, inside) = &choice.shape else {
        return false;
    };
    *chosen == argument && matches!(inside.shape, Shape::Atom(0, 0))
}

/// Whether each of these texts is read exactly, as the atom of its argument, and is a member of the class at size 1.
fn reads_choices(alloc: Global, spec: &Spec, choices: &[(u32, &str)]) -> Result<bool, AllocError>
    requires { length spec.now ≡ 1 }
{
    let Ok(grammar) = check(alloc, spec, None, Universe::Unlabelled) else {
        return Ok(false);
    };
    for (argument, text) in choices {
        if text.len() > 100 || !reads_exactly(alloc, &grammar, text.as_bytes())? {
            return Ok(false);
        }
        let Ok(s) = read_tagged(alloc, &grammar, 1, text.as_bytes()) else {
            return Ok(false);
        };
        if !is_choice(&s, *argument) || !is_member(&grammar, 1, 1, &s) {
            return Ok(false);
        }
    }
    Ok(true)
}

#[test]
fn what_is_read_is_of_its_size(rt: HostRuntime) -> Result<(), Fail> {
    let spec = sets_of_cycles(rt.alloc())?;
    let at_one = is_read_at(rt.alloc(), &spec, b"Set(Cycle(Z[1]))", 1)?;
    assert!(rt; at_one);
    let at_two = is_read_at(rt.alloc(), &spec, b"Set(Cycle(Z[1]))", 2)?;
    assert!(rt; !at_two);
    let spec = two_atoms(rt.alloc())?;
    let told = reads_choices(rt.alloc(), &spec, &[(1, "1:Z"), (2, "2:Z")])?;
    assert!(rt; told);
    Ok(())
}

/// A tree of so many nodes, each the second child of the one before, with its parentheses closed or not.
fn deep_text(alloc: Global, depth: u32, closed: bool) -> Result<Bytes, AllocError> {
    let mut text = Bytes::new(alloc);
    for _ in 0..depth {
        text.extend_from_slice(b"2:Prod(1:Z, ")?;
    }
    text.extend_from_slice(b"1:Z")?;
    if closed {
        for _ in 0..depth {
            text.push(b')')?;
        }
    }
    Ok(text)
}

#[test]
fn deep_texts(rt: HostRuntime) -> Result<(), Fail> {
    let alloc = rt.alloc();
    let spec = binary_trees(alloc)?;
    let Ok(grammar) = check(alloc, &spec, None, Universe::Unlabelled) else {
        return Ok(());
    };
    for (depth, closed) in [(500, true), (9000, false)] {
        let text = deep_text(alloc, depth, closed)?;
        let right = reads(alloc, &grammar, text.as_slice())? == closed;
        assert!(rt; right);
    }
    Ok(())
}
