//! Structures with both texts.
ghost use Rattle.std.specs.Prelude.{◌≡◌, ◌<◌, ◌^◌, length, IfOk};
ghost use Rattle.struct_model.specs.Structure.{Atom as AtomOf, labels};

use crate::{maple, tagged};
use spec_syntax::{Bytes, Expr, ExprShape, Name, Spec};
use std::alloc::{AllocError, Global};
use std::test::Fail;
use struct_model::{Form5, Shape, Struct, Structs};

/// `A = Atom`.
fn one_rule(alloc: Global) -> Result<Spec, AllocError> {
    let mut spec = Spec::new(alloc);
    let right = Expr {
        shape: ExprShape::Atom,
    };
    spec.add(Name::from_slice(alloc, b"A")?, right)?;
    Ok(spec)
}

/// An atom.
fn atom(rule: u32, label: u32) -> Struct
    ensures { result ≡ AtomOf rule label }
{
    Struct {
        shape: Shape::Atom(rule, label),
    }
}

/// The structure of Epsilon, by the word or by a rule.
fn empty(rule: u32) -> Struct {
    Struct {
        shape: Shape::Eps(rule),
    }
}

/// A structure of a Union's argument.
fn chosen(alloc: Global, argument: u32, inside: Struct) -> Result<Struct, AllocError> {
    Ok(Struct {
        shape: Shape::Alt(argument, Box::new(alloc, inside)?),
    })
}

/// `Sequence()`.
fn no_components(alloc: Global) -> Struct {
    Struct {
        shape: Shape::Tup(Form5::Sequence, Structs::new(alloc)),
    }
}

/// `Cycle(Z[1], Z[2])`.
fn ring(alloc: Global) -> Result<Struct, AllocError>
    ensures { IfOk result (λ s. length (labels s) ≡ 2) }
{
    let mut parts = Structs::new(alloc);
    parts.push(atom(0, 1))?;
    parts.push(atom(0, 2))?;
    Ok(Struct {
        shape: Shape::Tup(Form5::Cycle, parts),
    })
}

/// `Set(Cycle(Z[1], Z[2]))`.
fn set_of_ring(alloc: Global) -> Result<Struct, AllocError> {
    let mut parts = Structs::new(alloc);
    parts.push(ring(alloc)?)?;
    Ok(Struct {
        shape: Shape::Tup(Form5::Set, parts),
    })
}

/// A structure of the rule.
fn named(alloc: Global, inside: Struct) -> Result<Struct, AllocError> {
    Ok(Struct {
        shape: Shape::Named(1, Box::new(alloc, inside)?),
    })
}

/// The structures of the table, in its order.
fn structures(alloc: Global) -> Result<Structs, AllocError> {
    let mut list = Structs::new(alloc);
    for (rule, label) in [(0, 0), (0, 12), (1, 4294967295)] {
        list.push(atom(rule, label))?;
    }
    for rule in 0..2 {
        list.push(empty(rule))?;
    }
    list.push(named(alloc, set_of_ring(alloc)?)?)?;
    list.push(no_components(alloc))?;
    list.push(chosen(alloc, 1, chosen(alloc, 12, atom(1, 7))?)?)?;
    Ok(list)
}

/// Puts a line with both texts of a structure at the end.
fn put_line(alloc: Global, spec: &Spec, s: &Struct, text: &mut Bytes) -> Result<(), AllocError> {
    maple(alloc, spec, s, text)?;
    text.push(b' ')?;
    tagged(alloc, spec, s, text)?;
    text.push(b'\n')
}

/// Puts the lines of the structures at the end.
fn put_lines(
    alloc: Global,
    spec: &Spec,
    list: &Structs,
    text: &mut Bytes,
) -> Result<(), AllocError> {
    for s in list.as_slice() {
        put_line(alloc, spec, s, text)?;
    }
    Ok(())
}

/// Each structure's text in Maple's form and its tagged text.
const TABLE: &str = "Z Z
Z[12] Z[12]
A[4294967295] A[4294967295]
Epsilon Epsilon
A A
Set(Cycle(Z[1], Z[2])) Set(Cycle(Z[1], Z[2]))
Sequence() Sequence()
A[7] 1:12:A[7]
";

#[test]
fn structures_have_these_texts(rt: HostRuntime) -> Result<(), Fail> {
    let alloc = rt.alloc();
    let spec = one_rule(alloc)?;
    let list = structures(alloc)?;
    let mut text = Bytes::new(alloc);
    put_lines(alloc, &spec, &list, &mut text)?;
    assert!(rt; text.as_slice() == TABLE.as_bytes());
    Ok(())
}
