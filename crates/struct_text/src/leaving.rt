//! Steps behind a structure.
ghost use Rattle.std.specs.Prelude.{◌≡◌, ◌+◌, ◌<◌, ◌^◌, ◌∷◌, length, IfOk};
ghost use Rattle.struct_model.specs.Structure.{labels, Named as NamedBy, Alt as Alternative};
ghost use Rattle.struct_text.specs.declared.holes.Hole.TheVariants as hole;
ghost use Rattle.struct_text.specs.Reading.{atoms_in, IsHole, AreHoles, Ends, behind};

use crate::holes::{Hole, Place};
use crate::lexing::Left;
use crate::reading::TextFault;
use crate::stack::Stack;
use std::alloc::{AllocError, Global};
use struct_model::{Form5, Shape, Struct, Structs};
use well_founded::Grammar;

/// The structure of rule number `sym` around that of its right side.
fn named(alloc: Global, sym: u32, inside: Struct) -> Result<Struct, AllocError>
    ensures { IfOk result (λ s. s ≡ NamedBy sym inside) }
{
    let _ = &inside.shape;
    let inside = Box::new(alloc, inside)?;
    Ok(Struct {
        shape: Shape::Named(sym, inside),
    })
}

/// The structure of a Union around that of its argument of this number.
fn chosen(alloc: Global, number: u32, inside: Struct) -> Result<Struct, AllocError>
    ensures { IfOk result (λ s. s ≡ Alternative number inside) }
{
    let _ = &inside.shape;
    let inside = Box::new(alloc, inside)?;
    Ok(Struct {
        shape: Shape::Alt(number, inside),
    })
}

/// The place behind a component of a Prod: in front of the next one, or behind the Prod.
fn leave_factor(
    grammar: &Grammar,
    node: u32,
    mut parts: Structs,
    s: Struct,
    holes: &mut Stack<Hole>,
    left: &mut Left<'_>,
) -> Result<Place, TextFault>
    requires hole { IsHole grammar.now (hole.Factor node parts) }
    requires holes { AreHoles grammar.now holes.old }
    requires room { length (labels s) + atoms_in (hole.Factor node parts ∷ holes.old) + length left.old < 2 ^ 32 }
    ensures { Ends grammar.now (behind grammar.now (hole.Factor node parts) holes.old s left.old) result holes.new left.new }
{
    let _ = grammar.nodes();
    let all = grammar.children(node);
    parts.push(s)?;
    let count = parts.len() as u32;
    if count == all {
        if !left.take(b")") {
            return Err(TextFault::NotStructure);
        }
        return Ok(Place::Behind(Struct {
            shape: Shape::Tup(Form5::Prod, parts),
        }));
    }
    let next = grammar.child(node, count + 1);
    if !left.take(b", ") {
        return Err(TextFault::NotStructure);
    }
    holes.push(Hole::Factor(node, parts))?;
    Ok(Place::Before(next))
}

/// The place behind a component of a container: in front of the next one, or behind the container.
fn leave_element(
    grammar: &Grammar,
    form: Form5,
    node: u32,
    mut parts: Structs,
    s: Struct,
    holes: &mut Stack<Hole>,
    left: &mut Left<'_>,
) -> Result<Place, TextFault>
    requires hole { IsHole grammar.now (hole.Element form node parts) }
    requires holes { AreHoles grammar.now holes.old }
    requires room { length (labels s) + atoms_in (hole.Element form node parts ∷ holes.old) + length left.old < 2 ^ 32 }
    ensures { Ends grammar.now (behind grammar.now (hole.Element form node parts) holes.old s left.old) result holes.new left.new }
{
    let _ = grammar.nodes();
    parts.push(s)?;
    if left.take(b")") {
        return Ok(Place::Behind(Struct {
            shape: Shape::Tup(form, parts),
        }));
    }
    if !left.take(b", ") {
        return Err(TextFault::NotStructure);
    }
    holes.push(Hole::Element(form, node, parts))?;
    Ok(Place::Before(node))
}

/// A step behind the structure in this hole.
pub(crate) fn leave(
    alloc: Global,
    grammar: &Grammar,
    hole: Hole,
    s: Struct,
    holes: &mut Stack<Hole>,
    left: &mut Left<'_>,
) -> Result<Place, TextFault>
    requires hole { IsHole grammar.now hole }
    requires holes { AreHoles grammar.now holes.old }
    requires room { length (labels s) + atoms_in (hole ∷ holes.old) + length left.old < 2 ^ 32 }
    ensures { Ends grammar.now (behind grammar.now hole holes.old s left.old) result holes.new left.new }
{
    let _ = grammar.nodes();
    match hole {
        Hole::Named(sym) => Ok(Place::Behind(named(alloc, sym, s)?)),
        Hole::Alt(number) => Ok(Place::Behind(chosen(alloc, number, s)?)),
        Hole::Factor(node, parts) => leave_factor(grammar, node, parts, s, holes, left),
        Hole::Element(form, node, parts) => {
            leave_element(grammar, form, node, parts, s, holes, left)
        }
    }
}
