//! Structures of given components.
ghost use Rattle.std.specs.Prelude.{◌≡◌, ◌<◌, ◌^◌, length, IfOk};
ghost use Rattle.struct_model.specs.Structure.{Alt};
ghost use Rattle.listing_laws.specs.Lister.{named};
ghost use Rattle.draw_steps.specs.Asked.{CanHold, HoldsAtoms};
ghost use Rattle.draw_steps.specs.Containers.{sorted, turned, contained, atoms};

use canon::{put_sorted, rotate_least};
use std::alloc::{AllocError, Global};
use struct_model::{Form5, Shape, Struct, Structs, copy};
use well_founded::NodeKind;

/// What rule number `sym` makes of a structure of its right side: a word takes the number, and all else is put inside.
pub fn named(alloc: Global, sym: u32, s: Struct) -> Result<Struct, AllocError>
    ensures { IfOk result (λ whole. whole ≡ named sym s) }
{
    match s.shape {
        Shape::Eps(0) => Ok(Struct {
            shape: Shape::Eps(sym),
        }),
        Shape::Atom(0, label) => Ok(Struct {
            shape: Shape::Atom(sym, label),
        }),
        Shape::Eps(_)
        | Shape::Atom(_, _)
        | Shape::Named(_, _)
        | Shape::Alt(_, _)
        | Shape::Tup(_, _) => {
            let inside = Box::new(alloc, s)?;
            Ok(Struct {
                shape: Shape::Named(sym, inside),
            })
        }
    }
}

/// The structure of a Union by this argument, counted from 1.
pub fn alternative(alloc: Global, argument: u32, s: Struct) -> Result<Struct, AllocError>
    ensures { IfOk result (λ whole. whole ≡ Alt argument s) }
{
    let _ = &s.shape;
    let inside = Box::new(alloc, s)?;
    Ok(Struct {
        shape: Shape::Alt(argument, inside),
    })
}

/// The components in their order.
fn sorted(alloc: Global, components: &[Struct]) -> Result<Structs, AllocError>
    ensures sorted { IfOk result (λ whole. whole ≡ sorted components.now) }
    ensures atoms { IfOk result (λ whole. atoms whole ≡ atoms components.now) }
{
    let mut whole = Structs::new(alloc);
    for before in (0..components.len()).rev() {
        put_sorted(&mut whole, copy(alloc, &components[before])?)?;
    }
    Ok(whole)
}

/// The least rotation of the components.
fn turned(alloc: Global, components: &Structs) -> Result<Structs, AllocError>
    requires { 0 < length components.now }
    ensures turned { IfOk result (λ whole. whole ≡ turned components.now) }
    ensures atoms { IfOk result (λ whole. atoms whole ≡ atoms components.now) }
{
    let whole = rotate_least(alloc, components)?;
    Ok(whole)
}

/// The structure of this kind that has the components.
pub fn contained(alloc: Global, kind: NodeKind, components: Structs) -> Result<Struct, AllocError>
    requires held { CanHold kind components }
    requires few { atoms components < 2 ^ 32 }
    ensures whole { IfOk result (λ whole. whole ≡ contained kind components) }
    ensures size { IfOk result (λ whole. HoldsAtoms kind (atoms components) whole) }
{
    match kind {
        NodeKind::Prod => Ok(Struct {
            shape: Shape::Tup(Form5::Prod, components),
        }),
        NodeKind::Sequence => Ok(Struct {
            shape: Shape::Tup(Form5::Sequence, components),
        }),
        NodeKind::Set => {
            let whole = sorted(alloc, components.as_slice())?;
            Ok(Struct {
                shape: Shape::Tup(Form5::Set, whole),
            })
        }
        NodeKind::PowerSet => {
            let whole = sorted(alloc, components.as_slice())?;
            Ok(Struct {
                shape: Shape::Tup(Form5::PowerSet, whole),
            })
        }
        NodeKind::Cycle => {
            let whole = turned(alloc, &components)?;
            Ok(Struct {
                shape: Shape::Tup(Form5::Cycle, whole),
            })
        }
        NodeKind::Epsilon | NodeKind::Atom | NodeKind::Rule | NodeKind::Union => Ok(Struct {
            shape: Shape::Eps(0),
        }),
    }
}
