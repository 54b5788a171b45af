//! Structures as trees.
ghost use Rattle.std.specs.Prelude.{◌≡◌, ◌<◌, ◌^◌, ◌++◌, length, IfOk, OnOk};
ghost use Rattle.struct_model.specs.Structure.{size, labels, labels_of_parts, parts_of};

use crate::{Labels, Structs};
use std::alloc::{AllocError, Global};
use std::marker::Model;

/// What a list of components is of.
#[derive(Clone, Copy, PartialEq, Eq, Debug)]
pub enum Form5 {
    Prod,
    Sequence,
    Set,
    PowerSet,
    Cycle,
}

/// What a structure is, with its parts.
///
/// The rule number is that of the rule, counted from 1, and 0 where the bare word stands. The label is 0 for an
/// unlabelled atom.
#[cycle(tree)]
#[derive(Drop)]
pub enum Shape {
    /// The structure of Epsilon, with the rule's number.
    Eps(u32),
    /// An atom, with the rule's number and the label.
    Atom(u32, u32),
    /// A structure of the rule of this number, which isn't a bare word.
    Named(u32, Box<Struct>),
    /// A structure of a Union's argument of this number, counted from 1.
    Alt(u32, Box<Struct>),
    /// Components of a product or a container.
    Tup(Form5, Structs),
}

/// A structure of an expression, with fewer than 2^32 atoms. A contract sees it as a plain tree.
#[cycle(tree)]
#[derive(Drop)]
pub struct Struct {
    pub shape: Shape,
}

impl Model for Struct {
    ghost use Rattle.std.specs.Prelude.{◌<◌, ◌^◌};
    ghost use Rattle.struct_model.specs.Structure.{Structure, nodes, size as atom_count};
    ghost use Rattle.struct_model.specs.StructureCode.{structure_code};

    ghost Value = { Structure };

    ghost coded = { structure_code };

    ghost use Rattle.struct_model.specs.StructureView.{structure_of};

    ghost view = { λ a. structure_of a.shape };

    ghost invariant = { λ a. atom_count (structure_of a.shape) < 2 ^ 32 };

    ghost size = { nodes };

    ghost use Rattle.struct_model.specs.StructureFalls.{deep-shape_le};

    ghost size_decreases = { λ a h. deep-shape_le a.shape };
}

/// The number of atoms of `s`. It takes no memory.
#[cycle(counting)]
pub fn size(s: &Struct) -> u32
    ensures { result ≡ size s.now }
{
    match &s.shape {
        Shape::Eps(_) => 0,
        Shape::Atom(_, _) => 1,
        Shape::Named(_, inside) => size(inside),
        Shape::Alt(_, inside) => size(inside),
        Shape::Tup(_, parts) => size_of_parts(parts),
    }
}

/// The number of atoms of all the parts.
#[cycle(counting)]
#[tactic(auto, using(crate::proofs::Parts::nodes_of_part))]
fn size_of_parts(parts: &Structs) -> u32
    requires { length (labels_of_parts (parts_of parts.now)) < 2 ^ 32 }
    ensures { result ≡ length (labels_of_parts (parts_of parts.now)) }
{
    let mut total = 0;
    for part in parts.as_slice() {
        total += size(part);
    }
    total
}

/// A structure that is equal to `s`.
///
/// # Errors
///
/// Memory may be wanting.
#[cycle(copying)]
pub fn copy(alloc: Global, s: &Struct) -> Result<Struct, AllocError>
    ensures { IfOk result (λ copied. copied ≡ s.now) }
{
    match &s.shape {
        Shape::Eps(rule) => Ok(Struct {
            shape: Shape::Eps(*rule),
        }),
        Shape::Atom(rule, label) => Ok(Struct {
            shape: Shape::Atom(*rule, *label),
        }),
        Shape::Named(rule, inside) => {
            let inside = copy(alloc, inside)?;
            let inside = Box::new(alloc, inside)?;
            Ok(Struct {
                shape: Shape::Named(*rule, inside),
            })
        }
        Shape::Alt(argument, inside) => {
            let inside = copy(alloc, inside)?;
            let inside = Box::new(alloc, inside)?;
            Ok(Struct {
                shape: Shape::Alt(*argument, inside),
            })
        }
        Shape::Tup(form, parts) => {
            let parts = copy_parts(alloc, parts)?;
            Ok(Struct {
                shape: Shape::Tup(*form, parts),
            })
        }
    }
}

/// A list of structures that is equal to `parts`.
#[cycle(copying)]
#[tactic(auto, using(crate::proofs::Parts::nodes_of_part))]
fn copy_parts(alloc: Global, parts: &Structs) -> Result<Structs, AllocError>
    ensures { IfOk result (λ copied. copied ≡ parts.now) }
{
    let mut copied = Structs::new(alloc);
    for part in parts.as_slice() {
        copied.push(copy(alloc, part)?)?;
    }
    Ok(copied)
}

/// The labels of the atoms of `s` from left to right. They may repeat and needn't ascend.
///
/// # Errors
///
/// Memory may be wanting.
pub fn labels(alloc: Global, s: &Struct) -> Result<Labels, AllocError>
    ensures { IfOk result (λ found. found ≡ labels s.now) }
{
    let mut found = Labels::new(alloc);
    push_labels(s, &mut found)?;
    Ok(found)
}

/// Puts the labels of the atoms of `s` at the end of `found`, from left to right.
#[cycle(labelling)]
fn push_labels(s: &Struct, found: &mut Labels) -> Result<(), AllocError>
    ensures { OnOk result (found.new ≡ found.old ++ labels s.now) }
{
    match &s.shape {
        Shape::Eps(_) => Ok(()),
        Shape::Atom(_, label) => found.push(*label),
        Shape::Named(_, inside) => push_labels(inside, found),
        Shape::Alt(_, inside) => push_labels(inside, found),
        Shape::Tup(_, parts) => push_labels_of_parts(parts, found),
    }
}

/// The same for all the parts from the left.
#[cycle(labelling)]
#[tactic(auto, using(crate::proofs::Parts::nodes_of_part))]
fn push_labels_of_parts(parts: &Structs, found: &mut Labels) -> Result<(), AllocError>
    ensures { OnOk result (found.new ≡ found.old ++ labels_of_parts (parts_of parts.now)) }
{
    for part in parts.as_slice() {
        push_labels(part, found)?;
    }
    Ok(())
}
