//! The order of structures.
ghost use Rattle.std.specs.Prelude.{◌≡◌, ◌↔◌};
ghost use Rattle.struct_model.specs.Structure.{parts_of};
ghost use Rattle.struct_model.specs.Order.{form_rank, rank, order, order_within, order_of_parts};

use crate::keys::compare_keys;
use crate::{Form5, Shape, Struct, Structs};
use std::cmp::Ordering;

/// The place of a form among the forms.
fn form_rank(form: Form5) -> u8
    ensures { result ≡ form_rank form }
{
    match form {
        Form5::Prod => 0,
        Form5::Sequence => 1,
        Form5::Set => 2,
        Form5::PowerSet => 3,
        Form5::Cycle => 4,
    }
}

/// The place of the constructor of `s` among the constructors.
fn rank(s: &Struct) -> u8
    ensures { result ≡ rank s.now }
{
    match &s.shape {
        Shape::Eps(_) => 0,
        Shape::Atom(_, _) => 1,
        Shape::Named(_, _) => 2,
        Shape::Alt(_, _) => 3,
        Shape::Tup(_, _) => 4,
    }
}

/// The order of structures, Equal exactly where they are equal: by the key, which is the labels in ascending order, then
/// by the constructor, then by the number, and then by what stands inside; lists by their form, and then by their
/// components from the left. A prefix comes first. It takes no memory.
#[cycle(comparing)]
pub fn compare(s: &Struct, t: &Struct) -> Ordering
    ensures order { result ≡ order s.now t.now }
    ensures equal { (result ≡ Ordering.Equal) ↔ (s.now ≡ t.now) }
{
    match compare_keys(s, t) {
        Ordering::Equal => compare_within(s, t),
        difference => difference,
    }
}

/// The order of two structures with one key.
#[cycle(comparing)]
fn compare_within(s: &Struct, t: &Struct) -> Ordering
    ensures { result ≡ order_within s.now t.now }
{
    match (&s.shape, &t.shape) {
        (Shape::Eps(x), Shape::Eps(y)) => x.cmp(y),
        (Shape::Atom(x, _), Shape::Atom(y, _)) => x.cmp(y),
        (Shape::Named(x, inside), Shape::Named(y, other)) => match x.cmp(y) {
            Ordering::Equal => compare_within(inside, other),
            difference => difference,
        },
        (Shape::Alt(x, inside), Shape::Alt(y, other)) => match x.cmp(y) {
            Ordering::Equal => compare_within(inside, other),
            difference => difference,
        },
        (Shape::Tup(form, parts), Shape::Tup(other, others)) => {
            match form_rank(*form).cmp(&form_rank(*other)) {
                Ordering::Equal => compare_parts(parts, others),
                difference => difference,
            }
        }
        (
            Shape::Eps(_)
            | Shape::Atom(_, _)
            | Shape::Named(_, _)
            | Shape::Alt(_, _)
            | Shape::Tup(_, _),
            _,
        ) => rank(s).cmp(&rank(t)),
    }
}

/// The order of components from the left, a prefix first.
#[cycle(comparing)]
fn compare_parts(ss: &Structs, ts: &Structs) -> Ordering
    ensures { result ≡ order_of_parts (parts_of ss.now) (parts_of ts.now) }
{
    for (s, t) in ss.as_slice().iter().zip(ts.as_slice()) {
        match compare(s, t) {
            Ordering::Equal => {}
            difference => return difference,
        }
    }
    ss.len().cmp(&ts.len())
}
