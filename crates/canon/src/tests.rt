//! Each call once, on lists of atoms.
use super::*;
use std::alloc::{AllocError, Global};
use std::test::Fail;
use struct_model::{Shape, Struct, Structs, compare};

/// Atoms of these rules, without labels.
fn atoms(alloc: Global, rules: &[u32]) -> Result<Structs, AllocError> {
    let mut list = Structs::new(alloc);
    for rule in rules {
        list.push(Struct {
            shape: Shape::Atom(*rule, 0),
        })?;
    }
    Ok(list)
}

/// Whether these lists are equal.
fn are_equal(list: &Structs, other: &Structs) -> bool {
    list.len() == other.len()
        && list
            .as_slice()
            .iter()
            .zip(other.as_slice())
            .all(|(s, t)| compare(s, t).is_eq())
}

#[test]
fn an_atom_goes_into_a_sorted_list(rt: HostRuntime) -> Result<(), Fail> {
    let mut list = Structs::new(rt.alloc());
    put_sorted(
        &mut list,
        Struct {
            shape: Shape::Atom(4, 0),
        },
    )?;
    put_sorted(
        &mut list,
        Struct {
            shape: Shape::Atom(1, 0),
        },
    )?;
    assert!(rt; are_equal(&list, &atoms(rt.alloc(), [1, 4].as_slice())?));
    Ok(())
}

#[test]
fn the_first_of_two_least_rotations(rt: HostRuntime) -> Result<(), Fail> {
    let list = atoms(rt.alloc(), [3, 1, 2, 3, 1, 2].as_slice())?;
    assert_eq!(rt; list.len(), 6);
    assert_eq!(rt; least_rotation(list.as_slice()), 1);
    assert!(rt; !is_least(list.as_slice()));
    let turned = rotate_least(rt.alloc(), &list)?;
    assert!(rt; are_equal(&turned, &atoms(rt.alloc(), [1, 2, 3, 1, 2, 3].as_slice())?));
    assert!(rt; is_least(turned.as_slice()));
    Ok(())
}
