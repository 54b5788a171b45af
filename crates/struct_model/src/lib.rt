//! Structures: the derivations that a grammar's expressions have, their order and their labels.
//!
//! A contract sees a structure as a plain tree.
#![tactic(auto)]

mod comparison;
mod keys;
mod laws;
mod supplies;
mod tree;

pub use comparison::compare;
pub use laws::{list_order_is_total, listing_is_unique, order_goes_inside, order_is_total};
use seq::Seq;
pub use supplies::Supply;
pub use tree::{Form5, Shape, Struct, copy, labels, size};

/// A list of structures.
pub type Structs = Seq<Struct>;

/// A list of labels.
pub type Labels = Seq<u32>;

#[cfg(test)]
mod tests {
    use super::*;
    use spec_syntax::Universe;
    use std::cmp::Ordering;
    use std::test::Fail;

    #[test]
    fn a_list_of_four(rt: HostRuntime) -> Result<(), Fail> {
        let mut parts = Structs::new(rt.alloc());
        parts.push(Struct {
            shape: Shape::Atom(0, 3),
        })?;
        parts.push(Struct {
            shape: Shape::Eps(2),
        })?;
        let atom = Struct {
            shape: Shape::Atom(1, 1),
        };
        parts.push(Struct {
            shape: Shape::Named(4, Box::new(rt.alloc(), atom)?),
        })?;
        let atom = Struct {
            shape: Shape::Atom(0, 3),
        };
        parts.push(Struct {
            shape: Shape::Alt(1, Box::new(rt.alloc(), atom)?),
        })?;
        let list = Struct {
            shape: Shape::Tup(Form5::Set, parts),
        };
        assert_eq!(rt; size(&list), 3);
        let found = labels(rt.alloc(), &list)?;
        assert_eq!(rt; found.as_slice(), [3, 1, 3].as_slice());
        let copied = copy(rt.alloc(), &list)?;
        assert!(rt; compare(&list, &copied) == Ordering::Equal);
        let named = Struct {
            shape: Shape::Named(1, Box::new(rt.alloc(), copied)?),
        };
        assert!(rt; compare(&named, &list) == Ordering::Less);
        let atom = Struct {
            shape: Shape::Atom(7, 2),
        };
        assert!(rt; compare(&atom, &list) == Ordering::Greater);
        Ok(())
    }

    #[test]
    fn supplies_of_a_size(rt: HostRuntime) -> Result<(), Fail> {
        let zeros = Supply::whole(rt.alloc(), Universe::Unlabelled, 4)?;
        assert!(rt; zeros == Supply::Zeros(4));
        assert_eq!(rt; zeros.len(), 4);
        let labelled = Supply::whole(rt.alloc(), Universe::Labelled, 3)?;
        let ascending = Labels::from_slice(rt.alloc(), [1, 2, 3].as_slice())?;
        assert!(rt; labelled == Supply::Labels(ascending));
        assert_eq!(rt; labelled.len(), 3);
        Ok(())
    }

    #[test]
    fn the_laws(_rt: HostRuntime) -> Result<(), Fail> {
        order_is_total();
        order_goes_inside();
        list_order_is_total();
        listing_is_unique();
        Ok(())
    }
}
