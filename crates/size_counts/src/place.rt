//! Where a number of a class stands, and why there are no numbers.
ghost use Rattle.std.specs.Prelude.{◌≡◌};
ghost use Rattle.size_counts.specs.declared.place.CountFault.TheVariants.{Memory};

use std::alloc::AllocError;

/// What a number of a node counts.
#[derive(Clone, Copy, PartialEq, Eq, Debug)]
pub enum Group {
    /// The structures of the node.
    Count,
    /// The lists of structures of a Prod's arguments, from the one with the index on, which is 2 or more.
    Suffix,
    /// The lists of so many components, of a Sequence or a Cycle.
    Lists,
    /// So many times the containers of so many components, of a Set or a PowerSet.
    Sets,
}

/// Where a number of a class stands.
#[derive(Clone, Copy, PartialEq, Eq, Debug)]
pub struct Place {
    /// The number of the node's rule, counted from 1.
    pub rule: u32,
    /// The node's place among the expressions of the rule's right side in preorder, counted from 1.
    pub node: u32,
    pub group: Group,
    /// The number of the argument that a suffix begins with, or the number of components; 0 of a count.
    pub index: u32,
    pub size: u32,
}

/// Why there are no numbers.
#[derive(Debug, Drop)]
pub enum CountFault {
    /// This is the first number, by size, node, group and index, that is above 2^128 - 1.
    TooLarge(Place),
    /// Memory is wanting.
    Memory,
}

impl From<AllocError> for CountFault {
    ghost from_gives = { λ _ fault. fault ≡ Memory };

    fn from(_: AllocError) -> CountFault {
        CountFault::Memory
    }
}
