//! The lists of components that are drawn one after another.

/// Which components are still missing of a list.
#[derive(Clone, Copy)]
pub enum Lists {
    /// The last components of the Prod that is this node.
    Components(u32),
    /// So many elements of the Sequence or the Cycle that is this node, over this element.
    Elements(u32, u32),
    /// So many elements of the labelled Set or PowerSet that is this node, over this element, in any order.
    Members(u32, u32),
}
