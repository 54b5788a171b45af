//! What comes later than a structure, among those of a node with the labels of a supply.

use crate::sorted_tail::SortedLevel;
use crate::split_walk::SplitWalk;
use crate::tail::Cut;
use struct_model::Supply;

/// What comes later than a structure that is held beside it, in so far as it isn't told by the structure. Beside a structure
/// of a rule stands what comes later inside.
#[cycle(later)]
#[derive(Drop)]
pub enum Later {
    /// Nothing.
    Nothing,
    /// What comes later in an argument of the Union that is this node, and then the arguments behind it, with these labels.
    Argument(u32, Supply, Box<Later>),
    /// What comes later in a list of components.
    Components(Box<LaterLists>),
    /// What comes later in the sorted components of a Set or a PowerSet without labels.
    Sorted(Box<LaterSorted>),
}

/// What comes later than a list of components, from one of them on.
#[cycle(later)]
#[derive(Drop)]
pub enum LaterLists {
    /// Nothing.
    Nothing,
    /// What comes later in the last component, which has all labels.
    Last(Later),
    /// What comes later behind this component, then with later ones in its place on the same split of the labels, and then
    /// with those on the splits that come.
    Parts(Box<Level>, Later, Box<LaterLists>),
}

/// What comes later than the sorted components of a Set or a PowerSet without labels, from one of them on.
#[cycle(later)]
#[derive(Drop)]
pub enum LaterSorted {
    /// Nothing, and no component stands there.
    Nothing,
    /// What comes later behind this component, then with later ones of its size in its place, and then with greater ones.
    Level(SortedLevel, Later, Box<LaterSorted>),
}

/// Where a component stands: its node and what stands behind it, the labels that its split leaves for that, and the splits to
/// come.
#[derive(Drop)]
pub struct Level {
    pub(crate) cut: Cut,
    /// The labels of the components behind this one.
    pub(crate) rest: Supply,
    pub(crate) splits: SplitWalk,
}
