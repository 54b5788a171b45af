//! Binomial coefficients, sums of products over the ways to share out labels, and the numbers of sets, powersets and cycles:
//! definitions and lemmas, and no code.
//!
//! Each law is what a function with an empty body ensures.
#![tactic(auto)]

ghost use Rattle.count_laws.specs.Laws.{LabelledComponents, MultisetsAreCounted, MultisetsAreMet, OrdersTell, SubsetsAreCounted, SubsetsAreMet};
ghost use Rattle.count_laws.specs.SortedLists.{SortedListsAreListed};

/// A labelled set of c components is met c times by a component and a set of the others, and a labelled cycle of c
/// components c times by a list.
pub fn labelled_components_are_met()
    ensures { LabelledComponents }
{}

/// Elements that ascend in a total order ascend by its test, and an element avoids exactly the lists that it is not in.
pub fn orders_tell<X>()
    ensures { OrdersTell X }
{}

/// Each multiset of c elements is met exactly c times by an element, put in from once to c times, and a multiset of the
/// others.
pub fn multisets_are_met<X>()
    ensures { MultisetsAreMet X }
{}

/// Each list of c elements without repeats is met exactly c times by an element and a list of the others that avoids it.
pub fn subsets_are_met<X>()
    ensures { SubsetsAreMet X }
{}

/// Of ascending elements, the lists with so many elements and this total size in which no element stands before the one in
/// front of it, and those in which each stands after it, are the multisets and the subsets, in the lexicographic order.
pub fn sorted_lists_are_listed<X>()
    ensures { SortedListsAreListed X }
{}

/// The number of multisets of c elements, times c, by the numbers of those of fewer elements. Elements that are larger than
/// the total size do not matter.
pub fn multisets_are_counted<X>()
    ensures { MultisetsAreCounted X }
{}

/// The number of lists of c elements without repeats, times c, by the numbers of those of fewer elements, and the number of
/// those that avoid an element. Elements that are larger than the total size do not matter.
pub fn subsets_are_counted<X>()
    ensures { SubsetsAreCounted X }
{}

#[cfg(test)]
mod tests {
    use super::*;
    use std::test::Fail;

    #[test]
    fn the_laws(_rt: HostRuntime) -> Result<(), Fail> {
        labelled_components_are_met();
        orders_tell::<u8>();
        multisets_are_met::<u8>();
        subsets_are_met::<u8>();
        sorted_lists_are_listed::<u64>();
        multisets_are_counted::<u8>();
        subsets_are_counted::<u8>();
        Ok(())
    }
}
