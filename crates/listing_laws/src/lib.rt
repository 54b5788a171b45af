//! Equations between listings: what is listed, in which order, and that it is the listing.
//!
//! This crate has no code of the program. Each law is what a function with an empty body ensures.
#![tactic(auto)]

ghost use Rattle.listing_laws.specs.Laws.{WordsAreListed, UnionIsListed, ProdIsListed, SequenceIsListed, SuppliesAreAlike, WellFoundedIsListed, ListingsRecur, EndlessByMembers};
ghost use Rattle.listing_laws.specs.Numbers.{NumbersRecur};
ghost use Rattle.listing_laws.specs.SetListing.{UnlabelledSetsAreListed};
ghost use Rattle.listing_laws.specs.SortedListing.{SortedListingsRecur};
ghost use Rattle.listing_laws.specs.Followers.{FollowersAreListed};
ghost use Rattle.listing_laws.specs.ContainerNumbers.{ContainersAreCounted};
ghost use Rattle.listing_laws.specs.SortedNodes.{SortedNodesAreListed};
ghost use Rattle.listing_laws.specs.NodeListing.{NodesAreListed, NodesAreCounted};
ghost use Rattle.listing_laws.specs.LeastFirst.{LabelledContainersAreListed, LabelledContainersAreCounted};
ghost use Rattle.listing_laws.specs.ContainersRecur.{ContainersRecur};
ghost use Rattle.listing_laws.specs.LeastNodes.{LabelledNodesAreListed, LabelledNodesAreCounted};

/// The listing of Epsilon and of Atom is the word alone, on a supply of no label and of one, and the listing of a rule's
/// name is that of its right side, told by the rule's number.
pub fn words_are_listed()
    ensures { WordsAreListed }
{}

/// The listing of a Union is those of its arguments one after another, told by the arguments' numbers.
pub fn union_is_listed()
    ensures { UnionIsListed }
{}

/// The listing of a Prod is, split by split of the supply, by its first component and then by the listing of the others.
pub fn prod_is_listed()
    ensures { ProdIsListed }
{}

/// The listing of a Sequence, over a class without a structure of size 0, is the empty one on no label, where the bound
/// admits it, and on a label or more it is, part by part of the supply, by its first component and then by the listing of
/// the others, as many as the bound leaves.
pub fn sequence_is_listed()
    ensures { SequenceIsListed }
{}

/// What an expression lists on a supply is what it lists on the first labels of the universe, with the labels of the supply
/// in their places. So it lists as many structures on each supply of so many labels.
pub fn supplies_are_alike()
    ensures { SuppliesAreAlike }
{}

/// Where a grammar is well founded, there is exactly one listing of each name, of each expression in the rules, of the last
/// components of each Prod in them and of each container of any kind and with any bound over the element of one in them, and
/// the structures that are picked within the bounds are it.
pub fn well_founded_is_listed()
    ensures { WellFoundedIsListed }
{}

/// The listing of an expression of a well-founded grammar by the listings of the expressions inside it. A Prod goes split by
/// split of the supply, and a Sequence part by part. On each supply the listing is that on the first labels, with the
/// supply's in their places.
pub fn listings_recur()
    ensures { ListingsRecur }
{}

/// The numbers of structures of a size of a well-founded grammar by the numbers of those inside: a sum over the arguments
/// of a Union, sums of products over the sizes of a first component, with binomial coefficients in the labelled universe,
/// and over the numbers of components that the bound of a Sequence admits.
pub fn numbers_recur()
    ensures { NumbersRecur }
{}

/// The listings of a Set and a PowerSet of a well-founded grammar: the sorted lists of components, part by part of the supply,
/// by the first components that may follow the one in front, and then by the lists that go on from it.
pub fn sorted_listings_recur()
    ensures { SortedListingsRecur }
{}

/// Which components may follow a component of a Set or a PowerSet: none with a lesser key, all with a greater one, and of those
/// with the same key the ones from it on. Where nothing goes on from one component, nothing does from a later one.
pub fn followers_are_listed()
    ensures { FollowersAreListed }
{}

/// In a well-founded grammar without labels the structures of the element of a container ascend, where they are listed one
/// size after another. The Sets with so many components are the multisets of these, and the PowerSets the subsets.
pub fn unlabelled_sets_are_listed()
    ensures { UnlabelledSetsAreListed }
{}

/// In a well-founded grammar a container has the structures of each number of components that its bound admits, and none has
/// more components than atoms. Without labels there are as many Sets with so many components as multisets of the elements'
/// sizes, and as many PowerSets as subsets.
pub fn containers_are_counted()
    ensures { ContainersAreCounted }
{}

/// The listing of a node of a checked grammar on a supply, by the listings of the nodes below it, for each kind but the
/// containers other than Sequence.
pub fn nodes_are_listed()
    ensures { NodesAreListed }
{}

/// The listing of a node that is a Set or a PowerSet, by the node of its element: the sorted lists of its structures, by the
/// first component, and which ones may follow it.
pub fn sorted_nodes_are_listed()
    ensures { SortedNodesAreListed }
{}

/// The number of structures of a node of a checked grammar at a size, by the numbers of the nodes below it, for each kind
/// but the containers other than Sequence.
pub fn nodes_are_counted()
    ensures { NodesAreCounted }
{}

/// Where a grammar has none of the other faults, its check refuses a rule as endless exactly where for some class and size there
/// are, for each number, so many different members, in the grammar with each PowerSet read as Set.
pub fn endless_by_members()
    ensures { EndlessByMembers }
{}

/// In a well-founded grammar, labelled Sets, PowerSets and Cycles with any bound are listed with the component first that has
/// the least label: split by split of the other labels, then by the first component, then by the others, which are a set, or
/// a list in a Cycle.
pub fn labelled_containers_are_listed()
    ensures { LabelledContainersAreListed }
{}

/// The numbers of labelled Sets, PowerSets and Cycles of a well-founded grammar with so many components, by the component to
/// which the first label falls, and those of the Sequences of their elements.
pub fn labelled_containers_are_counted()
    ensures { LabelledContainersAreCounted }
{}

/// The numbers of Sets, PowerSets and Cycles of a well-founded grammar with so many components, by those with fewer: with
/// labels by a first component, as for Sequences, and without labels by the sizes of a component.
pub fn containers_recur()
    ensures { ContainersRecur }
{}

/// The listing of a labelled Set, PowerSet or Cycle among the nodes of a checked grammar, by that of its element.
pub fn labelled_nodes_are_listed()
    ensures { LabelledNodesAreListed }
{}

/// The numbers of structures of labelled Sets, PowerSets and Cycles among the nodes of a checked grammar, by those of their
/// elements.
pub fn labelled_nodes_are_counted()
    ensures { LabelledNodesAreCounted }
{}

#[cfg(test)]
mod tests {
    use super::*;
    use std::test::Fail;

    #[test]
    fn the_laws(_rt: HostRuntime) -> Result<(), Fail> {
        words_are_listed();
        union_is_listed();
        prod_is_listed();
        sequence_is_listed();
        supplies_are_alike();
        well_founded_is_listed();
        listings_recur();
        numbers_recur();
        sorted_listings_recur();
        followers_are_listed();
        unlabelled_sets_are_listed();
        containers_are_counted();
        nodes_are_listed();
        sorted_nodes_are_listed();
        nodes_are_counted();
        endless_by_members();
        labelled_containers_are_listed();
        labelled_containers_are_counted();
        containers_recur();
        labelled_nodes_are_listed();
        labelled_nodes_are_counted();
        Ok(())
    }
}
