//! Choices by weights, what bits choose, and the shares of what is reached: definitions and lemmas, and no code.
//!
//! Each law is what a function with an empty body ensures.
#![tactic(auto)]

ghost use Rattle.choice_laws.specs.Laws.{BitsEndWithinAStep, BlocksWriteValues, ChoicesAreEven, EvenInstead, EvenSharesAreEqual, FirstBlockIsPicked, GraftsAreEven, GraftsAreFollowed, GraftsHaveMeans, MoreBitsAreLeft};

/// The mean of what is told of the ends of a grafted tree is the mean, over the first tree, of the means that follow its ends.
/// So the share in a grafted tree is the sum over the ends of the first tree.
pub fn grafts_have_means<X, Y>()
    ensures { GraftsHaveMeans X Y }
{}

/// Bits lead through a grafted tree as through the first tree and then through what follows its end.
pub fn grafts_are_followed<X, Y>()
    ensures { GraftsAreFollowed X Y }
{}

/// The choice of one of some trees, each even over a list, is even over all the lists, where the weights are as the lengths.
pub fn choices_are_even<I, X>()
    ensures { ChoicesAreEven I X }
{}

/// A tree that is even over a list, with trees grafted that are even over lists of one length, is even over all of these.
pub fn grafts_are_even<X, Y>()
    ensures { GraftsAreEven X Y }
{}

/// A tree that is even over a list which has each element of another one so many times is even over that one.
pub fn even_instead<X>()
    ensures { EvenInstead X }
{}

/// In a tree that is even over a list each element that the list has once has the same share, one of as many as there are.
pub fn even_shares_are_equal<X>()
    ensures { EvenSharesAreEqual X }
{}

/// Each value below a bound is the value of exactly one block of bits, and no shorter blocks would do.
pub fn blocks_write_values()
    ensures { BlocksWriteValues }
{}

/// The first block whose value is below the bound is the one that is picked.
pub fn first_block_is_picked()
    ensures { FirstBlockIsPicked }
{}

/// Bits behind those that lead to an end change nothing.
pub fn more_bits_are_left<X>()
    ensures { MoreBitsAreLeft X }
{}

/// Where the bits lead to no end of a tree in which every way goes on to one, some more bits lead there.
pub fn bits_end_within_a_step<X>()
    ensures { BitsEndWithinAStep X }
{}

#[cfg(test)]
mod tests {
    use super::*;
    use std::test::Fail;

    #[test]
    fn the_laws(_rt: HostRuntime) -> Result<(), Fail> {
        grafts_have_means::<u8, u64>();
        grafts_are_followed::<u8, u64>();
        choices_are_even::<u8, u64>();
        grafts_are_even::<u8, u64>();
        even_instead::<u64>();
        even_shares_are_equal::<u64>();
        blocks_write_values();
        first_block_is_picked();
        more_bits_are_left::<u64>();
        bits_end_within_a_step::<u64>();
        Ok(())
    }
}
