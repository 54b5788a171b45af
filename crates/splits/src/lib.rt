//! The ways to split a supply of labels in a part and what remains, and how many there are.
//!
//! A contract sees of a walk over them the universe of the supply, and the list of those that are still to come. Of a table
//! of binomial coefficients it sees the greatest number that has a row.
#![tactic(auto)]

mod capped;
mod copies;
mod labelled;
mod laws;
mod length_walk;
mod lengths;
mod nth;
mod pascal;
mod walk;

pub use capped::{plus, times};
pub use copies::copy_supply;
pub use laws::{parts_are_counted, parts_are_listed, splits_are_listed};
pub use length_walk::{LengthWalk, remaining};
pub use nth::nth_part;
pub use pascal::Pascal;
pub use walk::PartWalk;

#[cfg(test)]
mod tests {
    use super::*;
    use std::alloc::{AllocError, Global};
    use std::test::Fail;
    use struct_model::{Labels, Supply};

    /// Puts the labels of a supply, or the number of its zeros, and a 0 at the end.
    fn tell(supply: &Supply, told: &mut Vec<u32>) -> Result<(), AllocError> {
        match supply {
            Supply::Zeros(n) => told.push(*n)?,
            Supply::Labels(labels) => told.extend_from_slice(labels.as_slice())?,
        }
        told.push(0)?;
        Ok(())
    }

    /// Each part that the walk gives and what remains.
    fn told_by_length(alloc: Global, mut walk: LengthWalk) -> Result<Vec<u32>, AllocError> {
        let mut told = Vec::new(alloc);
        for _ in 0..9 {
            if let Some((part, rest)) = walk.next(alloc)? {
                tell(&part, &mut told)?;
                tell(&rest, &mut told)?;
            }
        }
        Ok(told)
    }

    /// Each part that the walk gives and what remains.
    fn told(alloc: Global, mut walk: PartWalk) -> Result<Vec<u32>, AllocError> {
        let mut told = Vec::new(alloc);
        for _ in 0..8 {
            if let Some((part, rest)) = walk.next(alloc)? {
                tell(&part, &mut told)?;
                tell(&rest, &mut told)?;
            }
        }
        Ok(told)
    }

    #[test]
    fn from_the_first_part(rt: HostRuntime) -> Result<(), Fail> {
        let alloc = rt.alloc();
        let supply = Supply::Labels(Labels::from_slice(alloc, [2, 5, 7].as_slice())?);
        let one_or_two = told(alloc, PartWalk::first(alloc, supply, 1, 2)?)?;
        assert_eq!(rt;
            one_or_two.as_slice(),
            [
                2, 0, 5, 7, 0, 2, 5, 0, 7, 0, 2, 7, 0, 5, 0, 5, 0, 2, 7, 0, 5, 7, 0, 2, 0, 7, 0, 2,
                5, 0
            ]
            .as_slice()
        );
        let zeros = told(alloc, PartWalk::first(alloc, Supply::Zeros(3), 1, 9)?)?;
        assert_eq!(rt;
            zeros.as_slice(),
            [1, 0, 2, 0, 2, 0, 1, 0, 3, 0, 0, 0].as_slice()
        );
        let supply = Supply::Labels(Labels::new(alloc));
        let no_labels = told(alloc, PartWalk::first(alloc, supply, 0, 9)?)?;
        assert_eq!(rt; no_labels.as_slice(), [0, 0].as_slice());
        let crossed = told(alloc, PartWalk::first(alloc, Supply::Zeros(5), 3, 2)?)?;
        assert!(rt; crossed.is_empty());
        Ok(())
    }

    #[test]
    fn after_a_part(rt: HostRuntime) -> Result<(), Fail> {
        let alloc = rt.alloc();
        let zeros = PartWalk::after(alloc, Supply::Zeros(4), 0, 3, &Supply::Zeros(2))?;
        let zeros = told(alloc, zeros)?;
        assert_eq!(rt; zeros.as_slice(), [3, 0, 1, 0].as_slice());
        let supply = Supply::Labels(Labels::from_slice(alloc, [1, 2, 3, 4].as_slice())?);
        let part = Supply::Labels(Labels::from_slice(alloc, [1, 4].as_slice())?);
        let pairs = told(alloc, PartWalk::after(alloc, supply, 2, 2, &part)?)?;
        assert_eq!(rt;
            pairs.as_slice(),
            [2, 3, 0, 1, 4, 0, 2, 4, 0, 1, 3, 0, 3, 4, 0, 1, 2, 0].as_slice()
        );
        Ok(())
    }

    #[test]
    fn lengths_with_gaps(rt: HostRuntime) -> Result<(), Fail> {
        let alloc = rt.alloc();
        let lengths = Vec::from_slice(alloc, [false, true, false, true].as_slice())?;
        let zeros = told_by_length(alloc, LengthWalk::first(alloc, Supply::Zeros(4), lengths)?)?;
        assert_eq!(rt; zeros.as_slice(), [1, 0, 3, 0, 3, 0, 1, 0].as_slice());
        let supply = Supply::Labels(Labels::from_slice(alloc, [1, 2, 3, 4].as_slice())?);
        let copied = copy_supply(alloc, &supply)?;
        let lengths = Vec::from_slice(alloc, [false, true, false, true].as_slice())?;
        let labels = told_by_length(alloc, LengthWalk::first(alloc, supply, lengths)?)?;
        assert_eq!(rt;
            labels.as_slice(),
            [
                1, 0, 2, 3, 4, 0, 1, 2, 3, 0, 4, 0, 1, 2, 4, 0, 3, 0, 1, 3, 4, 0, 2, 0, 2, 0, 1, 3,
                4, 0, 2, 3, 4, 0, 1, 0, 3, 0, 1, 2, 4, 0, 4, 0, 1, 2, 3, 0
            ]
            .as_slice()
        );
        let part = Supply::Labels(Labels::from_slice(alloc, [2, 4].as_slice())?);
        let lengths = Vec::from_slice(alloc, [true, false, true].as_slice())?;
        let later = told_by_length(alloc, LengthWalk::after(alloc, copied, lengths, &part)?)?;
        assert_eq!(rt; later.as_slice(), [3, 4, 0, 1, 2, 0].as_slice());
        Ok(())
    }

    #[test]
    fn parts_by_number(rt: HostRuntime) -> Result<(), Fail> {
        let alloc = rt.alloc();
        let pascal = Pascal::new(alloc, 5)?;
        let supply = Supply::Labels(Labels::from_slice(alloc, [1, 2, 5, 7, 8].as_slice())?);
        let mut found = Vec::new(alloc);
        let (part, rest) = nth_part(alloc, &pascal, &supply, 2, 0)?;
        tell(&part, &mut found)?;
        tell(&rest, &mut found)?;
        let (part, rest) = nth_part(alloc, &pascal, &supply, 2, 4)?;
        tell(&part, &mut found)?;
        tell(&rest, &mut found)?;
        let (part, rest) = nth_part(alloc, &pascal, &supply, 2, 9)?;
        tell(&part, &mut found)?;
        tell(&rest, &mut found)?;
        let (part, rest) = nth_part(alloc, &pascal, &Supply::Zeros(3), 1, 0)?;
        tell(&part, &mut found)?;
        tell(&rest, &mut found)?;
        assert_eq!(rt;
            found.as_slice(),
            [
                1, 2, 0, 5, 7, 8, 0, 2, 5, 0, 1, 7, 8, 0, 7, 8, 0, 1, 2, 5, 0, 1, 0, 2, 0
            ]
            .as_slice()
        );
        Ok(())
    }

    #[test]
    fn coefficients(rt: HostRuntime) -> Result<(), Fail> {
        let pascal = Pascal::new(rt.alloc(), 200)?;
        assert_eq!(rt; pascal.choose(0, 0), Some(1));
        assert_eq!(rt; pascal.choose(10, 0), Some(1));
        assert_eq!(rt; pascal.choose(10, 3), Some(120));
        assert_eq!(rt; pascal.choose(10, 10), Some(1));
        assert_eq!(rt; pascal.choose(200, 2), Some(19900));
        assert_eq!(rt; pascal.choose(200, 100), None);
        Ok(())
    }

    #[test]
    fn capped_numbers(rt: HostRuntime) -> Result<(), Fail> {
        let most = Some(u128::MAX);
        assert_eq!(rt; plus(Some(2), Some(3)), Some(5));
        assert_eq!(rt; plus(most, Some(1)), None);
        assert_eq!(rt; plus(None, Some(0)), None);
        assert_eq!(rt; times(Some(6), Some(7)), Some(42));
        assert_eq!(rt; times(most, Some(2)), None);
        assert_eq!(rt; times(None, Some(0)), Some(0));
        assert_eq!(rt; times(None, Some(1)), None);
        Ok(())
    }

    #[test]
    fn the_laws(_rt: HostRuntime) -> Result<(), Fail> {
        splits_are_listed();
        parts_are_listed();
        parts_are_counted();
        Ok(())
    }
}
