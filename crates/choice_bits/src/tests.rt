ghost use Rattle.std.specs.Prelude.{◌≤◌};

use super::*;
use std::test::Fail;

// Picks below the bound from these digits, and takes one bit more.
fn picked(rt: &HostRuntime, digits: &str, bound: u128) -> Result<(Option<u128>, Option<bool>), Fail>
    requires { 1 ≤ bound }
{
    let mut bits = HexBits::new(rt.alloc(), digits.as_bytes())?;
    Ok((pick(&mut bits, bound).ok(), bits.take()))
}

#[test]
fn blocks_pick(rt: HostRuntime) -> Result<(), Fail> {
    assert_eq!(rt; picked(&rt, "D0", 3)?, (Some(1), Some(false)));
    assert_eq!(rt; picked(&rt, "FF", 3)?, (None, None));
    assert_eq!(rt; picked(&rt, "40", 5)?, (Some(2), Some(false)));
    assert_eq!(rt; picked(&rt, "80", 1)?, (Some(0), Some(true)));
    assert_eq!(rt; picked(&rt, "", 2)?, (None, None));
    Ok(())
}

#[test]
fn digits_give_bits(rt: HostRuntime) -> Result<(), Fail> {
    assert_eq!(rt; picked(&rt, "aF", 256)?, (Some(175), None));
    assert!(rt; HexBits::new(rt.alloc(), b"0g").is_err());
    Ok(())
}

#[test]
fn the_first_word_of_key_0(rt: HostRuntime) {
    let mut bits = ChaChaBits::new(0);
    assert_eq!(rt; pick(&mut bits, 1 << 32), Ok(0xADE0_B876));
}
