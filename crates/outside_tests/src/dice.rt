//! The dice in memory, and what is drawn from them.
use crate::files::are_found;
use outside_core::{Dice, DiceFail};
use outside_objects::{CountingDice, MemoryDice};
use secret_core::Fresh;
use std::alloc::Global;
use std::test::Fail;

/// The next bytes of the dice.
fn next<D: Dice, const N: usize>(dice: &mut D) -> Result<[u8; N], DiceFail> {
    let mut out = [0; N];
    dice.fill(&mut out)?;
    Ok(out)
}

#[test]
fn counting_dice_count(rt: HostRuntime) -> Result<(), Fail> {
    let mut dice = CountingDice::new(rt.alloc());
    assert_eq!(rt; next(&mut dice), Ok([0, 1, 2]));
    // All but the last three of 1,048,576 bytes, whose last is 1,048,575 mod 256.
    let mut most = vec![in rt.alloc(); 0; 1_048_570]?;
    assert_eq!(rt; dice.fill(most.as_mut_slice()), Ok(()));
    assert!(rt; are_found(most.get(252..254), &[255, 0]));
    assert_eq!(rt; next::<_, 4>(&mut dice), Err(DiceFail::Failed));
    assert_eq!(rt; next(&mut dice), Ok([253, 254, 255]));
    Ok(())
}

/// Dice with two bytes, the call of this number being planned to fail.
fn two_bytes(alloc: Global, call: u64) -> Result<MemoryDice, Fail> {
    let mut dice = MemoryDice::new(alloc);
    dice.fill_with(&[9, 8])?;
    dice.fail_at(call)?;
    Ok(dice)
}

#[test]
fn memory_dice_have_the_given_bytes(rt: HostRuntime) -> Result<(), Fail> {
    let mut dice = two_bytes(rt.alloc(), 1)?;
    for answer in [
        Ok([9]),
        Err(DiceFail::Failed),
        Ok([8]),
        Err(DiceFail::Failed),
    ] {
        assert_eq!(rt; next(&mut dice), answer);
    }
    Ok(())
}

#[test]
fn dice_that_run_short_give_none(rt: HostRuntime) -> Result<(), Fail> {
    let mut dice = two_bytes(rt.alloc(), 9)?;
    assert_eq!(rt; next::<_, 3>(&mut dice), Err(DiceFail::Failed));
    assert_eq!(rt; next(&mut dice), Ok([9, 8]));
    Ok(())
}

/// The bytes of one draw.
fn drawn<D: Dice>(dice: &mut D, n: usize) -> Result<[u8; 4], DiceFail> {
    Fresh::<4>::draw(dice, n.min(4)).map(|fresh| fresh.take())
}

#[test]
fn each_draw_takes_the_next_bytes(rt: HostRuntime) {
    let mut dice = CountingDice::new(rt.alloc());
    for (n, bytes) in [(3, [0, 1, 2, 0]), (0, [0; 4]), (4, [3, 4, 5, 6])] {
        assert_eq!(rt; drawn(&mut dice, n), Ok(bytes));
    }
    let lent = Fresh::<2>::draw(&mut dice, 2).map(|fresh| *fresh.bytes());
    assert_eq!(rt; lent, Ok([7, 8]));
}

#[test]
fn dice_that_fail_are_not_asked_for_nothing(rt: HostRuntime) -> Result<(), Fail> {
    let mut dice = two_bytes(rt.alloc(), 0)?;
    let failed = Err(DiceFail::Failed);
    for (n, answer) in [
        (0, Ok([0; 4])),
        (2, failed),
        (2, Ok([9, 8, 0, 0])),
        (1, failed),
    ] {
        assert_eq!(rt; drawn(&mut dice, n), answer);
    }
    Ok(())
}
