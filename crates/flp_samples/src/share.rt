//! Shares that were worked out by hand. A word -1 is written as p - 1.
use crate::words::words;
use flp_field::{Fe, MODULUS};
use flp_share::{split, unshare};
use std::test::Fail;

#[test]
fn three_shares_of_a_word(rt: HostRuntime) -> Result<(), Fail> {
    let mut shares = [Fe::ONE; 3];
    split(&words([5])?, &words([7, 9])?, 3, &mut shares);
    assert_eq!(rt; shares, words([MODULUS - 11, 7, 9])?);
    Ok(())
}

/// 5 - 7 - 9 = -11, and 20 - (-1) - 3 = 18.
#[test]
fn three_shares_of_two_words(rt: HostRuntime) -> Result<(), Fail> {
    let mut shares = [Fe::ONE; 6];
    let others = words([7, MODULUS - 1, 9, 3])?;
    split(&words([5, 20])?, &others, 3, &mut shares);
    assert_eq!(rt; shares, words([MODULUS - 11, 18, 7, MODULUS - 1, 9, 3])?);
    Ok(())
}

#[test]
fn the_sum_of_three_shares(rt: HostRuntime) -> Result<(), Fail> {
    let mut sum = [Fe::ONE; 2];
    let shares = words([MODULUS - 11, 18, 7, MODULUS - 1, 9, 3])?;
    unshare(&shares, 3, &mut sum);
    assert_eq!(rt; sum, words([5, 20])?);
    Ok(())
}

#[test]
fn no_shares_have_the_sum_0(rt: HostRuntime) {
    let mut sum = [Fe::ONE; 2];
    unshare(&[], 0, &mut sum);
    assert_eq!(rt; sum, [Fe::ZERO; 2]);
}
