//! Polynomials that were worked out by hand. A coefficient -1 is written as p - 1.
use crate::words::{word, words};
use flp_field::{Fe, MODULUS};
use flp_poly::{add, divide_root, eval, mul};
use std::test::Fail;

/// 6 - 5 x + x^2, which is (x - 2) (x - 3), and (x - 1) (x - 4) + 2.
const SQUARE: [u64; 3] = [6, MODULUS - 5, 1];

#[test]
fn values(rt: HostRuntime) -> Result<(), Fail> {
    let poly = words(SQUARE)?;
    for (at, value) in [(0, 6), (2, 0), (3, 0), (MODULUS - 1, 12)] {
        assert_eq!(rt; eval(&poly, word(at)?).value(), value);
    }
    Ok(())
}

#[test]
fn no_coefficients_are_the_polynomial_0(rt: HostRuntime) {
    assert_eq!(rt; eval(&[], Fe::ONE), Fe::ZERO);
}

#[test]
fn sums_are_as_long_as_the_longer(rt: HostRuntime) -> Result<(), Fail> {
    let mut out = [Fe::ZERO; 3];
    add(&words([1, 2, 3])?, &words([MODULUS - 1, 5])?, &mut out);
    assert_eq!(rt; out, words([0, 7, 3])?);
    Ok(())
}

/// (4 - x) (7 - 2 x) = 28 - 15 x + 2 x^2.
#[test]
fn products(rt: HostRuntime) -> Result<(), Fail> {
    let mut out = [Fe::ONE; 3];
    let left = words([4, MODULUS - 1])?;
    mul(&left, &words([7, MODULUS - 2])?, &mut out);
    assert_eq!(rt; out, words([28, MODULUS - 15, 2])?);
    Ok(())
}

#[test]
fn a_product_with_a_constant(rt: HostRuntime) -> Result<(), Fail> {
    let mut out = [Fe::ONE; 3];
    mul(&words([2])?, &words([1, 1, 1])?, &mut out);
    assert_eq!(rt; out, words([2, 2, 2])?);
    Ok(())
}

#[test]
fn a_division_by_a_root_leaves_nothing(rt: HostRuntime) -> Result<(), Fail> {
    let mut out = [Fe::ONE; 2];
    let left = divide_root(&words(SQUARE)?, word(2)?, &mut out);
    assert_eq!(rt; (left.value(), out), (0, words([MODULUS - 3, 1])?));
    Ok(())
}

#[test]
fn a_division_by_no_root_leaves_the_value(rt: HostRuntime) -> Result<(), Fail> {
    let mut out = [Fe::ONE; 2];
    let left = divide_root(&words(SQUARE)?, word(1)?, &mut out);
    assert_eq!(rt; (left.value(), out), (2, words([MODULUS - 4, 1])?));
    Ok(())
}
