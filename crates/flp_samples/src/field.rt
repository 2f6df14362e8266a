//! Words at values that were worked out by hand. The greatest word is -1; 2^64 is 2^32 - 1, and 2^96 is -1.
use crate::words::word;
use flp_field::{Fe, MODULUS};
use std::test::Fail;

const LAST: u64 = MODULUS - 1;

#[test]
fn words_end_below_the_modulus(rt: HostRuntime) {
    assert_eq!(rt; MODULUS, 18446744069414584321);
    assert_eq!(rt; Fe::new(LAST).map(|word| word.value()), Some(LAST));
    assert_eq!(rt; Fe::new(MODULUS), None);
    assert_eq!(rt; Fe::new(u64::MAX), None);
}

#[test]
fn constants_are_the_words_that_they_name(rt: HostRuntime) -> Result<(), Fail> {
    assert_eq!(rt; (Fe::ZERO, Fe::ONE), (word(0)?, word(1)?));
    assert_eq!(rt; Fe::GENERATOR, word(7)?.pow(4294967295));
    Ok(())
}

#[test]
fn sums(rt: HostRuntime) -> Result<(), Fail> {
    for (left, right, sum) in [(2, 3, 5), (LAST, 1, 0), (LAST, LAST, LAST - 1)] {
        assert_eq!(rt; word(left)?.add(word(right)?).value(), sum);
    }
    Ok(())
}

#[test]
fn differences(rt: HostRuntime) -> Result<(), Fail> {
    for (left, right, difference) in [(2, 3, LAST), (LAST, LAST, 0), (0, LAST, 1)] {
        assert_eq!(rt; word(left)?.sub(word(right)?).value(), difference);
    }
    Ok(())
}

#[test]
fn negations(rt: HostRuntime) -> Result<(), Fail> {
    for (value, negation) in [(0, 0), (1, LAST), (4294967296, 18446744065119617025)] {
        assert_eq!(rt; word(value)?.neg().value(), negation);
    }
    Ok(())
}

#[test]
fn products(rt: HostRuntime) -> Result<(), Fail> {
    for (left, right, product) in [
        (LAST, LAST, 1),
        (1 << 32, 1 << 32, 4294967295),
        (1 << 48, 1 << 48, LAST),
        (1 << 63, 1 << 33, LAST),
    ] {
        assert_eq!(rt; word(left)?.mul(word(right)?).value(), product);
    }
    Ok(())
}

/// 2 has order 192, since 2^96 is -1; 2^64 - 1 is 63 modulo 192, and 2^63 is a word.
#[test]
fn powers(rt: HostRuntime) -> Result<(), Fail> {
    for (base, exponent, power) in [
        (0, 0, 1),
        (3, 4, 81),
        (2, 64, 4294967295),
        (2, 96, LAST),
        (2, u64::MAX, 1 << 63),
    ] {
        assert_eq!(rt; word(base)?.pow(exponent).value(), power);
    }
    Ok(())
}

/// The inverse of 2 is (p + 1) / 2, and that of 2^32 is -2^64, which is 1 - 2^32.
#[test]
fn inverses(rt: HostRuntime) -> Result<(), Fail> {
    for (value, inverse) in [
        (2, 9223372034707292161),
        (1 << 32, 18446744065119617026),
        (LAST, LAST),
    ] {
        let word = word(value)?;
        assert!(rt; word.value() > 0);
        assert_eq!(rt; word.inv().value(), inverse);
    }
    Ok(())
}

/// The root of order 4 is 2^48, whose square is -1.
#[test]
fn roots(rt: HostRuntime) {
    assert_eq!(rt; Fe::root(0), Fe::ONE);
    assert_eq!(rt; Fe::root(1).value(), LAST);
    assert_eq!(rt; Fe::root(2).value(), 1 << 48);
    assert_eq!(rt; Fe::root(32), Fe::GENERATOR);
}
