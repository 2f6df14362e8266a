//! How many steps there are, which no command tells.
use crate::words::word;
use flp_forms::Steps;
use std::test::Fail;

#[test]
fn equal_constants_are_one_step(rt: HostRuntime) -> Result<(), Fail> {
    let mut steps = Steps::new(rt.alloc(), 1)?;
    let first = steps.constant(word(2)?)?;
    let second = steps.constant(word(2)?)?;
    assert_eq!(rt; (first, second, steps.len()), (1, 1, 2));
    Ok(())
}

#[test]
fn a_power_is_one_step(rt: HostRuntime) -> Result<(), Fail> {
    let mut steps = Steps::new(rt.alloc(), 1)?;
    let joint = steps.joint(0);
    let ninth = steps.power(joint, 9)?;
    assert_eq!(rt; (joint, ninth, steps.len()), (0, 1, 2));
    Ok(())
}
