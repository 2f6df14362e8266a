//! A query by a scratch, which no command makes: they pose a challenge once and let each share answer it.
use crate::words::words;
use flp_field::Fe;
use flp_load::load_circuit;
use flp_plan::{Lengths, Plan};
use flp_query::Scratch;
use std::alloc::Global;
use std::test::Fail;

/// The lengths of a count.
const COUNT: Lengths = Lengths {
    meas: 1,
    joint: 0,
    prove: 2,
    query: 1,
    proof: 5,
    verifier: 4,
    outs: 1,
};

/// The verifier of a share of ones, of two shares, with the query word 2.
fn verifier_of_ones(alloc: Global, plan: &Plan) -> Result<[Fe; 4], Fail> {
    if plan.lengths() != COUNT {
        return Err("other lengths".into());
    }
    let mut scratch = Scratch::new(alloc, plan)?;
    let mut verifier = [Fe::ZERO; 4];
    let ones = words([1; 5])?;
    let point = words([2])?;
    match scratch.query(plan, &ones[..1], &ones, &[], &point, 2, &mut verifier) {
        Ok(()) => Ok(verifier),
        Err(_) => Err("in the domain".into()),
    }
}

/// The wires are 1, so their values at 2 are 1 and 1. The polynomial is 1 + t + tt: at 2 it is 7, and at -1 it is 1, which is
/// the word, so the check is 0.
#[test]
fn a_share_of_ones(rt: HostRuntime) -> Result<(), Fail> {
    let Ok(loaded) = load_circuit(rt.alloc(), b"use count;") else {
        return Err("no circuit".into());
    };
    let verifier = verifier_of_ones(rt.alloc(), &loaded.plan)?;
    assert_eq!(rt; verifier, words([0, 1, 1, 7])?);
    Ok(())
}
