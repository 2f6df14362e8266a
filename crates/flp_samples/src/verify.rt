//! A batch that is counted and then finished, which the command does in one.
use crate::words::words;
use flp_io::{MemorySink, MemorySource};
use flp_policy::Policy;
use flp_pool::NoGate;
use flp_verify::{Counted, End, Numbers, finish, verify_batch};
use std::alloc::Global;
use std::test::Fail;
use std::thread::Threads;

/// A count of 1 in two shares: the head and the text, the nonce, and 0 2 4 5 6 1, six words 1, and the query word 2.
const BATCH: &[u8] = b"FLPBATCH\
    \x01\0\0\0\x02\0\0\0\x01\0\0\0\x0a\0\0\0\0\0\0\0\x01\0\0\0use count;\
    \x00\x01\x02\x03\x04\x05\x06\x07\x08\x09\x0a\x0b\x0c\x0d\x0e\x0f\
    \0\0\0\0\0\0\0\0\x02\0\0\0\0\0\0\0\x04\0\0\0\0\0\0\0\
    \x05\0\0\0\0\0\0\0\x06\0\0\0\0\0\0\0\x01\0\0\0\0\0\0\0\
    \x01\0\0\0\0\0\0\0\x01\0\0\0\0\0\0\0\x01\0\0\0\0\0\0\0\
    \x01\0\0\0\0\0\0\0\x01\0\0\0\0\0\0\0\x01\0\0\0\0\0\0\0\
    \x02\0\0\0\0\0\0\0";

/// What is written of it, first by the one call and then by both.
const LINE: &[u8] = b"000102030405060708090a0b0c0d0e0f accepted\n";

const TEXT: &[u8] = b"000102030405060708090a0b0c0d0e0f accepted\ncount 1\naggregate 1\n";

/// One report, which is accepted.
const ONE: Numbers = Numbers {
    accepted: 1,
    rejected: 0,
    domain: 0,
    malformed: 0,
    replayed: 0,
};

/// The batch as one worker counts it, where no policy is handed in.
fn counted<R: Threads + Sync>(
    rt: &R,
    alloc: Global,
    output: &mut MemorySink,
) -> Result<Counted, Fail> {
    let mut input = MemorySource::new(BATCH.to_vec(alloc)?, 4096, Vec::new(alloc));
    let mut policies: Vec<Box<dyn Policy>> = Vec::new(alloc);
    let none = policies.as_mut_slice();
    match verify_batch(rt, alloc, &mut input, output, 1, 0, &NoGate, none) {
        Ok(counted) => Ok(counted),
        Err(_) => Err("no batch".into()),
    }
}

#[test]
fn a_batch_is_counted_and_then_finished(rt: HostRuntime) -> Result<(), Fail> {
    let mut output = MemorySink::new(rt.alloc(), 4096, Vec::new(rt.alloc()));
    output.reserve(4096)?;
    let counted = counted(&rt, rt.alloc(), &mut output)?;
    assert_eq!(rt; (counted.numbers, counted.end), (ONE, End::Released));
    assert_eq!(rt; output.taken(), LINE);
    let Ok(summary) = finish(rt.alloc(), counted, &mut output, false) else {
        return Err("no sums".into());
    };
    assert_eq!(rt; output.taken(), TEXT);
    assert_eq!(rt; summary.numbers, ONE);
    assert_eq!(rt; summary.totals.as_slice(), words([1])?.as_slice());
    Ok(())
}
