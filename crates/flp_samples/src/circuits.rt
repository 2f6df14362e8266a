//! The token numbers of the standard circuits, which no command names.
use flp_circuits::body_of;
use flp_lang::{Circuit, parse, print};
use flp_syntax::Params;
use std::alloc::Global;
use std::test::Fail;

/// Whether the circuit's own text, printed and read again, has the same tokens.
fn is_numbered_as_printed(alloc: Global, params: &Params) -> Result<bool, Fail> {
    let circuit = Circuit::Body(body_of(alloc, params)?);
    let text = print(alloc, &circuit)?;
    Ok(parse(alloc, &text)? == circuit)
}

#[test]
fn tokens_are_numbered_as_printed(rt: HostRuntime) -> Result<(), Fail> {
    let table = [
        Params::Count,
        Params::Sum { max: 5 },
        Params::SumVec {
            length: 2,
            bits: 3,
            chunk: 2,
        },
        Params::Histogram {
            length: 5,
            chunk: 2,
        },
        Params::Multihot {
            length: 4,
            weight: 2,
            chunk: 2,
        },
    ];
    for params in &table {
        assert!(rt; is_numbered_as_printed(rt.alloc(), params)?, "{params:?}");
    }
    Ok(())
}
