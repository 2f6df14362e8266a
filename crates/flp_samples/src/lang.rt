//! How a circuit is printed, which no command does.
use flp_lang::{parse, print};
use std::test::Fail;

#[test]
fn tokens_stand_with_a_blank_between_them(rt: HostRuntime) -> Result<(), Fail> {
    let circuit = parse(rt.alloc(), b"use  sum max=007; # seven")?;
    let text = print(rt.alloc(), &circuit)?;
    assert_eq!(rt; text.as_slice(), b"use sum max = 7 ;\n".as_slice());
    Ok(())
}
