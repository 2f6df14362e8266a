//! Lists over a vector.
use flp_list::{Bytes, List};
use std::alloc::Global;
use std::test::Fail;

/// A type that leads back to itself through a list, with a name.
#[derive(Debug, PartialEq, Eq, Drop)]
enum Rose {
    Bud(Bytes),
    Stem { at: u32, branches: List<Rose> },
}

fn bud(alloc: Global, name: &[u8]) -> Result<Rose, Fail> {
    Ok(Rose::Bud(List::from_vec(name.to_vec(alloc)?)))
}

#[test]
fn a_list_lends_what_it_was_made_from(rt: HostRuntime) -> Result<(), Fail> {
    let name: Bytes = List::from_vec(b"gadget".to_vec(rt.alloc())?);
    assert_eq!(rt; name.as_slice(), b"gadget".as_slice());
    Ok(())
}

#[test]
fn a_type_leads_back_to_itself_through_a_list(rt: HostRuntime) -> Result<(), Fail> {
    let mut branches = Vec::new(rt.alloc());
    branches.push(bud(rt.alloc(), b"a")?)?;
    let branches = List::from_vec(branches);
    let rose = Rose::Stem { at: 7, branches };
    let branches = List::from_vec(Vec::new(rt.alloc()));
    let bare = Rose::Stem { at: 7, branches };
    assert_ne!(rt; rose, bare);
    Ok(())
}
