//! Policies that are told verdicts.
use flp_policy::{CeilingRejected, Floor, Policy, Verdict};
use std::test::Fail;

#[test]
fn a_floor_opens_with_its_last_report(rt: HostRuntime) -> Result<(), Fail> {
    let mut floor = Floor::new(2);
    floor.tell(7, Verdict::Accepted);
    floor.tell(7, Verdict::Rejected);
    assert_eq!(rt; floor.release(7), false);
    floor.tell(7, Verdict::Accepted);
    assert_eq!(rt; (floor.release(7), floor.release(8)), (true, false));
    Ok(())
}

#[test]
fn a_ceiling_shuts_for_good(rt: HostRuntime) -> Result<(), Fail> {
    let mut ceiling = CeilingRejected::new(1);
    ceiling.tell(0, Verdict::Rejected);
    ceiling.tell(0, Verdict::Replayed);
    assert_eq!(rt; ceiling.release(0), true);
    ceiling.tell(0, Verdict::Rejected);
    assert_eq!(rt; (ceiling.release(0), ceiling.release(255)), (false, true));
    Ok(())
}
