//! The laws of a block, each the contract of a function that does nothing. A caller's proof takes the law
//! from here; the definitions are in `specs/Block.antt`.
ghost use Rattle.flp_io.specs.Block.{PushesJoin, FlushEnds};

/// Pushes join: what a block did at two pieces is what it may do at one that is both, and with what it
/// holds written all is.
pub fn pushes_join()
    ensures join { PushesJoin }
    ensures flush { FlushEnds }
{}
