//! The laws of shares, each the contract of a function that does nothing. A caller's proof takes the law
//! from here; the definitions are in `specs/Shares.antt`.
ghost use Rattle.flp_share.specs.Shares.{SharesSumUp, EachSharingIsSplit, OneListGivesOthers};

/// The sum of the shares that an encoding is split into is the encoding, so `unshare` undoes `split`; and
/// shares whose sum is an encoding are what `split` makes of it and of the shares from 1 on.
pub fn sharings()
    ensures sum { SharesSumUp }
    ensures each { EachSharingIsSplit }
{}

/// Whatever the encoding, and whatever all shares but one are to be, exactly one list of words for the
/// shares from 1 on makes `split` write them. So all shares but one fit every encoding equally well.
pub fn all_but_one()
    ensures { OneListGivesOthers }
{}
