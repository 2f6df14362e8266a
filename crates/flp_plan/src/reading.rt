//! What a circuit is read on.
use flp_field::Fe;

/// An encoding or a share of one, with the public values under its joint words and answers to the calls.
#[derive(Clone, Copy)]
pub struct Reading<'a> {
    /// What the plan's public values are under the joint words.
    pub publics: &'a [Fe],
    /// The encoding or the share.
    pub x: &'a [Fe],
    /// A word for each call.
    pub answers: &'a [Fe],
    /// What the constant 1 counts as: 1 on an unshared encoding, 1/shares on a share.
    pub unit: Fe,
}
