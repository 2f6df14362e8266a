//! Old claims, which are looked up and written where they lie.
ghost use Rattle.std.specs.Prelude.{◌≡◌, ◌≤◌, false, IfSome, slice_get, slice_range};
ghost use Rattle.std.specs.List.{AllPass};
ghost use Rattle.flp_report.specs.Nonces.{nonce_count, nonces_in};
ghost use Rattle.flp_known.specs.Among.{is_among};
ghost use Rattle.flp_known.specs.Order.{is_below};
ghost use Rattle.flp_known.specs.Claims.{claim_lines};
ghost use Rattle.flp_known.specs.Puts.{Puts};

use crate::writing::put_claim;
use flp_io::{Block, Failed, Sink};
use flp_report::Nonces;
use std::cmp::Ordering;

/// Whether a nonce is one of these claims. They are bisected: of fewer than 2^k claims at most k are looked at.
pub fn is_claim(claims: &Nonces, nonce: &[u8]) -> bool
    ensures { result ≡ is_among (nonces_in claims.now) nonce.now }
{
    flp_report::laws::held_parts();
    let mut low = 0;
    let mut high = claims.len();
    while low < high {
        let middle = low + (high - low) / 2;
        match claims.at(middle).cmp(&nonce) {
            Ordering::Less => low = middle + 1,
            Ordering::Equal => return true,
            Ordering::Greater => high = middle,
        }
    }
    false
}

/// The number of the first of these claims from `from` on that is not below a nonce, or how many claims there are.
pub(crate) fn first_not_below(claims: &Nonces, from: u32, nonce: &[u8]) -> u32
    requires { from ≤ nonce_count claims.now }
    ensures place { (from ≤ result) × (result ≤ nonce_count claims.now) }
    ensures below { AllPass (λ claim. is_below claim nonce.now) (slice_range (nonces_in claims.now) from result) }
    ensures stop { IfSome (slice_get (nonces_in claims.now) result) (λ claim. is_below claim nonce.now ≡ false) }
{
    flp_report::laws::held_parts();
    for number in from..claims.len() {
        if !claims.at(number).cmp(&nonce).is_lt() {
            return number;
        }
    }
    claims.len()
}

/// Puts the lines of the claims from one number up to another.
pub(crate) fn put_claims_within<K: Sink>(
    block: &mut Block,
    sink: &mut K,
    claims: &Nonces,
    from: u32,
    to: u32,
) -> Result<(), Failed>
    requires ready { K.ready sink.old }
    requires within { (from ≤ to) × (to ≤ nonce_count claims.now) }
    ensures { Puts K.taken K.faults K.ready sink.old sink.new block.old block.new (claim_lines (slice_range (nonces_in claims.now) from to)) result }
{
    flp_report::laws::held_parts();
    for number in from..to {
        put_claim(block, sink, claims.at(number))?;
    }
    Ok(())
}
