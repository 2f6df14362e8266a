//! The old claims of a batch, and the nonces of its records.
ghost use Rattle.std.specs.Prelude.{◌≡◌, false, not, length, IfOk, OnOk, OnErr};
ghost use Rattle.flp_report.specs.Nonces.{nonces_in};
ghost use Rattle.flp_known.specs.Among.{is_among, any_among};
ghost use Rattle.flp_known.specs.Order.{with_nonce};
ghost use Rattle.flp_known.specs.Met.{met_in};
ghost use Rattle.flp_known.specs.Claims.{claim_lines};
ghost use Rattle.flp_known.specs.Puts.{Puts};

use crate::Memory;
use crate::met::Met;
use flp_io::{Block, Failed, Sink};
use flp_report::Nonces;
use std::alloc::Global;

/// The nonces that are known.
#[derive(Drop)]
pub struct Known {
    claims: Nonces,
    met: Met,
    ghost apart: { any_among (nonces_in claims) (met_in met) ≡ false },
}

impl Known {
    ghost use Rattle.flp_known.specs.Known.{known_in};

    /// Before the first record: exactly the old claims are known. It takes no memory.
    pub fn of_claims(alloc: Global, claims: Nonces) -> Known
        ensures { known_in result ≡ nonces_in claims }
    {
        let met = Met::new(alloc);
        Known { claims, met }
    }

    /// Adds a nonce of 16 bytes, and answers whether it was new.
    ///
    /// The error is want of memory, which is taken for a new nonce alone.
    pub fn add(&mut self, nonce: &[u8]) -> Result<bool, Memory>
        requires { length nonce.now ≡ 16 }
        ensures new { IfOk result (λ new. new ≡ not (is_among (known_in self.old) nonce.now)) }
        ensures added { OnOk result (known_in self.new ≡ with_nonce (known_in self.old) nonce.now) }
        ensures kept { OnErr result (known_in self.new ≡ known_in self.old) }
    {
        self.met.add(&self.claims, nonce)
    }

    /// Puts a line for each nonce that is known, in the order of their bytes.
    ///
    /// It takes no memory: the old claims are read where they lie, and merged on the way with the nonces of the records.
    pub fn put_claims<K: Sink>(&self, block: &mut Block, sink: &mut K) -> Result<(), Failed>
        requires { K.ready sink.old }
        ensures { Puts K.taken K.faults K.ready sink.old sink.new block.old block.new (claim_lines (known_in self.now)) result }
    {
        self.met.put_claims(&self.claims, block, sink)
    }
}
