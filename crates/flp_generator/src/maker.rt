//! What makes the records of all places, one after another.
ghost use Rattle.std.specs.Prelude.{◌≡◌, ◌+◌, IfOk, IfSome};
ghost use Rattle.flp_circuits.specs.Sizes.{input_len_of};
ghost use Rattle.flp_jobs.specs.Setting.{IsCircuitOf};
ghost use Rattle.flp_generator.specs.Maker.{IsAt};
ghost use Rattle.flp_generator.specs.Place.{trial_words};

use crate::Memory;
use crate::place::{change_words, write_unshared, write_words};
use crate::sequence::{Sequence, part, parts, taken_by};
use flp_circuits::input_len;
use flp_field::Fe;
use flp_load::Loaded;
use flp_prove::Prover;
use flp_share::split;
use std::alloc::Global;

/// Room for making records, made once and used for each place, and where the places stand in the sequence of words.
#[derive(Drop)]
pub(crate) struct Maker {
    sequence: Sequence,
    prover: Prover,
    /// The words that a place takes.
    taken: Vec<Fe>,
    /// The numbers of a measurement, where the circuit is a standard one.
    numbers: Vec<u64>,
    /// An encoding and its proof.
    unshared: Vec<Fe>,
    /// The words of both shares.
    shares: Vec<Fe>,
    /// The words of a record.
    words: Vec<u64>,
}

/// How many numbers a measurement has; a circuit of the text's own has none.
fn number_count(loaded: &Loaded) -> usize
    requires { IsCircuitOf loaded.now.params loaded.now.plan.circuit }
    ensures { IfSome loaded.now.params (λ params. result ≡ input_len_of params) }
{
    match &loaded.params {
        Some(params) => input_len(params) as usize,
        None => 0,
    }
}

impl Maker {
    /// A maker for a circuit and a seed, in front of the first place. It takes all the memory that making needs.
    pub(crate) fn new(alloc: Global, loaded: &Loaded, seed: u32) -> Result<Maker, Memory>
        requires { IsCircuitOf loaded.now.params loaded.now.plan.circuit }
        ensures { IfOk result (IsAt loaded.now seed 0) }
    {
        let lengths = loaded.plan.lengths();
        let part = part(&lengths);
        let own = lengths.joint as usize + lengths.query as usize;
        Ok(Maker {
            sequence: Sequence::new(seed),
            prover: Prover::new(alloc, &loaded.plan)?,
            taken: vec![in alloc; Fe::ZERO; taken_by(&lengths)]?,
            numbers: vec![in alloc; 0; number_count(loaded)]?,
            unshared: vec![in alloc; Fe::ZERO; part]?,
            shares: vec![in alloc; Fe::ZERO; 2 * part]?,
            words: vec![in alloc; 0; 2 * part + own]?,
        })
    }

    /// Makes the words of the record of a place, the next one in the sequence.
    pub(crate) fn make(&mut self, loaded: &Loaded, seed: u32, place: u32)
        requires circuit { IsCircuitOf loaded.now.params loaded.now.plan.circuit }
        requires at { IsAt loaded.now seed place self.old }
        ensures words { self.new.words.items ≡ trial_words loaded.now.params loaded.now.plan.circuit seed place }
        ensures next { IsAt loaded.now seed (place + 1) self.new }
    {
        self.sequence.take(&mut self.taken);
        let taken = parts(&self.taken, &loaded.plan.lengths());
        write_unshared(
            loaded,
            u64::from(seed) + u64::from(place),
            &taken,
            &mut self.numbers,
            &mut self.prover,
            &mut self.unshared,
        );
        split(&self.unshared, taken.share, 2, &mut self.shares);
        write_words(&self.shares, &taken, &mut self.words);
        change_words(&loaded.plan, place, &self.shares, &mut self.words);
    }

    /// The words of the record that was made last.
    pub(crate) fn words(&self) -> &[u64]
        ensures { result.now ≡ self.now.words.items }
    {
        &self.words
    }
}
