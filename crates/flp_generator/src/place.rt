//! The words of the record of a place, and its nonce.
ghost use Rattle.std.specs.Prelude.{◌≡◌, ◌+◌, ◌*◌, ◌≤◌, ◌<◌, ◌^◌, ◌++◌, length, take, IfSome};
ghost use Rattle.flp_circuits.specs.Sizes.{input_len_of};
ghost use Rattle.flp_plan.specs.Counted.{counted_lengths};
ghost use Rattle.flp_plan.specs.Sizes.{sizes_of};
ghost use Rattle.flp_jobs.specs.Setting.{IsCircuitOf};
ghost use Rattle.flp_meaning.specs.Proof.{honest_proof};
ghost use Rattle.flp_generator.specs.Change as change;
ghost use Rattle.flp_generator.specs.Sequence.{part_of};
ghost use Rattle.flp_generator.specs.Input.{trial_encoding};
ghost use Rattle.flp_generator.specs.Place.{changed_words, first_point, trial_nonce};

use crate::change::{Change, change_at, nonce_place};
use crate::input::write_encoding;
use crate::sequence::{Taken, part};
use byteorder::{ByteOrder, LittleEndian};
use flp_field::{Fe, MODULUS};
use flp_jobs::write_numbers;
use flp_load::Loaded;
use flp_plan::{Plan, laws};
use flp_prove::Prover;

/// The nonce of a place: the seed, and then the place, or where the nonce is changed the first of its eight places.
pub(crate) fn nonce_of(seed: u32, place: u32) -> [u8; 16]
    ensures { result ≡ trial_nonce seed place }
{
    let numbers = [u64::from(seed), u64::from(nonce_place(place))];
    let mut nonce = [0; 16];
    LittleEndian::write_u64_into(&numbers, &mut nonce);
    nonce
}

/// Writes what is shared to `unshared`: the encoding of number k, and then the honest proof of it.
pub(crate) fn write_unshared(
    loaded: &Loaded,
    k: u64,
    taken: &Taken,
    numbers: &mut [u64],
    prover: &mut Prover,
    unshared: &mut [Fe],
)
    requires circuit { IsCircuitOf loaded.now.params loaded.now.plan.circuit }
    requires small { k < 2 ^ 33 }
    requires joint { length taken.now.joint.now ≡ (counted_lengths loaded.now.plan.circuit).joint }
    requires seeds { length taken.now.seeds.now ≡ (counted_lengths loaded.now.plan.circuit).prove }
    requires numbers { IfSome loaded.now.params (λ params. length numbers.old ≡ input_len_of params) }
    requires made { prover.old ≡ sizes_of loaded.now.plan }
    requires unshared { length unshared.old ≡ part_of (counted_lengths loaded.now.plan.circuit) }
    ensures words { let x = trial_encoding loaded.now.params (counted_lengths loaded.now.plan.circuit).meas k in
        unshared.new ≡ x ++ honest_proof loaded.now.plan.circuit x taken.now.joint.now taken.now.seeds.now }
    ensures again { prover.new ≡ prover.old }
{
    laws::is_within_limits(&loaded.plan);
    let (x, proof) = unshared.split_at_mut(loaded.plan.lengths().meas as usize);
    write_encoding(loaded, k, numbers, x);
    prover.prove(&loaded.plan, x, taken.joint, taken.seeds, proof);
}

/// Writes the words of a record to `words`, which has a place for each: those of the shares, and then the joint words and
/// the query words.
pub(crate) fn write_words(shares: &[Fe], taken: &Taken, words: &mut [u64])
    requires { length words.old ≡ length shares.now + (length taken.now.joint.now + length taken.now.query.now) }
    ensures { words.new ≡ shares.now ++ (taken.now.joint.now ++ taken.now.query.now) }
{
    let (shared, own) = words.split_at_mut(shares.len());
    let (joint, query) = own.split_at_mut(taken.joint.len());
    write_numbers(shares, shared);
    write_numbers(taken.joint, joint);
    write_numbers(taken.query, query);
}

/// The number of the point of gadget 0 among the words of a record.
fn first_point_of(plan: &Plan) -> usize
    ensures { result ≡ first_point plan.now.circuit }
{
    let lengths = plan.lengths();
    let check_words = lengths.query as usize - plan.gadgets() as usize;
    2 * part(&lengths) + lengths.joint as usize + check_words
}

/// Changes the words of the record of a place, of which `shares` are those of its shares.
pub(crate) fn change_words(plan: &Plan, place: u32, shares: &[Fe], words: &mut [u64])
    requires shares { length shares.now ≡ 2 * part_of (counted_lengths plan.now.circuit) }
    requires first { take (length shares.now) words.old ≡ shares.now }
    requires words { length words.old ≡ length shares.now + (counted_lengths plan.now.circuit).joint + (counted_lengths plan.now.circuit).query }
    ensures { words.new ≡ changed_words (change.change_at place) plan.now.circuit words.old }
{
    laws::is_within_limits(plan);
    match change_at(place) {
        Change::Proof => {
            let last = shares.len() / 2 - 1;
            words[last] = shares[last].add(Fe::ONE).value();
        }
        Change::Point => words[first_point_of(plan)] = 1,
        Change::Word => words[0] = MODULUS,
        Change::Nothing | Change::Nonce => {}
    }
}
