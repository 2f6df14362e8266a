//! The sequence of words that the places take.
ghost use Rattle.std.specs.Prelude.{◌≡◌, length};
ghost use Rattle.flp_plan.specs.declared.lengths.Lengths.{Lengths as Counted};
ghost use Rattle.flp_generator.specs.Sequence.{sequence_word, taken_by_place, Takes, part_of, joint_taken, seeds_taken, share_taken, query_taken};

use flp_field::Fe;
use flp_plan::Lengths;

/// Powers of 7, one after the other.
#[derive(Clone, Copy)]
pub(crate) struct Sequence {
    /// The word that is taken next.
    next: Fe,
}

impl Sequence {
    /// The sequence of a seed, from its first word on.
    pub(crate) fn new(seed: u32) -> Sequence
        ensures { result.next ≡ sequence_word seed 0 }
    {
        Sequence {
            next: seven().pow(u64::from(seed) + 1),
        }
    }

    /// Takes the next words, one for each place of `words`.
    pub(crate) fn take(&mut self, words: &mut [Fe])
        ensures { Takes self.old.next self.new.next words.new }
    {
        let seven = seven();
        for word in words.iter_mut() {
            *word = self.next;
            self.next = self.next.mul(seven);
        }
    }
}

/// The word of which the sequence has the powers.
fn seven() -> Fe
    ensures { result ≡ 7 }
{
    Fe::new(7).unwrap()
}

/// The words that a place takes, by what they are for.
#[derive(Clone, Copy)]
pub(crate) struct Taken<'a> {
    pub(crate) joint: &'a [Fe],
    pub(crate) seeds: &'a [Fe],
    /// The words of share 1, of the encoding and then of the proof.
    pub(crate) share: &'a [Fe],
    pub(crate) query: &'a [Fe],
}

/// The parts of the words that a place takes.
pub(crate) fn parts<'a>(taken: &'a [Fe], lengths: &Lengths) -> Taken<'a>
    requires { length taken.now ≡ taken_by_place lengths.now }
    ensures joint { result.joint.now ≡ joint_taken lengths.now taken.now }
    ensures seeds { result.seeds.now ≡ seeds_taken lengths.now taken.now }
    ensures share { result.share.now ≡ share_taken lengths.now taken.now }
    ensures query { result.query.now ≡ query_taken lengths.now taken.now }
    ensures joint_count { length result.joint.now ≡ lengths.now.joint }
    ensures seeds_count { length result.seeds.now ≡ lengths.now.prove }
    ensures share_count { length result.share.now ≡ part_of lengths.now }
    ensures query_count { length result.query.now ≡ lengths.now.query }
{
    let (joint, behind_joint) = taken.split_at(lengths.joint as usize);
    let (seeds, behind_seeds) = behind_joint.split_at(lengths.prove as usize);
    let (share, query) = behind_seeds.split_at(part(lengths));
    Taken {
        joint,
        seeds,
        share,
        query,
    }
}

/// How many words one share's part has: of its share of the encoding, and then of the proof.
pub(crate) fn part(lengths: &Lengths) -> usize
    ensures { result ≡ part_of lengths.now }
{
    lengths.meas as usize + lengths.proof as usize
}

/// How many words each place takes.
pub(crate) fn taken_by(lengths: &Lengths) -> usize
    ensures { result ≡ taken_by_place lengths.now }
{
    let own = lengths.joint as usize + lengths.prove as usize + lengths.query as usize;
    own + part(lengths)
}
