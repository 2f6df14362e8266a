//! The single steps on a tally's words. Each function makes one.
ghost use Rattle.std.specs.Prelude.{◌≡◌, ◌↔◌, ◌%◌, IsTrue, ℕ, ◌+◌, ◌*◌, ◌^◌, ◌<◌, ◌≤◌};
ghost use Rattle.std.specs.Int.{bit_at};
ghost use Rattle.flp_tally.specs.Views.{MayAdd, kept_half, given_half, joined_view, spent_view, with_entry};
ghost use Rattle.flp_tally.specs.Steps.{MayAct, Claimed, Peeked, Learned, Added, Noted};
ghost use Rattle.flp_tally.specs.Rule.{claim_word, cell_word};

use crate::view::{Entry, Shape, Tallied, View};
use atomic_table::{Join, Play, Shared, Split};
use std::marker::{Brand, PhantomData};

pub(crate) type Words = Shared<u8, View, Shape, Tallied>;

pub(crate) type Place = atomic_table::Seat<u8, View>;

/// Which number a step is about. Each call picks its own.
pub(crate) trait Numbered {
    ghost number: { ℕ };
}

impl Numbered for Brand {
    ghost number = { 0 };
}

/// Which entry a step adds. Each call picks its own.
pub(crate) trait Halved {
    ghost use Rattle.flp_tally.specs.declared.view.Entry.{Entry};

    ghost entry: { Entry };
}

impl Halved for Brand {
    ghost use Rattle.flp_tally.specs.Rows.{half};

    ghost entry = { half 0 0 0 };
}

/// The weight in halves, and the lists with the larger one.
pub(crate) struct Halves;

impl Split<View> for Halves {
    ghost left = { kept_half };

    ghost right = { given_half };
}

/// The weights added and the lists appended.
pub(crate) struct Together;

impl Join<View> for Together {
    ghost both = { joined_view };

    ghost spent = { spent_view };
}

pub(crate) struct Learning;

impl Play<u8, View> for Learning {
    ghost then = { λ s v found w. Learned v.0 w.0 × (w.1 ≡ v.1) };
}

pub(crate) struct Claiming<N> {
    number: PhantomData<N>,
}

impl<N: Numbered> Play<u8, View> for Claiming<N> {
    ghost then = { λ s v found w. Claimed N.number s.word v.0 found w.0 × (w.1 ≡ v.1) };
}

pub(crate) struct Peeking<N> {
    number: PhantomData<N>,
}

impl<N: Numbered> Play<u8, View> for Peeking<N> {
    ghost then = { λ s v found w. Peeked N.number s.word v.0 found w.0 × (w.1 ≡ v.1) };
}

pub(crate) struct Adding<E> {
    entry: PhantomData<E>,
}

impl<E: Halved> Play<u8, View> for Adding<E> {
    ghost then = { λ s v found w. Added E.entry s.word s.first v.0 w.0 × (w.1 ≡ v.1) };
}

pub(crate) struct Noting<E> {
    entry: PhantomData<E>,
}

impl<E: Halved> Play<u8, View> for Noting<E> {
    ghost then = { λ s v found w. Noted E.entry s.word v.0 w.0 × (w.1 ≡ v.1) };
}

/// Sets the claim bit of a number, and gives the word that was found.
pub(crate) fn take<N: Numbered>(words: &Words, place: &mut Place, number: u32) -> u64
    requires number { number ≡ N.number }
    requires below { number < words.now.key.reports }
    requires seat { MayAct words.now.table_id words.now.key place.old.table_id place.old.me.0 }
    ensures seat { place.new.table_id ≡ place.old.table_id }
    ensures claimed { Claimed number (claim_word number) place.old.me.0 result place.new.me.0 }
    ensures slots { place.new.me.1 ≡ place.old.me.1 }
{
    words.fetch_or::<Claiming<N>>(place, 3 + (number / 64) as usize, 1 << (number % 64))
}

/// Loads the word with the claim bit of a number.
pub(crate) fn look<N: Numbered>(words: &Words, place: &mut Place, number: u32) -> u64
    requires number { number ≡ N.number }
    requires below { number < words.now.key.reports }
    requires seat { MayAct words.now.table_id words.now.key place.old.table_id place.old.me.0 }
    ensures seat { place.new.table_id ≡ place.old.table_id }
    ensures peeked { Peeked number (claim_word number) place.old.me.0 result place.new.me.0 }
    ensures slots { place.new.me.1 ≡ place.old.me.1 }
{
    words.load::<Peeking<N>>(place, 3 + (number / 64) as usize)
}

/// Whether the bit of a number is set in its claim word.
pub(crate) fn is_marked(word: u64, number: u32) -> bool
    ensures { IsTrue result ↔ (bit_at word (number % 64) ≡ 1) }
{
    word >> (number % 64) & 1 == 1
}

/// Adds an entry to its cell. The words of the cells begin at `cells`.
pub(crate) fn put<E: Halved>(words: &Words, place: &mut Place, cells: usize, entry: Entry)
    requires entry { E.entry ≡ entry }
    requires cells { cells ≡ cell_word words.now.key.reports 0 }
    requires small { cells < 2 ^ 32 }
    requires seat { MayAct words.now.table_id words.now.key place.old.table_id place.old.me.0 }
    requires reports { place.old.me.0.reports ≡ words.now.key.reports }
    requires may_add { MayAdd words.now.key.elements place.old.me.0 entry }
    ensures seat { place.new.table_id ≡ place.old.table_id }
    ensures added { place.new.me.0 ≡ with_entry place.old.me.0 entry }
    ensures slots { place.new.me.1 ≡ place.old.me.1 }
{
    words.fetch_add::<Adding<E>>(place, cells + entry.cell as usize, entry.amount as u64);
}

/// Lets an entry with the amount 0 join what the seat has added. No word changes, so a load of the first word serves.
pub(crate) fn note<E: Halved>(words: &Words, place: &mut Place, entry: Entry)
    requires entry { E.entry ≡ entry }
    requires nothing { entry.amount ≡ 0 }
    requires seat { MayAct words.now.table_id words.now.key place.old.table_id place.old.me.0 }
    requires may_add { MayAdd words.now.key.elements place.old.me.0 entry }
    ensures seat { place.new.table_id ≡ place.old.table_id }
    ensures added { place.new.me.0 ≡ with_entry place.old.me.0 entry }
    ensures slots { place.new.me.1 ≡ place.old.me.1 }
{
    words.load::<Noting<E>>(place, 0);
}
