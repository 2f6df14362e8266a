//! The tally and its seats.
ghost use Rattle.std.specs.Prelude.{◌≡◌, ℕ, ◌+◌, ◌*◌, ◌%◌, ◌^◌, ◌<◌, ◌≤◌, IfOk, IsTrue, IsFalse, [], length};
ghost use Rattle.flp_tally.specs.Views.{times, NoneTwice, Owns, SeenIsClaimed, first_view, with_claimed, with_seen, with_missed, with_entry, kept_half, given_half, joined_view, NotAdded, MayAdd};
ghost use Rattle.flp_tally.specs.Rows.{with_row, AreTotals, AreSums};
ghost use Rattle.flp_tally.specs.Rule.{cell_word};
ghost use Rattle.flp_field.specs.Word.{modulus};
ghost use Rattle.flp_tally.specs.Held.{IsSeatOf};

use crate::steps::{Halves, Learning, Place, Together, is_marked, look, note, put, take};
use crate::view::{Entry, Shape, Tallied, View};
use atomic_table::Table;
use flp_field::{Fe, MODULUS};
use std::alloc::{AllocError, Global};
use std::marker::{Brand, Model};

/// The claim bits of a number of reports, and the sums of a number of elements. Each call takes seats of its own tally alone.
#[derive(Drop)]
pub struct Tally {
    table: Table<u8, View, Shape, Tallied, Global>,
    shape: Shape,
}

impl Model for Tally {
    ghost use Rattle.std.specs.Prelude.{◌≡◌, ◌+◌, ◌*◌, ◌≤◌};
    ghost use Rattle.flp_tally.specs.Rule.{blocks};
    ghost use Rattle.flp_tally.specs.Held.{Board};

    ghost Value = { Board };

    ghost view = { λ t. record { table = t.table.shared.table_id; full = t.shape.weight; reports = t.shape.reports; elements = t.shape.elements } };

    ghost invariant = { λ t. (t.table.shared.table_id.words ≡ 3 + blocks t.shape.reports + 2 * t.shape.elements) × (t.table.shared.table_id.slots ≡ 0) × (t.shape.elements ≤ 65536) × (t.table.shared.key ≡ t.shape) };
}

/// The right to step on a tally, with a weight of at least 1. Contracts see the lists of what it has claimed, seen,
/// missed and added; a running seat keeps its weight alone.
#[derive(Drop)]
pub struct Seat {
    place: Place,
    weight: u32,
}

impl Model for Seat {
    ghost use Rattle.std.specs.Prelude.{◌≡◌, ◌≤◌, []};
    ghost use Rattle.flp_tally.specs.Views.{Owns};
    ghost use Rattle.flp_tally.specs.Held.{Held};

    ghost Value = { Held };

    ghost view = { λ s. record { table = s.place.table_id; view = s.place.me.0 } };

    ghost invariant = { λ s. (s.weight ≡ s.place.me.0.weight) × (1 ≤ s.weight) × (s.place.me.1 ≡ []) × Owns s.place.me.0 };
}

/// Whether a number was still free.
#[derive(Clone, Copy, PartialEq, Eq, Debug)]
pub enum Claim {
    /// The number was free, and is now claimed by the seat that asked.
    Mine,
    /// The number was claimed before, by the same seat or another.
    Taken,
}

impl Tally {
    /// A tally with no number claimed and each sum 0, and its first seat, which has the full weight.
    ///
    /// There are 1 to 65,536 elements, and the weight is at least 1. An error says that there is no memory for the words.
    pub fn new(
        alloc: Global,
        reports: u32,
        elements: u32,
        weight: u32,
    ) -> Result<(Tally, Seat), AllocError>
        requires elements { (1 ≤ elements) × (elements ≤ 65536) }
        requires weight { 1 ≤ weight }
        ensures numbers { IfOk result (λ t. (t.0.full ≡ weight) × (t.0.reports ≡ reports) × (t.0.elements ≡ elements)) }
        ensures seat { IfOk result (λ t. IsSeatOf t.0 t.1) }
        ensures view { IfOk result (λ t. t.1.view ≡ first_view weight reports elements) }
    {
        let count = 3 + (reports as usize).div_ceil(64) + 2 * elements as usize;
        let mut words = vec![in alloc; 0u64; count]?;
        words[0] = weight as u64;
        words[1] = reports as u64;
        words[2] = elements as u64;
        let shape = Shape {
            weight,
            reports,
            elements,
        };
        let (table, place) = Table::of_words(alloc, words.as_slice(), &shape)?;
        Ok((Tally { table, shape }, Seat { place, weight }))
    }

    /// Two seats for one: the first keeps the lists and the larger half of the weight, the second starts with none and
    /// has the rest. The seat has a weight of at least 2.
    pub fn split(&self, seat: Seat) -> (Seat, Seat)
        requires seat { IsSeatOf self.now seat }
        requires weight { 2 ≤ seat.view.weight }
        ensures seats { IsSeatOf self.now result.0 × IsSeatOf self.now result.1 }
        ensures first { result.0.view ≡ kept_half seat.view }
        ensures second { result.1.view ≡ given_half seat.view }
    {
        let Seat { mut place, weight } = seat;
        let other = self.table.shared.split_seat::<Halves>(&mut place);
        let half = weight / 2;
        (
            Seat {
                place,
                weight: weight - half,
            },
            Seat {
                place: other,
                weight: half,
            },
        )
    }

    /// One seat for two, with both weights and all lists, those of the first in front.
    pub fn join(&self, first: Seat, second: Seat) -> Seat
        requires first { IsSeatOf self.now first }
        requires second { IsSeatOf self.now second }
        ensures seat { IsSeatOf self.now result }
        ensures view { result.view ≡ joined_view first.view second.view }
        ensures once { NoneTwice result.view.claimed }
        ensures all { result.view.weight ≡ result.view.full → SeenIsClaimed result.view }
    {
        let Seat { mut place, weight } = first;
        let Seat {
            place: other,
            weight: more,
        } = second;
        let words = &self.table.shared;
        words.join_seat::<Together>(&mut place, other);
        words.load::<Learning>(&mut place, 0);
        Seat {
            place,
            weight: weight + more,
        }
    }

    /// Whether the number, which is below the number of reports, was claimed at the moment of the look.
    pub fn peek(&self, seat: &mut Seat, number: u32) -> bool
        requires seat { IsSeatOf self.now seat.old }
        requires number { number < self.now.reports }
        ensures seat { IsSeatOf self.now seat.new }
        ensures claimed { IsTrue result → seat.new.view ≡ with_seen seat.old.view number }
        ensures free { IsFalse result → seat.new.view ≡ with_missed seat.old.view number }
        ensures true_where { 1 ≤ times number seat.old.view.claimed + times number seat.old.view.seen → IsTrue result }
        ensures false_where { seat.old.view.weight ≡ seat.old.view.full → times number seat.old.view.claimed ≡ 0 → IsFalse result }
    {
        let word = look::<Brand>(&self.table.shared, &mut seat.place, number);
        is_marked(word, number)
    }

    /// Claims a number below the number of reports, which one call alone can do.
    pub fn claim(&self, seat: &mut Seat, number: u32) -> Claim
        requires seat { IsSeatOf self.now seat.old }
        requires number { number < self.now.reports }
        ensures seat { IsSeatOf self.now seat.new }
        ensures mine { result ≡ Claim.Mine → seat.new.view ≡ with_claimed seat.old.view number }
        ensures taken { result ≡ Claim.Taken → seat.new.view ≡ with_seen seat.old.view number }
        ensures taken_where { 1 ≤ times number seat.old.view.claimed + times number seat.old.view.seen → result ≡ Claim.Taken }
        ensures mine_where { seat.old.view.weight ≡ seat.old.view.full → times number seat.old.view.claimed ≡ 0 → result ≡ Claim.Mine }
        ensures owns { Owns seat.old.view }
    {
        let found = take::<Brand>(&self.table.shared, &mut seat.place, number);
        if is_marked(found, number) {
            Claim::Taken
        } else {
            Claim::Mine
        }
    }

    /// Adds the words of a row, each in halves, under a number that this seat has claimed and not yet added.
    ///
    /// The row has as many words as the tally has elements.
    pub fn add(&self, seat: &mut Seat, number: u32, row: &[Fe])
        requires seat { IsSeatOf self.now seat.old }
        requires claimed { 1 ≤ times number seat.old.view.claimed }
        requires once { NotAdded number seat.old.view }
        requires row { length row.now ≡ self.now.elements }
        ensures seat { IsSeatOf self.now seat.new }
        ensures added { seat.new.view ≡ with_row seat.old.view number row.now }
    {
        let cells = self.cells();
        for element in 0..self.shape.elements {
            let word = row[element as usize].value();
            self.add_half(
                seat,
                cells,
                Entry {
                    number,
                    cell: 2 * element,
                    amount: (word % 4294967296) as u32,
                },
            );
            self.add_half(
                seat,
                cells,
                Entry {
                    number,
                    cell: 2 * element + 1,
                    amount: (word / 4294967296) as u32,
                },
            );
        }
    }

    /// Ends the tally, and writes each element's total: the sum of the added rows' words in the field.
    ///
    /// The seat has the full weight, and there are as many totals as the tally has elements.
    pub fn close(self, seat: Seat, totals: &mut [Fe])
        requires seat { IsSeatOf self seat }
        requires weight { seat.view.weight ≡ seat.view.full }
        requires totals { length totals.old ≡ self.elements }
        ensures totals { AreTotals seat.view.added totals.new }
        ensures sums { AreSums seat.view.added totals.new }
    {
        let cells = self.cells();
        let Tally { table, shape } = self;
        let Seat { place, weight: _ } = seat;
        let closed = table.close_with(place);
        for element in 0..shape.elements as usize {
            let low = closed.word(cells + 2 * element);
            let high = closed.word(cells + 2 * element + 1);
            totals[element] = total(low, high);
        }
        closed.free();
    }

    /// Where the words of the cells begin.
    fn cells(&self) -> usize
        ensures place { result ≡ cell_word self.now.reports 0 }
        ensures small { result < 2 ^ 32 }
    {
        3 + (self.shape.reports as usize).div_ceil(64)
    }

    /// Adds an entry to its cell. The words of the cells begin at `cells`.
    ///
    /// A locked addition takes the word from all other threads. So an entry that adds nothing to it is noted without one.
    fn add_half(&self, seat: &mut Seat, cells: usize, entry: Entry)
        requires seat { IsSeatOf self.now seat.old }
        requires cells { (cells ≡ cell_word self.now.reports 0) × (cells < 2 ^ 32) }
        requires may_add { MayAdd self.now.elements seat.old.view entry }
        ensures seat { IsSeatOf self.now seat.new }
        ensures added { seat.new.view ≡ with_entry seat.old.view entry }
    {
        if entry.amount == 0 {
            note::<Brand>(&self.table.shared, &mut seat.place, entry);
            return;
        }
        put::<Brand>(&self.table.shared, &mut seat.place, cells, entry);
    }
}

/// The word of `low + 2^32 * high`.
fn total(low: u64, high: u64) -> Fe
    ensures { result ≡ (low + 2 ^ 32 * high) % modulus }
{
    let whole = low as u128 + 4294967296 * high as u128;
    let Some(word) = Fe::new((whole % MODULUS as u128) as u64) else {
        unreachable!()
    };
    word
}

impl Seat {
    /// The seat's part of the full weight, at least 1.
    pub fn weight(&self) -> u32
        ensures weight { result ≡ self.now.view.weight }
        ensures some { 1 ≤ result }
        ensures owns { Owns self.now.view }
    {
        self.weight
    }
}
