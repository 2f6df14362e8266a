//! What the proofs know of a tally: the views of its seats, and the rule over its words and all views.
use atomic_table::TableRule;
use std::collections::LinkedList;

/// One half of one word of a row: an amount of 32 bits for a cell, under the number of the row's report.
#[derive(Clone, Copy)]
pub struct Entry {
    pub number: u32,
    pub cell: u32,
    pub amount: u32,
}

/// What a seat knows. Contracts alone see it, and no value of it is made.
pub struct View {
    pub weight: u32,
    pub full: u32,
    pub reports: u32,
    pub elements: u32,
    pub claimed: LinkedList<u32>,
    pub seen: LinkedList<u32>,
    pub missed: LinkedList<u32>,
    pub added: LinkedList<Entry>,
}

/// The numbers that a tally keeps from its start to its end.
#[derive(Drop)]
pub(crate) struct Shape {
    pub(crate) weight: u32,
    pub(crate) reports: u32,
    pub(crate) elements: u32,
}

/// The rule over the words and all views. No slot is ever made.
pub(crate) struct Tallied;

impl TableRule<u8, View, Shape> for Tallied {
    ghost use Rattle.flp_tally.specs.Rule.{holds, first};

    ghost holds = { holds };

    ghost first = { first };
}
