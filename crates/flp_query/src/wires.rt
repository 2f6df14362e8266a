//! The values of a gadget's wires at its query point.
//!
//! A wire runs through its seed and then its input of each call, so its value at the point is the sum of these,
//! each times the weight of its place in the domain. The sums of all wires grow call by call; no wire is
//! interpolated, and no row of inputs is kept.
ghost use Rattle.std.specs.Prelude.{◌≡◌, ◌+◌, ◌*◌, ◌%◌, ◌<◌, ◌≤◌, ℕ, List, [], ◌∷◌, length, map, slice_index};
ghost use Rattle.flp_field.specs.Word.{modulus};
ghost use Rattle.flp_poly.specs.Polynomial.{value_at};
ghost use Rattle.flp_poly.specs.Weights.{weights as weights_at};
ghost use Rattle.flp_meaning.specs.Circuit.{calls_of, with_answers};
ghost use Rattle.flp_meaning.specs.Gadgets.{arity_of, size_of, call_count, call_gadget};
ghost use Rattle.flp_meaning.specs.Wires.{wires_of};
ghost use Rattle.flp_plan.specs.View.{publics_of};
ghost use Rattle.flp_query.specs.Wires.{HasRow, HasGrown, AreSums, AreOfAtMost};

use flp_field::{Fe, Sum};
use flp_ntt::laws as values;
use flp_plan::{Plan, Reading, laws};

/// Writes the values of the wires of a gadget at the point whose weights these are.
///
/// `row` and `sums` have a place for each wire, as `out` has.
pub(crate) fn write_wires(
    plan: &Plan,
    gadget: u32,
    reading: &Reading,
    seeds: &[Fe],
    weights: &[Fe],
    row: &mut [Fe],
    sums: &mut [Sum],
    out: &mut [Fe],
)
    requires gadget { gadget < length plan.now.circuit.gadgets }
    requires publics { length reading.now.publics.now ≡ length plan.now.steps }
    requires x { length reading.now.x.now ≡ plan.now.circuit.meas }
    requires answers { length reading.now.answers.now ≡ call_count plan.now.circuit }
    requires seeds { length seeds.now ≡ arity_of plan.now.circuit gadget }
    requires weights { length weights.now ≡ size_of plan.now.circuit gadget }
    requires row { length row.old ≡ arity_of plan.now.circuit gadget }
    requires sums { length sums.old ≡ arity_of plan.now.circuit gadget }
    requires out { length out.old ≡ arity_of plan.now.circuit gadget }
    ensures { (joint : List ℕ) (at : ℕ) → reading.now.publics.now ≡ publics_of plan.now joint → weights.now ≡ weights_at (size_of plan.now.circuit gadget) at → out.new ≡ map (λ wire. value_at wire at) (wires_of plan.now.circuit (calls_of plan.now.circuit (with_answers reading.now.x.now joint reading.now.unit reading.now.answers.now)) seeds.now gadget) }
{
    values::weights();
    laws::is_within_limits(plan);
    let first = weights[0];
    start_sums(first, seeds, sums);
    add_calls(plan, gadget, reading, weights, row, sums);
    write_words(sums, out);
}

/// Sets each sum to the product of the first weight and a seed.
fn start_sums(weight: Fe, seeds: &[Fe], sums: &mut [Sum])
    requires { length seeds.now ≡ length sums.old }
    ensures sums { (j : ℕ) → j < length sums.new → slice_index sums.new j ≡ weight * slice_index seeds.now j }
    ensures room { AreOfAtMost 1 sums.new }
{
    for (j, sum) in sums.iter_mut().enumerate() {
        let mut first = Sum::new();
        first.add_product(weight, seeds[j]);
        *sum = first;
    }
}

/// Adds the inputs of the calls of a gadget, each times the weight of its call's point.
fn add_calls(
    plan: &Plan,
    gadget: u32,
    reading: &Reading,
    weights: &[Fe],
    row: &mut [Fe],
    sums: &mut [Sum],
)
    requires gadget { gadget < length plan.now.circuit.gadgets }
    requires publics { length reading.now.publics.now ≡ length plan.now.steps }
    requires x { length reading.now.x.now ≡ plan.now.circuit.meas }
    requires answers { length reading.now.answers.now ≡ call_count plan.now.circuit }
    requires weights { length weights.now ≡ size_of plan.now.circuit gadget }
    requires row { length row.old ≡ arity_of plan.now.circuit gadget }
    requires sums { length sums.old ≡ arity_of plan.now.circuit gadget }
    requires room { AreOfAtMost 1 sums.old }
    ensures sums { (joint seeds : List ℕ) → reading.now.publics.now ≡ publics_of plan.now joint → AreSums [] seeds weights.now gadget sums.old → AreSums (calls_of plan.now.circuit (with_answers reading.now.x.now joint reading.now.unit reading.now.answers.now)) seeds weights.now gadget sums.new }
    ensures room { AreOfAtMost 32761 sums.new }
{
    laws::is_within_limits(plan);
    for call in 0..plan.call_count() {
        if plan.call_gadget(call) == gadget {
            let number = plan.call_number(call) as usize;
            let weight = weights[number];
            add_call(plan, call, reading, weight, row, sums);
        }
    }
}

/// Adds the inputs of a call, each times the weight of the call's point.
fn add_call(plan: &Plan, call: u32, reading: &Reading, weight: Fe, row: &mut [Fe], sums: &mut [Sum])
    requires call { call < call_count plan.now.circuit }
    requires publics { length reading.now.publics.now ≡ length plan.now.steps }
    requires x { length reading.now.x.now ≡ plan.now.circuit.meas }
    requires answers { length reading.now.answers.now ≡ call_count plan.now.circuit }
    requires row { length row.old ≡ arity_of plan.now.circuit (call_gadget plan.now.circuit call) }
    requires sums { length sums.old ≡ length row.old }
    requires room { AreOfAtMost 4294967295 sums.old }
    ensures sums { (joint : List ℕ) → reading.now.publics.now ≡ publics_of plan.now joint → HasGrown plan.now.circuit (with_answers reading.now.x.now joint reading.now.unit reading.now.answers.now) call weight sums.old sums.new }
    ensures room { (products : ℕ) → AreOfAtMost products sums.old → AreOfAtMost (products + 1) sums.new }
{
    plan.inputs(
        call,
        reading.publics,
        reading.x,
        reading.answers,
        reading.unit,
        row,
    );
    add_row(weight, row, sums);
}

/// Adds to each sum the product of the weight and a word of the row.
fn add_row(weight: Fe, row: &[Fe], sums: &mut [Sum])
    requires row { length row.now ≡ length sums.old }
    requires room { AreOfAtMost 4294967295 sums.old }
    ensures { HasRow (length sums.new) weight row.now sums.old sums.new }
{
    for (j, sum) in sums.iter_mut().enumerate() {
        sum.add_product(weight, row[j]);
    }
}

/// Writes the word of each sum.
fn write_words(sums: &[Sum], out: &mut [Fe])
    requires out { length out.old ≡ length sums.now }
    requires room { AreOfAtMost 4294967295 sums.now }
    ensures { (j : ℕ) → j < length out.new → slice_index out.new j ≡ slice_index sums.now j % modulus }
{
    for (j, word) in out.iter_mut().enumerate() {
        *word = sums[j].word();
    }
}
