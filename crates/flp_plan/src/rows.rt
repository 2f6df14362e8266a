//! What the wires of a gadget run through, row by row: a row has the values of all wires at one point of the domain.
ghost use Rattle.std.specs.Prelude.{◌≡◌, ℕ, ◌*◌, ◌<◌, List, length};
ghost use Rattle.flp_meaning.specs.Circuit.{calls_of, with_answers};
ghost use Rattle.flp_meaning.specs.Gadgets.{arity_of, size_of, call_count, call_gadget};
ghost use Rattle.flp_plan.specs.View.{publics_of, HasInputs};
ghost use Rattle.flp_plan.specs.Rows.{HasRows};

use crate::laws;
use crate::plan::Plan;
use crate::reading::Reading;
use flp_field::Fe;

impl Plan {
    /// Writes the rows of a gadget: its seeds, the inputs of each of its calls, and zeros at the points that are
    /// left.
    ///
    /// `seeds` has a word for each input, and `rows` a place for each input at each point of the domain.
    pub fn rows(&self, gadget: u32, reading: &Reading, seeds: &[Fe], rows: &mut [Fe])
        requires gadget { gadget < length self.now.circuit.gadgets }
        requires publics { length reading.now.publics.now ≡ length self.now.steps }
        requires x { length reading.now.x.now ≡ self.now.circuit.meas }
        requires answers { length reading.now.answers.now ≡ call_count self.now.circuit }
        requires seeds { length seeds.now ≡ arity_of self.now.circuit gadget }
        requires room { length rows.old ≡ size_of self.now.circuit gadget * arity_of self.now.circuit gadget }
        ensures { (joint : List ℕ) → reading.now.publics.now ≡ publics_of self.now joint → HasRows self.now.circuit (calls_of self.now.circuit (with_answers reading.now.x.now joint reading.now.unit reading.now.answers.now)) seeds.now gadget rows.new }
    {
        laws::is_within_limits(self);
        let arity = self.arity(gadget);
        rows.fill(Fe::ZERO);
        rows[..arity].copy_from_slice(seeds);
        for call in 0..self.call_count() {
            if self.call_gadget(call) == gadget {
                let start = self.call_number(call) as usize * arity;
                self.write_inputs(call, reading, &mut rows[start..start + arity]);
            }
        }
    }

    /// Writes the inputs of a call.
    fn write_inputs(&self, call: u32, reading: &Reading, row: &mut [Fe])
        requires call { call < call_count self.now.circuit }
        requires publics { length reading.now.publics.now ≡ length self.now.steps }
        requires x { length reading.now.x.now ≡ self.now.circuit.meas }
        requires answers { length reading.now.answers.now ≡ call_count self.now.circuit }
        requires room { length row.old ≡ arity_of self.now.circuit (call_gadget self.now.circuit call) }
        ensures { (joint : List ℕ) → reading.now.publics.now ≡ publics_of self.now joint → HasInputs self.now.circuit (with_answers reading.now.x.now joint reading.now.unit reading.now.answers.now) call row.new }
    {
        self.inputs(
            call,
            reading.publics,
            reading.x,
            reading.answers,
            reading.unit,
            row,
        );
    }
}
