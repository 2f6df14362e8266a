//! The sizes of a plan: those of its gadgets, and what it asks of working room.
ghost use Rattle.std.specs.Prelude.{◌≡◌, ℕ, ◌*◌, ◌^◌, ◌<◌, ◌≤◌, length, max, IfOk};
ghost use Rattle.flp_meaning.specs.Gadgets.{arity_of, size_of};
ghost use Rattle.flp_meaning.specs.Lengths.{coefficient_count};
ghost use Rattle.flp_plan.specs.Sizes as asked;

use crate::lengths::Lengths;
use crate::plan::Plan;
use crate::{Memory, laws};
use flp_gadget::Gadget;
use flp_list::List;
use std::alloc::Global;

/// What a plan asks of working room for a gadget.
#[derive(Debug, Clone, Copy, PartialEq, Eq)]
pub struct GadgetSize {
    /// The number of inputs.
    pub arity: u32,
    /// The degree.
    pub degree: u32,
    /// How often it is called.
    pub calls: u32,
}

/// What a plan asks of working room. Room that was made for a plan serves every plan of which these are the sizes.
#[derive(Debug, Drop)]
pub struct Sizes {
    pub lengths: Lengths,
    /// The number of checks.
    pub checks: u32,
    /// The number of public values.
    pub publics: u32,
    pub gadgets: List<GadgetSize>,
}

impl Plan {
    /// The number of inputs of a gadget.
    pub fn arity(&self, gadget: u32) -> usize
        requires { gadget < length self.now.circuit.gadgets }
        ensures inputs { result ≡ arity_of self.now.circuit gadget }
        ensures some { 1 ≤ result }
        ensures few { result ≤ 1024 }
    {
        laws::is_within_limits(self);
        self.kind(gadget).arity()
    }

    /// The number of points of a gadget's domain, a power of two.
    pub fn domain_size(&self, gadget: u32) -> usize
        requires { gadget < length self.now.circuit.gadgets }
        ensures points { result ≡ size_of self.now.circuit gadget }
        ensures few { result ≤ 4096 }
        ensures power { (log : ℕ) × (log ≤ 12) × (result ≡ 2 ^ log) }
    {
        laws::is_within_limits(self);
        1 << self.log(gadget)
    }

    /// The number of coefficients of a gadget's polynomial in a proof.
    pub fn coefficients(&self, gadget: u32) -> usize
        requires { gadget < length self.now.circuit.gadgets }
        ensures count { result ≡ coefficient_count self.now.circuit gadget }
        ensures few { result ≤ 32761 }
        ensures many { size_of self.now.circuit gadget ≤ result }
    {
        laws::is_within_limits(self);
        self.kind(gadget).degree() * (self.domain_size(gadget) - 1) + 1
    }

    /// The words of the rows of a gadget, of which they are the most: a word for each input at each point of its
    /// domain.
    pub fn row_words(&self) -> usize
        ensures enough { (gadget : ℕ) → gadget < length self.now.circuit.gadgets → size_of self.now.circuit gadget * arity_of self.now.circuit gadget ≤ result }
        ensures own { (gadget : ℕ) × (gadget < length self.now.circuit.gadgets) × (result ≡ size_of self.now.circuit gadget * arity_of self.now.circuit gadget) }
    {
        laws::is_within_limits(self);
        let mut most = 0;
        for gadget in 0..self.gadgets() {
            most = larger(most, self.domain_size(gadget) * self.arity(gadget));
        }
        most
    }

    /// What the plan asks of working room. It takes memory for the list of the gadgets.
    pub fn sizes(&self, alloc: Global) -> Result<Sizes, Memory>
        ensures { IfOk result (λ sizes. sizes ≡ asked.sizes_of self.now) }
    {
        let mut gadgets = Vec::new(alloc);
        for gadget in 0..self.gadgets() {
            gadgets.push(self.gadget_size(gadget))?;
        }
        Ok(Sizes {
            lengths: self.lengths(),
            checks: self.checks(),
            publics: self.publics_len(),
            gadgets: List::from_vec(gadgets),
        })
    }

    /// What the plan asks for a gadget.
    fn gadget_size(&self, gadget: u32) -> GadgetSize
        requires { gadget < length self.now.circuit.gadgets }
        ensures { result ≡ asked.gadget_size self.now.circuit gadget }
    {
        laws::is_within_limits(self);
        GadgetSize {
            arity: self.arity(gadget) as u32,
            degree: self.kind(gadget).degree() as u32,
            calls: self.calls(gadget),
        }
    }
}

/// The larger of two numbers.
fn larger(one: usize, other: usize) -> usize
    ensures { result ≡ max one other }
{
    if one < other { other } else { one }
}
