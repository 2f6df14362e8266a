//! Public values in a straight line.
ghost use Rattle.std.specs.Prelude.{◌≡◌, ℕ, List, ◌+◌, ◌*◌, ◌^◌, ◌<◌, ◌≤◌, length, map, IfOk, OnErr, IfSome, slice_index};
ghost use Rattle.std.specs.List.{range_with_len};
ghost use Rattle.flp_forms.specs.PublicValues.{step_value, publics, public_at, residues, StepFits};
ghost use Rattle.flp_forms.specs.StraightLine.{Grows, StandsFor, ScalesBy};
ghost use Rattle.flp_forms.specs.LinearForms.{scale_value, ScaleFits};

use crate::Memory;
use crate::step::{Step, WordPower, value_of};
use crate::term::Scale;
use flp_field::{Fe, MODULUS};
use std::alloc::Global;
use std::marker::Model;

/// The places of the table of steps: 2^16.
const PLACES: usize = 65_536;

/// 2^64 divided by the golden ratio: multiples of it are spread evenly, modulo 2^64.
const SPREAD: u64 = 0x9E37_79B9_7F4A_7C15;

/// Public values in a straight line: a list of steps, each of which reads earlier ones.
///
/// The first steps are the joint words, one step each. Every other call asks first whether the step that it
/// would append is there already, and appends one step at most. It asks a table of a fixed size, which forgets a
/// step where another comes to its place: so equal steps are one as far as the table remembers, and asking takes the
/// same short time whatever the steps are.
///
/// Contracts see the number of joint words and the list of steps.
#[derive(Drop)]
pub struct Steps {
    joint: u32,
    items: Vec<Step>,
    /// Where a step may stand. What it tells is looked up before it is used.
    seen: Vec<u32>,
}

impl Model for Steps {
    ghost use Rattle.flp_forms.specs.StraightLine.{StraightLine, IsStraightLine};

    ghost Value = { StraightLine };

    ghost view = { λ steps. record { joint = steps.joint; steps = steps.items.items } };

    ghost invariant = { λ steps. IsStraightLine steps.joint steps.items.items };
}

impl Steps {
    /// The joint words, as the first steps. It takes memory for them and for the table.
    pub fn new(alloc: Global, joint: u32) -> Result<Steps, Memory>
        ensures joint { IfOk result (λ line. line.joint ≡ joint) }
        ensures steps { IfOk result (λ line. line.steps ≡ map (λ word. Step.Joint word) (range_with_len 0 joint)) }
    {
        let mut items = Vec::with_capacity(alloc, joint as usize)?;
        for word in 0..joint {
            items.push(Step::Joint(word))?;
        }
        Ok(Steps {
            joint,
            items,
            seen: vec![in alloc; 0; PLACES]?,
        })
    }

    /// The same steps without the table by which equal steps are found, once all of them are there.
    pub fn finish(self, alloc: Global) -> Steps
        ensures { result ≡ self }
    {
        let Steps { joint, items, .. } = self;
        Steps {
            joint,
            items,
            seen: Vec::new(alloc),
        }
    }

    /// The number of public values.
    pub fn len(&self) -> u32
        ensures { result ≡ length self.now.steps }
    {
        self.items.len() as u32
    }

    /// The number of joint words.
    pub fn joint_len(&self) -> u32
        ensures { result ≡ self.now.joint }
    {
        self.joint
    }

    /// The step of this joint word. It takes no memory.
    pub fn joint(&self, word: u32) -> u32
        requires { word < self.now.joint }
        ensures { StandsFor self.now result (λ joint. slice_index joint word) }
    {
        let _steps = &self.items;
        word
    }

    /// A step of this value.
    pub fn constant(&mut self, value: Fe) -> Result<u32, Memory>
        ensures grows { Grows self.old self.new }
        ensures few { length self.new.steps ≤ length self.old.steps + 1 }
        ensures value { IfOk result (λ step. StandsFor self.new step (λ _. value)) }
        ensures err { OnErr result (self.new ≡ self.old) }
    {
        self.place(&Step::Constant(value))
    }

    /// A step of the sum of the values of two steps.
    pub fn sum(&mut self, left: u32, right: u32) -> Result<u32, Memory>
        requires left { left < length self.old.steps }
        requires right { right < length self.old.steps }
        ensures grows { Grows self.old self.new }
        ensures few { length self.new.steps ≤ length self.old.steps + 1 }
        ensures value { IfOk result (λ step. StandsFor self.new step (λ joint. public_at self.old.steps left joint + public_at self.old.steps right joint)) }
        ensures err { OnErr result (self.new ≡ self.old) }
    {
        self.place(&Step::Sum(left, right))
    }

    /// A step of the product of the values of two steps.
    pub fn product(&mut self, left: u32, right: u32) -> Result<u32, Memory>
        requires left { left < length self.old.steps }
        requires right { right < length self.old.steps }
        ensures grows { Grows self.old self.new }
        ensures few { length self.new.steps ≤ length self.old.steps + 1 }
        ensures value { IfOk result (λ step. StandsFor self.new step (λ joint. public_at self.old.steps left joint * public_at self.old.steps right joint)) }
        ensures err { OnErr result (self.new ≡ self.old) }
    {
        self.place(&Step::Product(left, right))
    }

    /// A step of the value of a step to a power, which is 1 where the exponent is 0.
    pub fn power(&mut self, base: u32, exponent: u32) -> Result<u32, Memory>
        requires { base < length self.old.steps }
        ensures grows { Grows self.old self.new }
        ensures few { length self.new.steps ≤ length self.old.steps + 1 }
        ensures value { IfOk result (λ step. StandsFor self.new step (λ joint. public_at self.old.steps base joint ^ exponent)) }
        ensures err { OnErr result (self.new ≡ self.old) }
    {
        if exponent == 1 {
            return Ok(base);
        }
        self.place(&Step::Power(base, exponent))
    }

    /// The coefficient with the value of a step: 1 or -1 where the step is that constant, and then it takes no product.
    pub fn scale_of(&self, step: u32) -> Scale
        requires { step < length self.now.steps }
        ensures { ScalesBy self.now result (λ joint. public_at self.now.steps step joint) }
    {
        if let Step::Constant(word) = &self.items[step as usize] {
            if word.value() == 1 {
                return Scale::One;
            }
            if word.value() == MODULUS - 1 {
                return Scale::MinusOne;
            }
        }
        Scale::Value(step)
    }

    /// The coefficient that is the product of two. After want of memory there may be new steps.
    pub fn scale_product(&mut self, left: Scale, right: Scale) -> Result<Scale, Memory>
        requires left { ScaleFits (length self.old.steps) left }
        requires right { ScaleFits (length self.old.steps) right }
        ensures grows { Grows self.old self.new }
        ensures few { length self.new.steps ≤ length self.old.steps + 3 }
        ensures value { IfOk result (λ scale. ScalesBy self.new scale (λ joint. scale_value (publics self.old.steps joint) left * scale_value (publics self.old.steps joint) right)) }
    {
        match (left, right) {
            (Scale::One, scale) | (scale, Scale::One) => Ok(scale),
            (left, right) => {
                let first = self.step_of(left)?;
                let second = self.step_of(right)?;
                let product = self.product(first, second)?;
                Ok(Scale::Value(product))
            }
        }
    }

    /// Writes the public values under these joint words to `out`, which has as many places as there are steps.
    pub fn run(&self, joint: &[Fe], out: &mut [Fe])
        requires words { length joint.now ≡ self.now.joint }
        requires size { length out.old ≡ length self.now.steps }
        ensures { out.new ≡ residues (publics self.now.steps joint.now) }
    {
        let mut last = WordPower::first();
        for (i, step) in self.items.iter().enumerate() {
            out[i] = value_of(*step, joint, &out[..i], &mut last);
        }
    }

    /// A step of the value of a coefficient.
    fn step_of(&mut self, scale: Scale) -> Result<u32, Memory>
        requires { ScaleFits (length self.old.steps) scale }
        ensures grows { Grows self.old self.new }
        ensures few { length self.new.steps ≤ length self.old.steps + 1 }
        ensures value { IfOk result (λ step. StandsFor self.new step (λ joint. scale_value (publics self.old.steps joint) scale)) }
    {
        match scale {
            Scale::One => self.constant(Fe::ONE),
            Scale::MinusOne => self.constant(Fe::ONE.neg()),
            Scale::Value(step) => Ok(step),
        }
    }

    /// Where this step stands, which is appended if it is not there.
    fn place(&mut self, step: &Step) -> Result<u32, Memory>
        requires { StepFits self.old.joint (length self.old.steps) step.now }
        ensures grows { Grows self.old self.new }
        ensures few { length self.new.steps ≤ length self.old.steps + 1 }
        ensures value { IfOk result (λ index. StandsFor self.new index (λ joint. step_value (publics self.old.steps joint) joint step.now)) }
        ensures err { OnErr result (self.new ≡ self.old) }
    {
        if let Some(index) = self.place_of(step) {
            return Ok(index);
        }
        let index = self.items.len() as u32;
        if index == u32::MAX {
            return Err(Memory);
        }
        self.items.push(*step)?;
        self.remember(step, index);
        Ok(index)
    }

    /// Where this step stands, if the table tells.
    fn place_of(&self, step: &Step) -> Option<u32>
        ensures { IfSome result (λ index. StandsFor self.now index (λ joint. step_value (publics self.now.steps joint) joint step.now)) }
    {
        let steps = self.items.as_slice();
        let index = *self.seen.get(table_place(step))?;
        let found = steps.get(index as usize)?;
        if found == step { Some(index) } else { None }
    }

    /// Lets the table tell that this step stands there.
    fn remember(&mut self, step: &Step, index: u32)
        ensures { self.new ≡ self.old }
    {
        let place = table_place(step);
        if place < self.seen.len() {
            self.seen[place] = index;
        }
    }
}

/// Where the table is asked for a step: a number below `PLACES`, spread over all of them.
fn table_place(step: &Step) -> usize {
    let (kind, left, right) = match step {
        Step::Constant(word) => (1, word.value(), 0),
        Step::Joint(index) => (2, u64::from(*index), 0),
        Step::Sum(left, right) => (3, u64::from(*left), u64::from(*right)),
        Step::Product(left, right) => (4, u64::from(*left), u64::from(*right)),
        Step::Power(base, exponent) => (5, u64::from(*base), u64::from(*exponent)),
    };
    let first = left.wrapping_add(kind).wrapping_mul(SPREAD);
    let both = (first ^ right).wrapping_mul(SPREAD);
    (both >> 48) as usize
}
