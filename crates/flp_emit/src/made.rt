//! What is made of a circuit so far.
ghost use Rattle.std.specs.Prelude.{◌≡◌, IfOk};
ghost use Rattle.flp_emit.specs.Emitting.{AppendsCall};

use crate::Memory;
use crate::code::CallForms;
use flp_forms::{Forms, Steps};

/// The public values so far, the calls so far, and the forms of their inputs.
#[derive(Drop)]
pub(crate) struct Made {
    pub steps: Steps,
    pub calls: Vec<CallForms>,
    pub inputs: Forms,
}

/// The forms of the checks and outs so far.
#[derive(Drop)]
pub(crate) struct Done {
    pub checks: Forms,
    pub outs: Forms,
}

/// Appends a call of a gadget with these forms as its inputs, and answers the call's number.
pub(crate) fn append_call(made: &mut Made, gadget: u32, forms: &Forms) -> Result<u32, Memory>
    ensures { IfOk result (λ number. AppendsCall made.old made.new gadget forms.now number) }
{
    let number = small(made.calls.len())?;
    let first = small(made.inputs.len())?;
    made.inputs.append(forms)?;
    let end = small(made.inputs.len())?;
    made.calls.push(CallForms { gadget, first, end })?;
    Ok(number)
}

/// A length as a number of 32 bits: a longer list counts as want of memory.
fn small(len: usize) -> Result<u32, Memory>
    ensures { IfOk result (λ number. number ≡ len) }
{
    u32::try_from(len).map_err(|_| Memory)
}
