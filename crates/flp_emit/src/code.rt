//! The code of a circuit.
use flp_forms::{Forms, Steps};
use flp_list::List;

/// A call of a gadget: the gadget's number, and where the forms of its inputs stand among those of all calls, from
/// `first` on, up to `end`.
#[derive(Clone, Copy, PartialEq, Eq, Debug)]
pub struct CallForms {
    pub gadget: u32,
    pub first: u32,
    pub end: u32,
}

/// The code of a circuit: public values, and linear forms over them.
///
/// `calls` has the calls in their order: inner ones first, then from left to right, with loops unrolled. `inputs`
/// has the forms of their inputs, `checks` a form for each check, `outs` one for each out.
#[derive(Drop)]
pub struct Code {
    pub steps: Steps,
    pub calls: List<CallForms>,
    pub inputs: Forms,
    pub checks: Forms,
    pub outs: Forms,
}
