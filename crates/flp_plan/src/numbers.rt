//! The number of each call among the calls of its gadget.
ghost use Rattle.std.specs.Prelude.{◌<◌, ◌^◌, IfOk, All, length};
ghost use Rattle.flp_plan.specs.Numbers.{gadgets_in, AreNumbers};

use flp_emit::CallForms;
use flp_gadget::Memory;
use std::alloc::Global;

/// The number of each call among those of its gadget, from 1, where there are so many gadgets.
pub(crate) fn call_numbers(
    alloc: Global,
    calls: &[CallForms],
    gadgets: usize,
) -> Result<Vec<u32>, Memory>
    requires within { All (λ call. call.gadget < gadgets) calls.now }
    requires few { length calls.now < 2 ^ 32 }
    ensures { IfOk result (λ numbers. AreNumbers (gadgets_in calls.now) numbers.items) }
{
    let mut counts = vec![in alloc; 0; gadgets]?;
    let mut numbers = Vec::with_capacity(alloc, calls.len())?;
    for call in calls {
        let number = counts[call.gadget as usize] + 1;
        counts[call.gadget as usize] = number;
        numbers.push(number)?;
    }
    Ok(numbers)
}
