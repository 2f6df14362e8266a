//! The lines that are written.
ghost use Rattle.std.specs.Prelude.{◌≡◌, IfOk};
ghost use Rattle.flp_verify.specs.Numbers.{counts_in};
ghost use Rattle.flp_trial.specs.Text.{summary_lines};

use crate::Memory;
use flp_lengths::push_number_line;
use flp_verdict::push_aggregate;
use flp_verify::Summary;
use std::alloc::Global;

/// The lines of a summary: how many records have each verdict, and the words of the aggregate.
pub(crate) fn make_lines(alloc: Global, summary: &Summary) -> Result<Vec<u8>, Memory>
    ensures { IfOk result (λ text. text.items ≡ summary_lines (counts_in summary.now.numbers) summary.now.totals) }
{
    let numbers = summary.numbers;
    let mut text = Vec::new(alloc);
    push_number_line(&mut text, b"accepted", numbers.accepted)?;
    push_number_line(&mut text, b"rejected", numbers.rejected)?;
    push_number_line(&mut text, b"domain", numbers.domain)?;
    push_number_line(&mut text, b"malformed", numbers.malformed)?;
    push_number_line(&mut text, b"replayed", numbers.replayed)?;
    push_aggregate(&mut text, summary.totals.as_slice())?;
    Ok(text)
}
