//! A range, and its parts, one for each worker.
ghost use Rattle.std.specs.Prelude.{◌≡◌, ◌+◌, ◌-◌, ◌*◌, ◌/◌, ◌<◌, ◌≤◌};

/// The numbers that all workers of a run share.
#[derive(Clone, Copy)]
pub(crate) struct Span {
    pub(crate) workers: u32,
    pub(crate) lo: u32,
    pub(crate) hi: u32,
}

/// From where to where a worker walks before all others do. The parts of all workers, one after another, are the range.
pub(crate) fn part_of(span: Span, worker: u32) -> (u32, u32)
    requires range { span.lo ≤ span.hi }
    requires worker { worker < span.workers }
    ensures order { (span.lo ≤ result.0) × (result.0 ≤ result.1) × (result.1 ≤ span.hi) }
    ensures start { result.0 ≡ span.lo + (span.hi - span.lo) * worker / span.workers }
    ensures end { result.1 ≡ span.lo + (span.hi - span.lo) * (worker + 1) / span.workers }
{
    (start_of(span, worker), start_of(span, worker + 1))
}

/// Where the part of a worker begins, and that of the worker before it ends.
fn start_of(span: Span, worker: u32) -> u32
    requires range { span.lo ≤ span.hi }
    requires worker { (worker ≤ span.workers) × (1 ≤ span.workers) }
    ensures to { result ≤ span.hi }
    ensures spread { result ≡ span.lo + (span.hi - span.lo) * worker / span.workers }
{
    span.lo + ((span.hi - span.lo) as u64 * worker as u64 / span.workers as u64) as u32
}
