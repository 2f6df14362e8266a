//! What a worker passes before its first claim.

/// Is told of each worker once, before the worker's first claim. A test can see by it which workers ran.
pub trait Gate: Sync {
    fn enter(&self, worker: u32);
}

/// A gate that nobody watches.
#[derive(Clone, Copy, Debug)]
pub struct NoGate;

impl Gate for NoGate {
    fn enter(&self, _worker: u32) {}
}
