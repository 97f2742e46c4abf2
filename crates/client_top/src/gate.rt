/// Where each worker stands before each of its leases.
pub trait Gate {
    fn stand(&self, worker: u32);
}

/// A gate that lets each pass.
pub struct NoGate;

impl Gate for NoGate {
    fn stand(&self, _worker: u32) {}
}
