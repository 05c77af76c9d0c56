// The gate of a program outside tests.
use reg_desk::Gate;

/// A gate that lets each request pass at once.
#[derive(Drop)]
pub struct NoGate;

impl Gate for NoGate {
    fn before_answer(&self, _call: u64) {}
}
