// What a worker calls around each job.

/// What a worker calls before and after each job, while it holds no lock.
pub trait Gate: Sync {
    /// Called before the job of this number. The jobs of a worker are numbered from 1.
    fn before(&self, worker: u32, number: u32);

    /// Called after the job of this number.
    fn after(&self, worker: u32, number: u32);
}

/// A gate that does nothing.
#[derive(Clone, Copy, Drop)]
pub struct OpenGate;

impl Gate for OpenGate {
    fn before(&self, _worker: u32, _number: u32) {}

    fn after(&self, _worker: u32, _number: u32) {}
}
