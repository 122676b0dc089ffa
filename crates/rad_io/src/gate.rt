// What stands between the steps of threads.

/// Is called by threads between their steps, so that a test may hold one of them until another has come
/// somewhere. It changes nothing.
pub trait Gate: Sync {
    /// Reader `reader` has made `done` attempts, and is about to make one more.
    fn between_reads(&self, reader: u32, done: u32);

    /// The driver is about to publish tick `next`.
    fn between_ticks(&self, next: u64);
}

/// Holds nobody.
#[derive(Clone, Copy, Debug, PartialEq, Eq)]
pub struct OpenGate;

impl Gate for OpenGate {
    fn between_reads(&self, _reader: u32, _done: u32) {}

    fn between_ticks(&self, _next: u64) {}
}
