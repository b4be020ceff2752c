//! What parallel pieces of work pass before they begin.

/// What each parallel piece of work passes once before it begins, named by the piece's number. A
/// gate changes no result: it exists so that a test can see two pieces at work at one time.
pub trait Gate: Sync {
    fn pass(&self, piece: u32);
}

/// The gate that lets every piece through at once.
#[derive(Clone, Copy, Debug, Default)]
pub struct NoGate;

impl Gate for NoGate {
    fn pass(&self, _piece: u32) {}
}
