/// A gate that each worker enters after it claimed a job and before it runs it. No call takes
/// memory.
pub trait Gate {
    /// Tells of the job: who runs it, its kind's number, and its glyph's or lookup's number, its
    /// tag's four bytes as one big-endian number, or 0.
    fn enter(&self, worker: u32, kind: u8, number: u32);
}

/// The gate that is always open.
#[derive(Clone, Copy, Debug, PartialEq, Eq)]
pub struct OpenGate;

impl Gate for OpenGate {
    /// Does nothing.
    fn enter(&self, _worker: u32, _kind: u8, _number: u32) {}
}
