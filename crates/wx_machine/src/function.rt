// A function that was begun for a job.

/// A function that was begun, and isn't ready yet.
#[derive(Clone, Copy, Debug, PartialEq, Eq)]
pub struct Function {
    /// Its number.
    pub n: u32,
    /// The ticket of the control that began it.
    pub ticket: u64,
}
