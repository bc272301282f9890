// How the program ends.
ghost use Rattle.std.specs.Prelude.{◌≡◌};
ghost use Rattle.wx_replay.specs.Writes.{code_of};

/// How a call of the program ended.
#[derive(Clone, Copy, Debug, PartialEq, Eq)]
pub enum Status {
    /// A run ended with Ok, and what is due of it was written.
    Done,
    /// A run ended with an error other than want of memory, and what is due of it was written.
    Critical,
    /// The words ask for nothing that there is.
    Usage,
    /// What was read is no script, or too long for one, and this was written.
    NoScript,
    /// A read failed.
    ReadFault,
    /// A write failed.
    WriteFault,
    /// There was no memory.
    Memory,
}

impl Status {
    /// The number by which the program ends, from 0 to 6.
    pub fn code(self) -> u8
        ensures { result ≡ code_of self }
    {
        match self {
            Status::Done => 0,
            Status::Critical => 1,
            Status::Usage => 2,
            Status::NoScript => 3,
            Status::ReadFault => 4,
            Status::WriteFault => 5,
            Status::Memory => 6,
        }
    }
}
