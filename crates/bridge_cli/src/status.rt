// How a command ended, as the exit status says it.
ghost use Rattle.std.specs.Prelude.{◌≡◌};

/// How a command ended.
#[derive(Clone, Copy, Debug, PartialEq, Eq)]
pub enum Status {
    /// The work was done.
    Done,
    /// The input is refused.
    Refused,
    /// The words are no command.
    Usage,
    /// The input failed.
    ReadFault,
    /// The output failed.
    WriteFault,
    /// The slot failed.
    SlotFault,
    /// The slot holds no state.
    StateBad,
    /// Memory ran out.
    Memory,
    /// A pair that is kept isn't right.
    Mismatch,
}

impl Status {
    ghost use Rattle.bridge_cli.specs.Status.{code_of};

    /// The exit status of the program, 0 to 8.
    pub fn code(&self) -> u8
        ensures { result ≡ code_of self.now }
    {
        match self {
            Status::Done => 0,
            Status::Refused => 1,
            Status::Usage => 2,
            Status::ReadFault => 3,
            Status::WriteFault => 4,
            Status::SlotFault => 5,
            Status::StateBad => 6,
            Status::Memory => 7,
            Status::Mismatch => 8,
        }
    }
}
