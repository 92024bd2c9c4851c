ghost use Rattle.std.specs.Prelude.{◌≡◌};
ghost use Rattle.cvr_run.specs.Status.{code_of};

/// How a run ended, least bad first.
#[derive(Clone, Copy, Debug, PartialEq, Eq)]
pub enum Status {
    /// Everything was accepted and printed.
    Done,
    /// Something was refused; the rest was done and printed.
    Refused,
    /// The words of the command line were refused.
    CommandLine,
    /// A device failed.
    Device,
    /// Out of memory.
    Memory,
}

impl Status {
    /// The exit status of the program, 0 to 4. Takes no memory.
    pub fn code(&self) -> u8
        ensures { result ≡ code_of self.now }
    {
        match self {
            Status::Done => 0,
            Status::Refused => 1,
            Status::CommandLine => 2,
            Status::Device => 3,
            Status::Memory => 4,
        }
    }
}
