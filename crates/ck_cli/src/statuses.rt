//! The exit statuses.
ghost use Rattle.std.specs.Prelude.{◌≡◌};
ghost use Rattle.ck_cli.specs.Statuses.{code_of};

/// How a run of the checker ended.
#[derive(Clone, Copy)]
pub enum Status {
    /// No walk meets an alarm.
    Accepted,
    /// A walk meets an alarm.
    Rejected,
    /// The project has something that is refused.
    Refused,
    /// The words are no command.
    Usage,
    /// A call on the folder failed.
    ReadFault,
    /// A call on the sink failed.
    WriteFault,
    /// Memory ran out.
    OutOfMemory,
}

impl Status {
    /// The number that the program exits with (docs/REPORT.md); 4 is kept for faults of the settings.
    pub fn code(self) -> u8
        ensures { result ≡ code_of self }
    {
        match self {
            Status::Accepted => 0,
            Status::Rejected => 1,
            Status::Refused => 2,
            Status::Usage => 3,
            Status::ReadFault => 5,
            Status::WriteFault => 6,
            Status::OutOfMemory => 7,
        }
    }
}
