ghost use Rattle.std.specs.Prelude.{◌≡◌};
ghost use Rattle.crs_outcomes.specs.Status.{code_of, ended_as};

/// What a call of the program answers.
#[derive(Clone, Copy, Debug, PartialEq, Eq)]
pub enum Status {
    Done,
    Refusals,
    Words,
    Rejected,
    ReadFault,
    WriteFault,
    Memory,
    TooLong,
}

impl Status {
    pub fn code(self) -> u8
        ensures { result ≡ code_of self }
    {
        match self {
            Status::Done => 0,
            Status::Refusals => 1,
            Status::Words => 2,
            Status::Rejected => 3,
            Status::ReadFault => 4,
            Status::WriteFault => 5,
            Status::Memory => 6,
            Status::TooLong => 7,
        }
    }
}

/// The status of a log that was read to its end.
pub fn end_status(refused: bool) -> Status
    ensures { result ≡ ended_as refused }
{
    if refused {
        Status::Refusals
    } else {
        Status::Done
    }
}
