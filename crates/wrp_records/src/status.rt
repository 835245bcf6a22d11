//! What a run ended with.
ghost use Rattle.std.specs.Prelude.{◌≡◌};
ghost use Rattle.wrp_records.specs.Statuses.{number_of};

/// What a run ended with.
#[derive(Clone, Copy, Debug, PartialEq, Eq)]
pub enum Status {
    /// 0: the input was read to its end.
    Done,
    /// 1: the words are no command, or name a node that the network does not have.
    Usage,
    /// 2: the network text, or the calibration text of a migration, is refused.
    BadNetwork,
    /// 3: a record is not a line of its kind.
    BadTrace,
    /// 4: an event broke a premise.
    Broken,
    /// 5: the source failed.
    ReadFault,
    /// 6: the sink failed.
    WriteFault,
    /// 7: the link failed.
    LinkFault,
    /// 8: the input is too large.
    TooLarge,
    /// 9: memory ran out.
    OutOfMemory,
    /// 10: the capture is refused.
    BadCapture,
    /// 11: a calibration's records give no answer.
    BadCalib,
}

impl Status {
    /// The number that the program ends with.
    pub fn number(self) -> u8
        ensures { result ≡ number_of self }
    {
        match self {
            Status::Done => 0,
            Status::Usage => 1,
            Status::BadNetwork => 2,
            Status::BadTrace => 3,
            Status::Broken => 4,
            Status::ReadFault => 5,
            Status::WriteFault => 6,
            Status::LinkFault => 7,
            Status::TooLarge => 8,
            Status::OutOfMemory => 9,
            Status::BadCapture => 10,
            Status::BadCalib => 11,
        }
    }
}
