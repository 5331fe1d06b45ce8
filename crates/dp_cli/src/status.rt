ghost use Rattle.std.specs.Prelude.{◌≡◌};
ghost use Rattle.dp_cli.specs.Status.{status_code};

/// How a call ended.
#[derive(Clone, Copy, Debug, PartialEq, Eq)]
pub enum Status {
    /// The command did its work and put its text.
    Done,
    /// The second file reads, and what it holds is not valid.
    Rejected,
    /// The words ask for no job.
    Usage,
    /// The first file is no model.
    BadModel,
    /// The second file has a line that is not as required.
    BadFile,
    /// A limit is passed.
    TooLarge,
    /// A file could not be read.
    ReadFault,
    /// The text could not be put whole. It comes in place of any other status.
    WriteFault,
    /// Memory ran out.
    NoMemory,
}

impl Status {
    /// The exit status of the program.
    pub fn code(self) -> u8
        ensures { result ≡ status_code self }
    {
        match self {
            Status::Done => 0,
            Status::Rejected => 1,
            Status::Usage => 2,
            Status::BadModel => 3,
            Status::BadFile => 4,
            Status::TooLarge => 5,
            Status::ReadFault => 6,
            Status::WriteFault => 7,
            Status::NoMemory => 8,
        }
    }
}
