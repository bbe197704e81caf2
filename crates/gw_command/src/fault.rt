ghost use Rattle.std.specs.Prelude.{◌≡◌};
ghost use Rattle.gw_command.specs.Faults as faults;

/// Why the program ends without its whole text.
#[derive(Clone, Copy, Debug, PartialEq, Eq)]
pub enum Fault {
    /// The words are no command's.
    Usage,
    /// A read failed.
    ReadFailed,
    /// A write failed.
    WriteFailed,
    /// There are more doors than 64.
    TooManyDoors,
    /// Two doors of one Gateway have different addresses.
    TwoAddresses,
    /// Two doors have one Gateway and listener port, or one socket.
    DoorTwice,
    /// A socket couldn't be bound, or an upstream not be had.
    NotBound,
    /// A job couldn't be started.
    NotStarted,
    /// There was no place for those who read.
    NoPlace,
    /// Memory ran out.
    NoMemory,
    /// The input is too long.
    TooLong,
}

/// An exit code, and the line that tells of the cause, which is empty where none is written.
#[derive(Clone, Copy, Debug)]
pub struct Ending {
    pub exit_code: u8,
    pub line: &'static [u8],
}

impl Fault {
    /// How the program ends by the fault.
    pub fn ending(self) -> Ending
        ensures exit_code { result.exit_code ≡ faults.exit_code self }
        ensures line { result.line.now ≡ faults.fault_line self }
    {
        let (exit_code, line): (u8, &'static [u8]) = match self {
            Fault::Usage => (2, b"{\"fault\":\"usage\"}\n"),
            Fault::ReadFailed => (3, b"{\"fault\":\"read\"}\n"),
            Fault::WriteFailed => (4, b""),
            Fault::TooManyDoors => (5, b"{\"fault\":\"TooManyDoors\"}\n"),
            Fault::TwoAddresses => (5, b"{\"fault\":\"TwoAddresses\"}\n"),
            Fault::DoorTwice => (5, b"{\"fault\":\"DoorTwice\"}\n"),
            Fault::NotBound => (5, b"{\"fault\":\"bind\"}\n"),
            Fault::NotStarted => (5, b"{\"fault\":\"start\"}\n"),
            Fault::NoPlace => (5, b"{\"fault\":\"Place\"}\n"),
            Fault::NoMemory => (6, b""),
            Fault::TooLong => (7, b"{\"fault\":\"size\"}\n"),
        };
        Ending { exit_code, line }
    }
}
