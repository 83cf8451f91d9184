//! Why a command ends with no output, with the number and the line of each.
ghost use Rattle.std.specs.Prelude.{◌≡◌, ◌≢◌, ◌<◌, ◌≤◌, take};
ghost use Rattle.command_base.specs.Endings.{last_status, number_of, status_line};

use itoa::Buffer;
use kad_base::{NoMemory, put_bytes};

/// The room that the longest line takes: `bad line `, 20 digits and the line feed.
pub const LINE_ROOM: usize = 30;

/// Why a command ends with no output.
#[derive(Clone, Copy, Debug, PartialEq, Eq)]
pub enum Status {
    /// The words are not of the plain form.
    Usage,
    /// This line of the input, counted from 1, is the first that is none of what the command reads: no contact line, or
    /// none that a saved table may go on with.
    BadLine { line: usize },
    /// A receive failed.
    LinkFault,
    /// A read failed.
    SourceFault,
    /// Too many datagrams answered no query.
    Strays,
    /// No line of the input gives a contact to begin with.
    NoSeeds,
    NoMemory,
    /// Nothing was found within the tries.
    Unminted,
    /// The input is longer than 1,048,576 bytes.
    TooLong,
    /// The value that is to be stored isn't the written form of one that may be.
    BadValue,
    /// The input is a saved table that isn't sound.
    Unsound,
    /// The proof of the words doesn't show that the node's own identifier was made.
    BadProof,
}

impl From<NoMemory> for Status {
    ghost use Rattle.std.specs.Prelude.{◌≡◌};
    ghost use Rattle.command_base.specs.declared.status.Status.TheVariants as status;

    ghost from_gives = { λ _ e. e ≡ status.NoMemory };

    fn from(_: NoMemory) -> Self {
        Status::NoMemory
    }
}

/// Puts the line that names a bad line of the input.
fn put_bad_line(room: &mut [u8; LINE_ROOM], line: usize) -> usize
    ensures few { result ≤ 30 }
    ensures written { take result room.new ≡ status_line (Status.BadLine line) }
{
    let mut digits = Buffer::new();
    let front = put_bytes(room, 0, b"bad line ");
    let number = put_bytes(room, front, digits.format(line).as_bytes());
    put_bytes(room, number, b"\n")
}

impl Status {
    /// The exit status.
    pub fn number(&self) -> u8
        ensures number { result ≡ number_of self.now }
        ensures known { (1 < result) × (result ≤ last_status) × (result ≢ 5) × (result ≢ 14) }
    {
        match self {
            Status::Usage => 2,
            Status::BadLine { .. } => 3,
            Status::LinkFault => 4,
            Status::SourceFault => 6,
            Status::Strays => 7,
            Status::NoSeeds => 8,
            Status::NoMemory => 9,
            Status::Unminted => 10,
            Status::TooLong => 11,
            Status::BadValue => 12,
            Status::Unsound => 13,
            Status::BadProof => 15,
        }
    }

    /// Puts the line of the status at the front of the room, and answers how long it is. It takes no memory.
    pub fn put_line(&self, room: &mut [u8; LINE_ROOM]) -> usize
        ensures few { result ≤ 30 }
        ensures written { take result room.new ≡ status_line self.now }
    {
        match self {
            Status::Usage => put_bytes(room, 0, b"usage\n"),
            Status::BadLine { line } => put_bad_line(room, *line),
            Status::LinkFault => put_bytes(room, 0, b"link fault\n"),
            Status::SourceFault => put_bytes(room, 0, b"source fault\n"),
            Status::Strays => put_bytes(room, 0, b"strays\n"),
            Status::NoSeeds => put_bytes(room, 0, b"no seeds\n"),
            Status::NoMemory => put_bytes(room, 0, b"no memory\n"),
            Status::Unminted => put_bytes(room, 0, b"unminted\n"),
            Status::TooLong => put_bytes(room, 0, b"too long\n"),
            Status::BadValue => put_bytes(room, 0, b"bad value\n"),
            Status::Unsound => put_bytes(room, 0, b"unsound\n"),
            Status::BadProof => put_bytes(room, 0, b"bad proof\n"),
        }
    }
}
