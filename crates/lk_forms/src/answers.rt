// What the readers of lines answer.
ghost use Rattle.std.specs.Prelude.{◌≡◌};

use lk_names::{Act, Memory};

/// What is wrong with a line, or with the end of the input.
#[derive(Clone, Copy, Debug, PartialEq, Eq)]
pub enum Fault {
    /// The first line that is neither blank nor a comment does not say the format, or there is no
    /// such line.
    NoFormat,
    /// A byte that is not in 0x20 to 0x7e, and is neither a tab nor a carriage return.
    NotText,
    /// A word that the grammar does not have at this place.
    UnknownWord,
    /// Too few or too many words.
    WordCount,
    /// A word that is not a number, where the grammar wants one. A number has 1 to 20 digits and a
    /// value below 2^64.
    BadNumber,
    /// A number outside the range that its place allows.
    OutOfRange,
    /// A line that may not stand at this place.
    Misplaced,
    /// A second line of a kind that may stand once, or a second program of a processor.
    Repeated,
    /// An operation on a lock that is not declared, or is of the other kind.
    WrongLock,
    /// A program acquires or tries a lock that it holds.
    Reheld,
    /// A program releases a lock that it does not hold in the way of the verb.
    NotHeld,
    /// A program ends while it holds a lock.
    StillHeld,
    /// After the release of a tried lock, the program does not hold exactly what it held before the
    /// try. It has to, since a program whose try fails goes on behind that release.
    Crossed,
    /// The input ends before the line `end`.
    NoEnd,
}

/// A limit that was passed.
#[derive(Clone, Copy, Debug, PartialEq, Eq)]
pub enum Which {
    /// More than 4,096 bytes in a line, not counting its line feed.
    Line,
    /// More than 2^30 bytes in the input.
    Input,
    /// More than [`MAX_OPS`](crate::MAX_OPS), that is 64, operations in a program or a handler.
    Words,
    /// More than [`MAX_HANDLERS`](crate::MAX_HANDLERS), that is 16, handlers of a processor.
    Handlers,
    /// More than [`MAX_ACTS`](crate::MAX_ACTS), that is 10^8, acts in a schedule.
    Acts,
    /// More than 100,000 jobs in a job file.
    Jobs,
    /// A sum of opening balances above 2^63 - 1, in a job file.
    Total,
}

/// Why a line is refused.
#[derive(Clone, Copy, Debug, PartialEq, Eq)]
pub enum LineRefusal {
    /// The line breaks a rule of the grammar.
    Bad(Fault),
    /// The line passes a limit.
    Limit(Which),
    /// There is not enough memory for what the line says.
    Memory,
}

impl From<Memory> for LineRefusal {
    ghost use Rattle.lk_forms.specs.declared.answers.LineRefusal.TheVariants.{Memory};

    ghost from_gives = { λ _ why. why ≡ Memory };

    fn from(_: Memory) -> Self {
        LineRefusal::Memory
    }
}

/// What comes after an accepted line of a header.
#[derive(Clone, Copy, Debug, PartialEq, Eq)]
pub enum HeaderStep {
    /// More lines of the header.
    More,
    /// The lines of the schedule, since this line was `go`.
    Go,
}

/// What an accepted line of a schedule says.
#[derive(Clone, Copy, Debug, PartialEq, Eq)]
pub enum Sched {
    /// Nothing: the line is blank or a comment.
    Blank,
    /// An act, and how many times to make it: at least once.
    Run { act: Act, times: u64 },
    /// The schedule ends.
    End,
}
