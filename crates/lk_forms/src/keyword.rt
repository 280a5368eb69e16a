// The first words of the lines of a trace, and where such a line may stand.
ghost use Rattle.std.specs.Prelude.{◌≡◌};
ghost use Rattle.lk_forms.specs.Keywords.{keyword_of, rank_of, fault_of_place};

use crate::answers::Fault;
use crate::order::Order;

/// The first word of a line of a trace.
#[derive(Clone, Copy)]
pub(crate) enum Keyword {
    /// `qtrace`: the format.
    Format,
    /// `mode`: the lock family.
    Mode,
    /// `cpus`: how many processors there are.
    Cpus,
    /// `sockets`: the socket of each processor.
    Sockets,
    /// `threshold`: how many handoffs may pass a moved waiter, in mode `cna`.
    Threshold,
    /// `spins`: how many polls a waiter makes before it halts, in mode `pv`.
    Spins,
    /// `lock`: one more lock.
    Lock,
    /// `prog`: the program of a processor.
    Prog,
    /// `irq`: one more interrupt handler of a processor.
    Irq,
    /// `go`: the header ends.
    Go,
    /// `step`: steps of a processor.
    Step,
    /// `int`: an interrupt of a processor.
    Int,
    /// `pre`: a processor is preempted.
    Pre,
    /// `res`: a preempted processor goes on.
    Res,
    /// `nudge`: a halt of a processor ends without a kick.
    Nudge,
    /// `end`: the schedule ends.
    End,
}

/// The rank of the line `go`.
pub(crate) const GO_RANK: u32 = 9;

/// The rank of the line `end`.
pub(crate) const END_RANK: u32 = 11;

// `mode` comes first, the lines up to `spins` stand once, and only the schedule stands behind `go`.
const ORDER: Order = Order {
    begins: true,
    once: 5,
    go: GO_RANK,
    end: END_RANK,
};

impl Keyword {
    /// The keyword that a word is, if it is one.
    pub fn of(word: &[u8]) -> Option<Keyword>
        ensures { result ≡ keyword_of word.now }
    {
        match word {
            b"step" => Some(Keyword::Step),
            b"int" => Some(Keyword::Int),
            b"pre" => Some(Keyword::Pre),
            b"res" => Some(Keyword::Res),
            b"nudge" => Some(Keyword::Nudge),
            b"end" => Some(Keyword::End),
            b"prog" => Some(Keyword::Prog),
            b"irq" => Some(Keyword::Irq),
            b"lock" => Some(Keyword::Lock),
            b"go" => Some(Keyword::Go),
            b"qtrace" => Some(Keyword::Format),
            b"mode" => Some(Keyword::Mode),
            b"cpus" => Some(Keyword::Cpus),
            b"sockets" => Some(Keyword::Sockets),
            b"threshold" => Some(Keyword::Threshold),
            b"spins" => Some(Keyword::Spins),
            _ => None,
        }
    }

    /// The rank of a line with this keyword. Lines come in the order of their ranks.
    pub fn rank(self) -> u32
        ensures { result ≡ rank_of self }
    {
        match self {
            Keyword::Format => 0,
            Keyword::Mode => 1,
            Keyword::Cpus => 2,
            Keyword::Sockets => 3,
            Keyword::Threshold => 4,
            Keyword::Spins => 5,
            Keyword::Lock => 6,
            Keyword::Prog => 7,
            Keyword::Irq => 8,
            Keyword::Go => 9,
            Keyword::Step | Keyword::Int | Keyword::Pre | Keyword::Res | Keyword::Nudge => 10,
            Keyword::End => 11,
        }
    }

    /// What is wrong with the place of a line with this keyword, if the line before it that is
    /// neither blank nor a comment has rank `last`.
    pub fn fault_of_place(self, last: u32) -> Option<Fault>
        ensures { result ≡ fault_of_place last self }
    {
        ORDER.fault(last, self.rank())
    }
}
