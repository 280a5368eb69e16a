// The first words of the lines, and where such a line may stand.
ghost use Rattle.std.specs.Prelude.{◌≡◌};
ghost use Rattle.lk_osq_forms.specs.Keywords.{keyword_of, rank_of, fault_of_place};

use lk_forms::{Fault, Order};

/// The first word of a line.
#[derive(Clone, Copy)]
pub(crate) enum Keyword {
    /// `qosq`: the format.
    Format,
    /// `cpus`: how many processors there are.
    Cpus,
    /// `prog`: how many rounds a processor has.
    Prog,
    /// `go`: the header ends.
    Go,
    /// `step`: steps of a processor.
    Step,
    /// `give`: a processor is asked to give up.
    Give,
    /// `end`: the schedule ends.
    End,
}

/// The rank of the line `go`.
pub(crate) const GO_RANK: u32 = 3;

/// The rank of the line `end`.
pub(crate) const END_RANK: u32 = 5;

// `cpus` stands once, and only the schedule stands behind `go`.
const ORDER: Order = Order {
    begins: false,
    once: 1,
    go: GO_RANK,
    end: END_RANK,
};

impl Keyword {
    /// The keyword that a word is, if it is one.
    pub fn of(word: &[u8]) -> Option<Keyword>
        ensures { result ≡ keyword_of word.now }
    {
        match word {
            b"step" => Some(Keyword::Step),
            b"give" => Some(Keyword::Give),
            b"end" => Some(Keyword::End),
            b"prog" => Some(Keyword::Prog),
            b"cpus" => Some(Keyword::Cpus),
            b"go" => Some(Keyword::Go),
            b"qosq" => Some(Keyword::Format),
            _ => None,
        }
    }

    /// Lines come in the order of their ranks.
    pub fn rank(self) -> u32
        ensures { result ≡ rank_of self }
    {
        match self {
            Keyword::Format => 0,
            Keyword::Cpus => 1,
            Keyword::Prog => 2,
            Keyword::Go => 3,
            Keyword::Step | Keyword::Give => 4,
            Keyword::End => 5,
        }
    }

    /// What is wrong with the place of a line behind the lines up to one of rank `last`.
    pub fn fault_of_place(self, last: u32) -> Option<Fault>
        ensures { result ≡ fault_of_place last self }
    {
        ORDER.fault(last, self.rank())
    }
}
