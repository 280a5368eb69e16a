// The first words of the lines, and where such a line may stand.
ghost use Rattle.std.specs.Prelude.{◌≡◌};
ghost use Rattle.lk_job_forms.specs.Keywords.{keyword_of, rank_of, fault_of_place};

use lk_forms::{Fault, Order};

/// The first word of a line.
#[derive(Clone, Copy)]
pub(crate) enum Keyword {
    /// `qjobs`: the format.
    Format,
    /// `mode`: the family of the lock.
    Mode,
    /// `guard`: the kind of the lock.
    Guard,
    /// `workers`: how many there are.
    Workers,
    /// `sockets`: where the workers stand.
    Sockets,
    /// `threshold`: the most handoffs that may pass a moved waiter.
    Threshold,
    /// `accounts`: the opening balances.
    Accounts,
    /// `job`: one more job of a worker.
    Job,
    /// `end`: the file ends.
    End,
}

/// The rank of the line `end`.
pub(crate) const END_RANK: u32 = 8;

// `mode` comes first, the lines up to `accounts` stand once, and none stands behind `end`.
const ORDER: Order = Order {
    begins: true,
    once: 6,
    go: END_RANK,
    end: END_RANK,
};

impl Keyword {
    /// The keyword that a word is, if it is one.
    pub fn of(word: &[u8]) -> Option<Keyword>
        ensures { result ≡ keyword_of word.now }
    {
        match word {
            b"job" => Some(Keyword::Job),
            b"end" => Some(Keyword::End),
            b"qjobs" => Some(Keyword::Format),
            b"mode" => Some(Keyword::Mode),
            b"guard" => Some(Keyword::Guard),
            b"workers" => Some(Keyword::Workers),
            b"sockets" => Some(Keyword::Sockets),
            b"threshold" => Some(Keyword::Threshold),
            b"accounts" => Some(Keyword::Accounts),
            _ => None,
        }
    }

    /// Lines come in the order of their ranks.
    pub fn rank(self) -> u32
        ensures { result ≡ rank_of self }
    {
        match self {
            Keyword::Format => 0,
            Keyword::Mode => 1,
            Keyword::Guard => 2,
            Keyword::Workers => 3,
            Keyword::Sockets => 4,
            Keyword::Threshold => 5,
            Keyword::Accounts => 6,
            Keyword::Job => 7,
            Keyword::End => 8,
        }
    }

    /// What is wrong with the place of a line behind the lines up to one of rank `last`.
    pub fn fault_of_place(self, last: u32) -> Option<Fault>
        ensures { result ≡ fault_of_place last self }
    {
        ORDER.fault(last, self.rank())
    }
}
