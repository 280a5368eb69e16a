// The order in which the lines of a grammar stand, by their ranks. The line of the format has rank 0:
// it is the first, and a second one is `Repeated` wherever it stands.
ghost use Rattle.std.specs.Prelude.{◌≡◌};
ghost use Rattle.lk_forms.specs.Ranks.{is_misplaced, is_repeated, fault_of_ranks};

use crate::answers::Fault;

/// The order of the lines of a grammar.
#[derive(Clone, Copy)]
pub struct Order {
    /// Whether the line of rank 1 comes first behind the format.
    pub begins: bool,
    /// The lines of ranks 1 up to this may stand once.
    pub once: u32,
    /// The rank of the line that ends the header, and stands once. Only lines behind it have higher
    /// ranks.
    pub go: u32,
    /// The rank of the last line.
    pub end: u32,
}

impl Order {
    /// What is wrong with the place of a line of a rank behind the lines up to one of rank `last`.
    pub fn fault(self, last: u32, rank: u32) -> Option<Fault>
        ensures { result ≡ fault_of_ranks self last rank }
    {
        if rank == 0 {
            Some(Fault::Repeated)
        } else if self.is_misplaced(last, rank) {
            Some(Fault::Misplaced)
        } else if self.is_repeated(last, rank) {
            Some(Fault::Repeated)
        } else {
            None
        }
    }

    // Whether a line of a rank may not stand behind the lines up to one of rank `last`.
    fn is_misplaced(self, last: u32, rank: u32) -> bool
        ensures { result ≡ is_misplaced self last rank }
    {
        let before_first = self.begins && last == 0 && rank != 1;
        let too_late = rank < last;
        let too_early = last < self.go && rank > self.go;
        let second_go = last == self.go && rank == self.go;
        before_first || too_late || too_early || second_go || last == self.end
    }

    // Whether a line of a rank that may stand once comes a second time.
    fn is_repeated(self, last: u32, rank: u32) -> bool
        ensures { result ≡ is_repeated self last rank }
    {
        rank == last && (1..=self.once).contains(&rank)
    }
}
