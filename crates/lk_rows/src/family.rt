// The families of rows.

ghost use Rattle.std.specs.Prelude.{◌≡◌};
ghost use Rattle.lk_rows.specs.Family.{family_of};

use crate::parts::Pc;

/// A family of rows: the rows that one crate makes.
#[derive(Clone, Copy, Debug, PartialEq, Eq)]
pub enum Family {
    /// The rows of `lk_spin`, on the word alone: the fast path, the try, the test-and-set loop,
    /// the pending path and the release outside mode `pv`.
    Spin,
    /// The rows of `lk_queue`: the queue, and a waiter without a node.
    Queue,
    /// The rows of `lk_cna`: a queue head chooses its successor and hands off.
    Cna,
    /// The rows of `lk_pv`: the paravirtual lock.
    Pv,
    /// The rows of `lk_rw`: readers and writers.
    Rw,
}

impl Pc {
    /// The family of the row.
    #[inline]
    pub fn family(self) -> Family
        ensures { result ≡ family_of self }
    {
        use Pc::*;
        match self {
            F1 | T1 | T2 | U1 | V1 | V2 | P0 | P1 | P2 | P3 | P4 => Family::Spin,
            G1 | G2 | G3 | G4 | G5 | G6 | G7 | G8 | G9 | G10 | G11 | N1 | N2 => Family::Queue,
            C1 | C2 | C3 | C4 | C5 | C6 | C7 | C8 | C9 | C10 => Family::Cna,
            H1 | H2 | W1 | W2 | W3 | W4 | W5 | W6 | W7 => Family::Pv,
            E1 | E2 | E3 | E4 | E5 | E6 | E7 | E8 | E9 | E10 | E11 | E12 => Family::Pv,
            E13 | E14 | E15 | K1 | K2 | K3 | U2 | U3 | U4 | U5 => Family::Pv,
            R1 | R2 | R3 | R4 | R5 | Y1 | Y2 | Y3 | Z1 => Family::Rw,
            Wr1 | Wr2 | Wr3 | Wr4 | Wr5 | Wr6 | Y4 | Y5 | Z2 => Family::Rw,
        }
    }
}
