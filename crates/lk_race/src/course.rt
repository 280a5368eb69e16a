// What each thread of a race does, whichever lock it acquires.
ghost use Rattle.std.specs.Prelude.{◌≡◌, ◌≤◌, ◌*◌};

// Under a reader-writer lock the last of so many turns is a writer's, and the others are readers'.
const HUNDRED: u32 = 100;

/// What is done in a race.
#[derive(Clone, Copy)]
pub struct Course {
    /// The number of threads, 1 to 64. Each has a processor.
    pub threads: u32,
    /// How often each thread acquires the lock.
    pub turns: u32,
    ghost some: { 1 ≤ threads },
    ghost few: { threads ≤ 64 },
}

/// Whether this turn under a reader-writer lock is a writer's.
pub fn is_write(turn: u32) -> bool {
    turn % HUNDRED == HUNDRED - 1
}

impl Course {
    /// How often all threads together acquire the lock.
    pub fn all_turns(&self) -> u64
        ensures { result ≡ self.now.threads * self.now.turns }
    {
        u64::from(self.threads) * u64::from(self.turns)
    }

    /// In how many turns under a reader-writer lock each thread is the writer.
    pub fn writes(&self) -> u32 {
        self.turns / HUNDRED
    }

    /// What the numbers are at the end if each thread changed them in `writes` turns, and no change was
    /// lost.
    pub fn changes(&self, writes: u32) -> u64 {
        u64::from(self.threads) * u64::from(writes)
    }
}
