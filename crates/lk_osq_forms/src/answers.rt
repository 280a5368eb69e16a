// What the reader of a schedule answers.

/// What an accepted line of a schedule says.
#[derive(Clone, Copy, Debug, PartialEq, Eq)]
pub enum Sched {
    /// Nothing: the line is blank or a comment.
    Blank,
    /// One act, made `times` times, at least once. With `give` the processor is asked to give up,
    /// else it makes its row.
    Run { give: bool, cpu: u32, times: u64 },
    /// The schedule ends.
    End,
}
