// What the reader of job files answers.

/// What may follow an accepted line of a job file.
#[derive(Clone, Copy, Debug, PartialEq, Eq)]
pub enum JobStep {
    /// Further lines.
    More,
    /// Only blank lines and comments, since the line `end` was read.
    End,
}
