// What the program's arguments ask for.

use crate::kinds::{count_named, kind_named};
use crate::rows::row_named;
use lk_reach::{Extras, MAX_HELPERS};
use lk_rows::Pc;
use lk_text::read_number;
use std::alloc::Global;
use std::env;

/// What is sought.
#[derive(Clone, Copy)]
pub(crate) enum Goal {
    /// Nothing: the states are told.
    Overview,
    /// A state at which a step makes this row.
    Row(Pc),
    /// An act that tells an event of this kind.
    Event(usize),
    /// An act that raises this count.
    Count(usize),
    /// A state at which every processor is done.
    Finished,
    /// A state that no act leads on from, and at which not every processor is done.
    Stuck,
    /// A state from which no schedule leads to one at which every processor is done.
    Doomed,
}

/// What the arguments ask for.
#[derive(Drop)]
pub(crate) struct Asked {
    /// The most states that are met.
    pub states: usize,
    /// The most memory, in million bytes.
    pub memory: usize,
    /// On how many threads acts are tried.
    pub threads: usize,
    /// What is tried beside steps and interrupts.
    pub extras: Extras,
    /// Whether one state is kept of those that differ only in the numbers of processors that are
    /// alike.
    pub fold: bool,
    /// Whether nothing is said of how far it is.
    pub quiet: bool,
    /// What is sought.
    pub goal: Goal,
    /// Whose act, and on which declared lock, if that is asked for.
    pub cpu: Option<u32>,
    pub lock: Option<u32>,
}

// A number behind an option.
fn number_of(word: &str) -> Option<usize> {
    let number = read_number(word.as_bytes())?;
    usize::try_from(number).ok()
}

impl Asked {
    // What no arguments ask for.
    fn new() -> Asked {
        Asked {
            states: 20_000_000,
            memory: 4_000,
            threads: 1,
            extras: Extras {
                nudges: false,
                preempts: false,
            },
            fold: false,
            quiet: false,
            goal: Goal::Overview,
            cpu: None,
            lock: None,
        }
    }

    // Takes an option without a value. Returns whether it is one.
    fn take_flag(&mut self, word: &str) -> bool {
        match word {
            "--nudges" => self.extras.nudges = true,
            "--preempt" => self.extras.preempts = true,
            "--fold" => self.fold = true,
            "--quiet" => self.quiet = true,
            "--finished" => self.goal = Goal::Finished,
            "--stuck" => self.goal = Goal::Stuck,
            "--doomed" => self.goal = Goal::Doomed,
            _ => return false,
        }
        true
    }

    // Takes an option that says whose act is sought, or on which lock. Returns `None` if it is none.
    fn take_place(&mut self, word: &str, value: &str) -> Option<()> {
        let number = u32::try_from(number_of(value)?).ok()?;
        match word {
            "--cpu" => self.cpu = Some(number),
            "--lock" => self.lock = Some(number),
            _ => return None,
        }
        Some(())
    }

    // Takes an option that says how much is explored, or on how many threads. Returns `None` if it is
    // none.
    fn take_limit(&mut self, word: &str, value: &str) -> Option<()> {
        let number = number_of(value)?;
        match word {
            "--states" => self.states = number,
            "--memory" => self.memory = number,
            "--threads" => self.threads = number,
            _ => return None,
        }
        Some(())
    }

    // Takes an option with its value. Returns `None` if it is none, if the value is wrong, or if
    // there is not enough memory.
    fn take_option(&mut self, alloc: Global, word: &str, value: &str) -> Option<()> {
        match word {
            "--row" => self.goal = Goal::Row(row_named(alloc, value).ok()??),
            "--event" => self.goal = Goal::Event(kind_named(value)?),
            "--count" => self.goal = Goal::Count(count_named(value)?),
            "--cpu" | "--lock" => return self.take_place(word, value),
            _ => return self.take_limit(word, value),
        }
        Some(())
    }
}

impl Asked {
    /// How many helpers there are: one on each thread. A single one takes no thread of its own.
    pub(crate) fn helpers(&self) -> usize {
        self.threads.clamp(1, MAX_HELPERS)
    }

    /// Whether what is sought is more than any row or any event: a count, or that of one processor
    /// or on one lock.
    pub(crate) fn is_particular(&self) -> bool {
        matches!(self.goal, Goal::Count(_)) || self.cpu.is_some() || self.lock.is_some()
    }

    // Whether a processor or a lock is named, and no act is sought. Where states are folded,
    // processors that are alike are one, so none is named.
    fn is_idle(&self) -> bool {
        let is_act = matches!(self.goal, Goal::Row(_) | Goal::Event(_) | Goal::Count(_));
        (!is_act && self.is_particular()) || (self.fold && self.cpu.is_some())
    }
}

/// What the program's arguments ask for, or `None` for other arguments, and if they cannot be
/// read, as where there is not enough memory.
pub(crate) fn asked_by(rt: &HostRuntime) -> Option<Asked> {
    let mut asked = Asked::new();
    let mut words = env::args(rt).ok()?;
    let _name = words.next();
    for _ in 0..16 {
        let Some(word) = words.next() else {
            return if asked.is_idle() { None } else { Some(asked) };
        };
        if !asked.take_flag(word.as_str()) {
            let value = words.next()?;
            asked.take_option(rt.alloc(), word.as_str(), value.as_str())?;
        }
    }
    None
}
