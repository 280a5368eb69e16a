// What `{:?}` shows of a domain and of a processor: what is known without a step.

use crate::cpu::Cpu;
use crate::domain::Domain;
use std::fmt::{Debug, Formatter, Result, Write};

impl Debug for Domain {
    fn fmt<W: Write>(&self, f: &mut Formatter<W>) -> Result {
        f.debug_struct("Domain")
            .field("mode", &self.mode())
            .field("locks", &self.locks())
            .field("accounts", &self.accounts())
            .finish_non_exhaustive()
    }
}

impl Debug for Cpu {
    fn fmt<W: Write>(&self, f: &mut Formatter<W>) -> Result {
        let mut shown = f.debug_struct("Cpu");
        shown.field("number", &self.number);
        // Where the family halts a processor has no notes.
        if self.notes.locks != 0 {
            shown.field("depth", &self.notes.depth);
            shown.field("queued", &self.notes.queued);
        }
        shown.finish_non_exhaustive()
    }
}
