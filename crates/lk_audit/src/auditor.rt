// An auditor: it is told the lines behind `go`, and judges their events.
ghost use Rattle.std.specs.Prelude.{◌≡◌, IfOk, OnOk, true};
ghost use Rattle.lk_forms.specs.Grammar.{Reading, has_go};
ghost use Rattle.lk_rows.specs.Programs.{IsLawfulSetup};
ghost use Rattle.lk_audit_forms.specs.Grammar.{Said, in_header, ending};

use crate::answers::AuditFault;
use lk_abs::Judge;
use lk_audit_forms::{BreachName, CLOSING_LINES, Told, line_told};
use lk_forms::Fault;
use lk_names::{Event, Memory};
use lk_rows::Setup;
use std::alloc::Global;

/// A setup, a judge, and where the text is behind `go`.
#[derive(Drop)]
pub(crate) struct Auditor {
    pub(crate) setup: Setup,
    pub(crate) judge: Judge,
    // The number of the last act in which something happened.
    pub(crate) last: u64,
    // How many events were judged.
    pub(crate) events: u64,
    // How many closing lines there were.
    pub(crate) closed: u32,
}

impl Auditor {
    ghost use Rattle.lk_audit_forms.specs.Ranges.{is_in_setup, is_next_act};
    ghost use Rattle.lk_audit.specs.Auditor.{CanGoOn, Shows, LineMeans, EventMeans};

    /// An auditor that was told nothing but the header. It takes all its memory here.
    pub(crate) fn new(alloc: Global, setup: Setup) -> Result<Auditor, Memory>
        requires { IsLawfulSetup setup }
        ensures goes_on { IfOk result (λ a. CanGoOn a) }
        ensures shows { IfOk result (λ a. (header : Reading) → has_go header ≡ true
            → setup ≡ header.setup → Shows a (in_header header)) }
    {
        let judge = Judge::new(
            alloc,
            setup.format,
            setup.mode,
            &setup.topology,
            setup.threshold,
            &setup.locks,
        )?;
        Ok(Auditor {
            setup,
            judge,
            last: 0,
            events: 0,
            closed: 0,
        })
    }

    // Judges an event, which the line of this number tells.
    fn judge(&mut self, number: u64, act: u64, event: &Event) -> Result<(), AuditFault>
        requires ready { CanGoOn self.old }
        requires next { is_next_act self.old.last act ≡ true }
        requires event { is_in_setup self.old.setup event.now ≡ true }
        ensures goes_on { OnOk result (CanGoOn self.new) }
        ensures means { (said : Said) → Shows self.old said
            → EventMeans self.new said number act event.now result }
    {
        if let Err(breach) = self.judge.take(event) {
            return Err(AuditFault::Breach {
                line: number,
                name: BreachName::of(&breach),
            });
        }
        self.last = act;
        self.events += 1;
        Ok(())
    }

    /// Judges the line of this number. It takes no memory.
    pub(crate) fn line(&mut self, number: u64, line: &[u8]) -> Result<(), AuditFault>
        requires { CanGoOn self.old }
        ensures goes_on { OnOk result (CanGoOn self.new) }
        ensures means { (said : Said) → Shows self.old said
            → LineMeans self.new said line.now number result }
    {
        match line_told(line, &self.setup, self.last, self.closed) {
            Ok(Told::Event { act, event }) => self.judge(number, act, &event),
            Ok(Told::End) => {
                self.closed = 1;
                Ok(())
            }
            Ok(Told::Count) => {
                self.closed += 1;
                Ok(())
            }
            Err(fault) => Err(AuditFault::BadInput {
                line: number,
                fault,
            }),
        }
    }

    /// What is wrong where the text ends now: without all closing lines it may not end.
    pub(crate) fn ending(&self) -> Option<Fault>
        ensures { (said : Said) → Shows self.now said → result ≡ ending said }
    {
        if self.closed == CLOSING_LINES {
            None
        } else {
            Some(Fault::NoEnd)
        }
    }
}
