// What the grammar makes of words, lines and headers. A row has a text, ` = `, and how the answer
// is printed.

use crate::headers::setup_of;
use lk_forms::{LineRefusal, schedule_line};
use lk_names::{Kind, List, Mode};
use lk_rows::{Op, Setup};
use lk_text::read_number;
use std::alloc::{AllocError, Global};
use std::process::Abort;
use std::test::Fail;

const NUMBERS: &str = "\
0 = Some(0)
00000000000000000007 = Some(7)
000000000000000000007 = None
18446744073709551615 = Some(18446744073709551615)
18446744073709551616 = None
99999999999999999999 = None
 = None
+1 = None
1x = None";

#[test]
fn numbers_are_read_whole_or_not_at_all(rt: HostRuntime) -> Result<(), Fail> {
    for row in NUMBERS.lines() {
        let (word, wanted) = row.split_once(" = ").ok_or("no answer")?;
        let told = format!(in rt.alloc(); "{:?}", read_number(word.as_bytes()))?;
        assert_eq!(rt; told.as_str(), wanted, "in {word}");
    }
    Ok(())
}

// Lines of a schedule of four processors.
const SCHEDULE: &str = "\
step 3 7 = Ok(Run { act: Step(3), times: 7 })
  step\t0   00000000000000000007 \r = Ok(Run { act: Step(0), times: 7 })
int 1 = Ok(Run { act: Interrupt(1), times: 1 })
pre 0 = Ok(Run { act: Preempt(0), times: 1 })
res 2 = Ok(Run { act: Resume(2), times: 1 })
nudge 3 = Ok(Run { act: Nudge(3), times: 1 })
end = Ok(End)
 = Ok(Blank)
 \t\r = Ok(Blank)
 #step = Ok(Blank)
# \u{1} = Err(Bad(NotText))
Step 0 1 = Err(Bad(UnknownWord))
qtrace 1 = Err(Bad(Repeated))
go = Err(Bad(Misplaced))
mode virt = Err(Bad(Misplaced))
end 1 = Err(Bad(WordCount))
step x = Err(Bad(WordCount))
step x 0 = Err(Bad(BadNumber))
step 4 x = Err(Bad(OutOfRange))
step 3 x = Err(Bad(BadNumber))
step 3 0 = Err(Bad(OutOfRange))
step 3 100000000 = Ok(Run { act: Step(3), times: 100000000 })
step 3 100000001 = Err(Limit(Acts))
step 3 18446744073709551615 = Err(Limit(Acts))";

fn told_of(alloc: Global, line: &str) -> Result<String, AllocError> {
    format!(in alloc; "{:?}", schedule_line(line.as_bytes(), 4, 0, false))
}

#[test]
fn lines_of_a_schedule_are_read(rt: HostRuntime) -> Result<(), Fail> {
    for row in SCHEDULE.lines() {
        let (line, wanted) = row.split_once(" = ").ok_or("no answer")?;
        assert_eq!(rt; told_of(rt.alloc(), line)?.as_str(), wanted, "in {line}");
    }
    Ok(())
}

// Behind the last act that there may be, and behind `end`.
#[test]
fn no_act_comes_behind_the_last(rt: HostRuntime) -> Result<(), Fail> {
    let full = schedule_line(b"int 0", 1, 100_000_000, false);
    let act = schedule_line(b"int 0", 1, 0, true);
    let end = schedule_line(b"end", 1, 0, true);
    let blank = schedule_line(b"# end", 1, 0, true);
    let told = format!(in rt.alloc(); "{full:?} {act:?} {end:?} {blank:?}")?;
    let wanted = "Err(Limit(Acts)) Err(Bad(Misplaced)) Err(Bad(Misplaced)) Ok(Blank)";
    assert_eq!(rt; told.as_str(), wanted);
    Ok(())
}

const HEADER: &str = "\
# a header
qtrace 1

mode cna
cpus 3
sockets 0 63 1
threshold 0
spins 1
lock 0 spin
lock 1 rw
prog 2 try 0 read 1 runlock 1 unlock 0
prog 0 lock 0 unlock 0
irq 1 tryread 1 runlock 1
irq 1 trywrite 1 wunlock 1 write 1 wunlock 1
go";

// Whether the programs have so many operations, each in its place.
fn are_so_long(programs: &[List<Op>], lengths: &str) -> bool {
    let mut rest = programs.iter();
    for word in lengths.split_whitespace() {
        match (rest.next(), word.parse::<usize>()) {
            (Some(program), Ok(length)) if program.len() == length => {}
            _ => return false,
        }
    }
    rest.next().is_none()
}

// Whether a setup has what its header says besides programs.
fn has_rules(setup: &Setup) -> bool {
    setup.mode == Mode::Cna
        && setup.topology.sockets.as_slice() == [0, 63, 1].as_slice()
        && setup.threshold == 0
        && setup.spins == 1
        && matches!(setup.locks.as_slice(), [Kind::Spin, Kind::Rw])
}

// Whether a setup has the programs and the handlers that its header says.
fn has_programs(setup: &Setup) -> bool {
    let [first, second, third] = setup.irqs.as_slice() else {
        return false;
    };
    are_so_long(setup.progs.as_slice(), "2 0 4")
        && are_so_long(first.as_slice(), "")
        && are_so_long(second.as_slice(), "2 4")
        && are_so_long(third.as_slice(), "")
}

#[test]
fn header_gives_its_setup(rt: HostRuntime) -> Result<(), Fail> {
    let setup = setup_of(rt.alloc(), HEADER)?.ok_or("no go")?;
    assert!(rt; has_rules(&setup) && has_programs(&setup));
    Ok(())
}

// Lines behind two spinlocks and a reader-writer lock.
const PROGRAMS: &str = "\
prog 0 = WordCount
prog 0 lock = WordCount
prog 0 take 0 = UnknownWord
prog 0 lock x = BadNumber
prog 0 lock 3 = WrongLock
prog 0 read 0 = WrongLock
prog 0 lock 2 = WrongLock
prog 0 lock 0 try 0 = Reheld
prog 0 read 2 tryread 2 = Reheld
prog 0 read 2 write 2 = Reheld
prog 0 lock 0 unlock 1 = NotHeld
prog 0 read 2 wunlock 2 = NotHeld
prog 0 trywrite 2 runlock 2 = NotHeld
prog 0 lock 0 lock 1 unlock 0 = StillHeld
prog 0 write 2 = StillHeld
prog 0 try 0 lock 1 unlock 0 unlock 1 = Crossed
prog 0 lock 1 try 0 unlock 1 unlock 0 = Crossed
prog 0 tryread 2 lock 1 runlock 2 unlock 1 = Crossed";

// Why a program is refused, if it is for a fault.
fn refusal_of(alloc: Global, line: &str) -> Result<String, AllocError> {
    let before = "qtrace 1\nmode cna\nlock 0 spin\nlock 1 spin\nlock 2 rw\n";
    let lines = format!(in alloc; "{before}{line}")?;
    match setup_of(alloc, lines.as_str()) {
        Err(LineRefusal::Bad(fault)) => format!(in alloc; "{fault:?}"),
        _ => Ok(String::new(alloc)),
    }
}

#[test]
fn programs_against_the_rules_are_refused(rt: HostRuntime) -> Result<(), Fail> {
    for row in PROGRAMS.lines() {
        let (line, wanted) = row.split_once(" = ").ok_or("no fault")?;
        assert_eq!(rt; refusal_of(rt.alloc(), line)?.as_str(), wanted, "in {line}");
    }
    Ok(())
}
