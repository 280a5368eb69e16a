// Traces and runs of the spin queue that are refused, and where.

use crate::texts::{Text, comes_to, ends};
use std::alloc::{AllocError, Global};
use std::process::Abort;
use std::test::Fail;

// A text with another in the place of the line of this number, or behind its last line.
fn with_line(alloc: Global, input: &str, number: usize, line: &str) -> Result<String, AllocError> {
    let mut text = String::new(alloc);
    for (at, old) in input.lines().enumerate() {
        text.push_str(if at + 1 == number { line } else { old })?;
        text.push_str("\n")?;
    }
    if number > input.lines().count() {
        text.push_str(line)?;
    }
    Ok(text)
}

// Lines for the smallest trace: where each comes, what is wrong with it, and the line itself.
const TRACE_LINES: &str = "\
1 NoFormat qtrace 3
2 NotText mode vi\u{1}rt
2 NotText # a tab\tis fine, but not \u{1}
3 Repeated mode virt
3 Misplaced step 0 1
2 UnknownWord mode vert
4 OutOfRange lock 5 rw
5 WrongLock prog 0 lock 7 unlock 7
5 Reheld prog 0 lock 0 lock 0 unlock 0 unlock 0
5 NotHeld prog 0 unlock 0
5 StillHeld prog 0 lock 0
5 WordCount prog 0
7 WordCount step 0
7 BadNumber step 0 18446744073709551616
7 OutOfRange step 64 1
7 Acts step 0 100000001
7 Acts step 0 18446744073709551615
8 UnknownWord stop 0
8 Misplaced go
9 Misplaced go";

// The same for the run.
const RUN_LINES: &str = "\
1 NoFormat qtrace 1
1 NoFormat qosq 01
2 NotText cpus \u{1}
2 UnknownWord mode virt
2 Repeated qosq 1
2 OutOfRange cpus 65
2 Misplaced step 0 1
2 Misplaced end
3 Repeated cpus 2
3 WordCount prog 0
3 OutOfRange prog 2 1
3 OutOfRange prog 0 0
3 OutOfRange prog 0 65
3 BadNumber prog x 65
4 Repeated prog 0 2
4 OutOfRange prog 0 65
4 Misplaced cpus 3
6 Misplaced go
6 Misplaced prog 1 1
6 Acts step 0 100000001
7 WordCount give
7 WordCount give 0 1
7 OutOfRange give 2
7 OutOfRange step 1 0
10 WordCount end 1
11 Misplaced end";

// Sees that a text with a line of this number in it is refused there.
fn refuses(
    rt: &(impl Abort + AllocGlobal),
    text: Text,
    number: &str,
    fault: &str,
    line: &str,
) -> Result<(), Fail> {
    let input = with_line(rt.alloc(), text.input(), number.parse::<usize>()?, line)?;
    let cause = format!(in rt.alloc(); "{number} {fault}")?;
    comes_to(rt, text, input.as_str(), cause.as_str())
}

// Each line of a table is refused.
fn refuses_all(rt: &(impl Abort + AllocGlobal), text: Text, rows: &str) -> Result<(), Fail> {
    for row in rows.lines() {
        let (number, rest) = row.split_once(' ').ok_or("no fault")?;
        let (fault, line) = rest.split_once(' ').ok_or("no line")?;
        refuses(rt, text, number, fault, line)?;
    }
    Ok(())
}

// Besides those of the tables a program of 65 operations, and a line of 4,097 bytes.
#[test]
fn bad_lines_are_refused(rt: HostRuntime) -> Result<(), Fail> {
    refuses_all(&rt, Text::Trace, TRACE_LINES)?;
    refuses_all(&rt, Text::Run, RUN_LINES)?;
    let mut program = String::from_str(rt.alloc(), "prog 0 lock 0")?;
    program.push_str(" unlock 0 lock 0".repeat(rt.alloc(), 32)?.as_str())?;
    refuses(&rt, Text::Trace, "5", "Words", program.as_str())?;
    let long = "#".repeat(rt.alloc(), 4_097)?;
    refuses(&rt, Text::Trace, "5", "Line", long.as_str())
}

// How many bytes of the smallest trace there are, and why it is refused then. Its seventh line is
// whole with the 72nd.
const CUTS: &str = "\
0 1 NoFormat
1 1 NoFormat
2 1 NoFormat
3 1 NoFormat
4 1 NoFormat
5 1 NoFormat
6 1 NoFormat
7 1 NoFormat
8 2 NoEnd
9 2 NoEnd
10 2 UnknownWord
11 2 UnknownWord
12 2 UnknownWord
13 2 WordCount
14 2 WordCount
51 5 StillHeld
59 5 WordCount
71 7 WordCount
72 8 NoEnd
73 8 NoEnd
74 8 UnknownWord
75 8 UnknownWord
76 done
77 done";

#[test]
fn cut_trace_is_refused_where_it_ends(rt: HostRuntime) -> Result<(), Fail> {
    let input = Text::Trace.input();
    for row in CUTS.lines() {
        let (size, cause) = row.split_once(' ').ok_or("no cause")?;
        let cut = input.get(..size.parse::<usize>()?).ok_or("too long")?;
        comes_to(&rt, Text::Trace, cut, cause)?;
    }
    Ok(())
}

// A run has no end; and blank lines and comments are accepted everywhere, and a run without
// processors that have rounds does nothing.
#[test]
fn run_needs_its_end(rt: HostRuntime) -> Result<(), Fail> {
    let input = with_line(rt.alloc(), Text::Run.input(), 10, "# no end")?;
    comes_to(&rt, Text::Run, input.as_str(), "11 NoEnd")?;
    let input = "  qosq\t1\r\n# none\n\ngo\nend\n# over";
    let answer = Text::Run.answer(rt.alloc(), input, 3, [0, 0])?;
    assert_eq!(rt; answer.acts, Ok(0));
    ends(&rt, &answer, "done", "end 0\n")
}
