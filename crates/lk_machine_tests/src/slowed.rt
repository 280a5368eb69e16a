// Traces in which a processor is preempted before each of its steps, and their transcripts.

use std::alloc::Global;
use std::test::Fail;

/// Whether a text is a trace whose schedule has steps alone.
pub fn has_only_steps(trace: &str) -> bool {
    trace.contains("qtrace ")
        && !trace.contains("\nint ")
        && !trace.contains("\npre ")
        && !trace.contains("\nnudge ")
}

// So many steps of a processor, each as four acts: it is preempted, steps in vain, goes on, and
// steps.
fn push_steps(text: &mut String, cpu: &str, count: u32) -> Result<(), Fail> {
    for _ in 0..count {
        for word in [
            "pre ", cpu, "\nstep ", cpu, " 1\nres ", cpu, "\nstep ", cpu, " 1\n",
        ] {
            text.push_str(word)?;
        }
    }
    Ok(())
}

/// The trace with four acts in the place of each step.
pub fn slowed(alloc: Global, trace: &str) -> Result<String, Fail> {
    let mut text = String::new(alloc);
    for line in trace.lines() {
        if let Some(words) = line.strip_prefix("step ") {
            let (cpu, count) = words.split_once(' ').ok_or("no count")?;
            push_steps(&mut text, cpu, count.parse::<u32>()?)?;
        } else {
            text.push_str(line)?;
            text.push_str("\n")?;
        }
    }
    Ok(text)
}

// Whether the first number is four times the second.
fn is_fourfold(slow: &str, number: &str) -> bool {
    match (slow.parse::<u64>(), number.parse::<u64>()) {
        (Ok(slow), Ok(number)) => number.checked_mul(4) == Some(slow),
        _ => false,
    }
}

// Whether the first line says the same as the second, with four times as many acts.
fn is_slow_line(slow: &str, line: &str) -> bool {
    let (Some((word, rest)), Some((first, more))) = (slow.split_once(' '), line.split_once(' '))
    else {
        return false;
    };
    if first.parse::<u64>().is_ok() {
        is_fourfold(word, first) && rest == more
    } else if first == "end" {
        word == first && is_fourfold(rest, more)
    } else {
        slow == line
    }
}

/// Whether the first transcript says the same as the second, with four times as many acts.
pub fn is_slow(slow: &str, transcript: &str) -> bool {
    let mut lines = slow.lines();
    for line in transcript.lines() {
        match lines.next() {
            Some(late) if is_slow_line(late, line) => {}
            _ => return false,
        }
    }
    lines.next().is_none()
}
