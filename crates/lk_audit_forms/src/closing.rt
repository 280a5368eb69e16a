// The lines behind `go`.
ghost use Rattle.std.specs.Prelude.{◌≡◌, ◌<◌};
ghost use Rattle.lk_forms.specs.Texts.{count_name};
ghost use Rattle.lk_audit_forms.specs.Parts.{words_left, spaced};
ghost use Rattle.lk_audit_forms.specs.Closing.{end_args, open_words, count_line, line_told};

use crate::answers::Told;
use crate::parts::{next_word, one_word, plain_number, two_words};
use crate::ranges::read_event;
use lk_forms::{Fault, MAX_ACTS};
use lk_rows::Setup;

/// The number of closing lines: `end`, and ten counts.
pub const CLOSING_LINES: u32 = 11;

// `end n`, by the words behind the first.
fn end_args(last: u64, args: Option<&[u8]>) -> Result<Told, Fault>
    ensures { result ≡ end_args last (words_left args.entry) }
{
    match one_word(args).and_then(plain_number) {
        None => Err(Fault::UnknownWord),
        Some(acts) if last <= acts && acts <= MAX_ACTS => Ok(Told::End),
        Some(_) => Err(Fault::OutOfRange),
    }
}

// Before the closing lines: `end n`, or an event.
fn open_line(line: &[u8], setup: &Setup, last: u64) -> Result<Told, Fault>
    ensures { result ≡ open_words setup.now last line.now (spaced line.now) }
{
    match next_word(Some(line)) {
        Some((first, args)) if first == b"end".as_slice() => end_args(last, args),
        _ => {
            let (act, event) = read_event(line, setup, last)?;
            Ok(Told::Event { act, event })
        }
    }
}

// The name of the count of this place.
fn count_name(which: u32) -> &'static [u8]
    ensures { result.now ≡ count_name which }
{
    match which {
        0 => b"lock_pending",
        1 => b"lock_slowpath",
        2 => b"lock_use_node2",
        3 => b"lock_use_node3",
        4 => b"lock_use_node4",
        5 => b"lock_no_node",
        6 => b"pv_lock_stealing",
        7 => b"pv_wait_node",
        8 => b"pv_wait_head",
        _ => b"pv_kick_unlock",
    }
}

// The count of this place, whatever its number.
fn count_line(which: u32, line: &[u8]) -> Result<Told, Fault>
    ensures { result ≡ count_line which line.now }
{
    match two_words(Some(line)) {
        Some((name, number)) if name == count_name(which) && plain_number(number).is_some() => {
            Ok(Told::Count)
        }
        _ => Err(Fault::UnknownWord),
    }
}

/// What a line tells, without its line feed, after events of acts up to number `last` and after
/// `closed` closing lines. It takes no memory.
///
/// # Errors
///
/// Those of [`read_event`](crate::read_event). For a closing line also: `UnknownWord` if the line
/// is not spelled as it is printed, or is not the next closing line; `OutOfRange` if it says fewer
/// acts than `last` or more than [`MAX_ACTS`](lk_forms::MAX_ACTS); `Misplaced` after the last
/// closing line.
pub fn line_told(line: &[u8], setup: &Setup, last: u64, closed: u32) -> Result<Told, Fault>
    ensures { result ≡ line_told setup.now last closed line.now }
{
    if closed == 0 {
        open_line(line, setup, last)
    } else if closed < CLOSING_LINES {
        count_line(closed - 1, line)
    } else {
        Err(Fault::Misplaced)
    }
}
