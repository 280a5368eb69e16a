// The lines of a transcript.
ghost use Rattle.std.specs.Prelude.{◌≡◌, ◌≤◌, ◌<◌, ◌+◌, ◌++◌, length, codes};
ghost use Rattle.lk_forms.specs.Texts.{lock_text, waiter_text, how_text, rw_text, owing_text, moved_text, what_text, event_text, end_text, count_name, count_at, count_text};
ghost use Rattle.lk_text.specs.Line.{line_text};
ghost use Rattle.lk_text.specs.Block.{waiting};

use crate::page::Page;
use lk_names::{Event, How, LockName, RwHow, Waiter, What};
use lk_rows::Counts;
use lk_text::{Block, LineBuf};

#[inline(always)]
#[tactic(auto, using(crate::proofs::Decimals::decimal_small))]
fn write_lock<P: Page>(page: &mut P, lock: LockName)
    requires { length (P.text page.old) + 11 ≤ P.room }
    ensures text { P.text page.new ≡ P.text page.old ++ lock_text lock }
    ensures size { length (P.text page.new) ≤ length (P.text page.old) + 11 }
{
    page.number(u64::from(lock.index));
    if lock.wait {
        page.word(b"w");
    }
}

#[inline(always)]
#[tactic(auto, using(crate::proofs::Decimals::decimal_small))]
fn write_waiter<P: Page>(page: &mut P, waiter: Waiter)
    requires { length (P.text page.old) + 21 ≤ P.room }
    ensures text { P.text page.new ≡ P.text page.old ++ waiter_text waiter }
    ensures size { length (P.text page.new) ≤ length (P.text page.old) + 21 }
{
    page.number(u64::from(waiter.cpu));
    page.word(b".");
    page.number(u64::from(waiter.ctx));
}

#[inline(always)]
fn write_how<P: Page>(page: &mut P, how: How)
    requires { length (P.text page.old) + 8 ≤ P.room }
    ensures text { P.text page.new ≡ P.text page.old ++ (codes " " ++ how_text how) }
    ensures size { length (P.text page.new) ≤ length (P.text page.old) + 8 }
{
    match how {
        How::Fast => page.word(b" fast"),
        How::Try => page.word(b" try"),
        How::Pending => page.word(b" pending"),
        How::Virt => page.word(b" virt"),
        How::Retry => page.word(b" retry"),
        How::NoNode => page.word(b" nonode"),
        How::Steal => page.word(b" steal"),
        How::Head => page.word(b" head"),
        How::Sole => page.word(b" sole"),
    }
}

#[inline(always)]
fn write_rw_how<P: Page>(page: &mut P, how: RwHow)
    requires { length (P.text page.old) + 7 ≤ P.room }
    ensures text { P.text page.new ≡ P.text page.old ++ (codes " " ++ rw_text how) }
    ensures size { length (P.text page.new) ≤ length (P.text page.old) + 7 }
{
    match how {
        RwHow::Fast => page.word(b" fast"),
        RwHow::Irq => page.word(b" irq"),
        RwHow::Queued => page.word(b" queued"),
        RwHow::Try => page.word(b" try"),
    }
}

#[inline(always)]
#[tactic(auto, using(crate::proofs::Decimals::decimal_small))]
fn write_owing<P: Page>(page: &mut P, owing: Option<u32>)
    requires { length (P.text page.old) + 17 ≤ P.room }
    ensures text { P.text page.new ≡ P.text page.old ++ owing_text owing }
    ensures size { length (P.text page.new) ≤ length (P.text page.old) + 17 }
{
    if let Some(cpu) = owing {
        page.word(b" owing ");
        page.number(u64::from(cpu));
    }
}

#[inline(always)]
#[tactic(auto, using(crate::proofs::Decimals::decimal_small))]
fn write_moved<P: Page>(page: &mut P, moved: u32)
    requires { length (P.text page.old) + 17 ≤ P.room }
    ensures text { P.text page.new ≡ P.text page.old ++ moved_text moved }
    ensures size { length (P.text page.new) ≤ length (P.text page.old) + 17 }
{
    if moved > 0 {
        page.word(b" moved ");
        page.number(u64::from(moved));
    }
}

// A word, with the space behind it, and a lock.
#[inline(always)]
fn write_named<P: Page>(page: &mut P, word: &[u8], lock: LockName)
    requires short { length word.now ≤ 9 }
    requires room { length (P.text page.old) + 20 ≤ P.room }
    ensures text { P.text page.new ≡ P.text page.old ++ (word.now ++ lock_text lock) }
    ensures size { length (P.text page.new) ≤ length (P.text page.old) + length word.now + 11 }
{
    page.word(word);
    write_lock(page, lock);
}

// A handoff.
#[inline(always)]
fn write_pass<P: Page>(page: &mut P, lock: LockName, to: Waiter, moved: u32)
    requires { length (P.text page.old) + 60 ≤ P.room }
    ensures text { P.text page.new ≡ P.text page.old ++ what_text (What.Pass lock to moved) }
    ensures size { length (P.text page.new) ≤ length (P.text page.old) + 60 }
{
    write_named(page, b"pass ", lock);
    page.word(b" ");
    write_waiter(page, to);
    write_moved(page, moved);
}

// What happened.
#[inline(always)]
#[tactic(auto, using(crate::proofs::Decimals::decimal_small))]
fn write_what<P: Page>(page: &mut P, what: &What)
    requires { length (P.text page.old) + 60 ≤ P.room }
    ensures text { P.text page.new ≡ P.text page.old ++ what_text what.now }
    ensures size { length (P.text page.new) ≤ length (P.text page.old) + 60 }
{
    match *what {
        What::Take { lock, how } => {
            write_named(page, b"take ", lock);
            write_how(page, how);
        }
        What::Miss { lock } => write_named(page, b"miss ", lock),
        What::Release { lock, owing } => {
            write_named(page, b"release ", lock);
            write_owing(page, owing);
        }
        What::Kick { cpu } => {
            page.word(b"kick ");
            page.number(u64::from(cpu));
        }
        What::Arrive { lock } => write_named(page, b"arrive ", lock),
        What::Pass { lock, to, moved } => write_pass(page, lock, to, moved),
        What::Flush { lock } => write_named(page, b"flush ", lock),
        What::Promote { lock } => write_named(page, b"promote ", lock),
        What::Leave { lock } => write_named(page, b"leave ", lock),
        What::Halt { lock } => write_named(page, b"halt ", lock),
        What::Wake { lock } => write_named(page, b"wake ", lock),
        What::Int => page.word(b"int"),
        What::Nudge => page.word(b"nudge"),
        What::RTake { lock, how } => {
            write_named(page, b"rtake ", lock);
            write_rw_how(page, how);
        }
        What::RRelease { lock } => write_named(page, b"rrelease ", lock),
        What::WTake { lock, how } => {
            write_named(page, b"wtake ", lock);
            write_rw_how(page, how);
        }
        What::WRelease { lock } => write_named(page, b"wrelease ", lock),
    }
}

// The line of an event.
#[inline(always)]
#[tactic(auto, using(crate::proofs::Decimals::decimal_short))]
fn write_line<P: Page>(page: &mut P, act: u64, event: &Event)
    requires { length (P.text page.old) + 128 ≤ P.room }
    ensures { P.text page.new ≡ P.text page.old ++ event_text act event.now }
{
    page.number(act);
    page.word(b" ");
    write_waiter(page, event.by);
    page.word(b" ");
    write_what(page, &event.what);
    page.word(b"\n");
}

/// The line of an event, told in act `act`, with its line feed. Acts are numbered from 1.
pub fn event_line(act: u64, event: &Event) -> LineBuf
    ensures { line_text result ≡ event_text act event.now }
{
    let mut line = LineBuf::new();
    write_line(&mut line, act, event);
    line
}

/// Appends the line of an event, told in act `act`, to a block. The block must have room for 128
/// more bytes.
#[inline(always)]
pub fn write_event(block: &mut Block, act: u64, event: &Event)
    requires { length (waiting block.old) + 128 ≤ 65536 }
    ensures { waiting block.new ≡ waiting block.old ++ event_text act event.now }
{
    write_line(block, act, event);
}

/// The first of the closing lines, `end` and the number of acts, with its line feed.
#[tactic(auto, using(crate::proofs::Decimals::decimal_short))]
pub fn end_line(acts: u64) -> LineBuf
    ensures { line_text result ≡ end_text acts }
{
    let mut line = LineBuf::new();
    line.word(b"end ");
    line.number(acts);
    line.word(b"\n");
    line
}

// The name of a count, with the space behind it, and the count.
fn count_at(counts: &Counts, which: u32) -> (&'static [u8], u64)
    ensures name { result.0.now ≡ count_name which ++ codes " " }
    ensures short { length result.0.now ≤ 17 }
    ensures count { result.1 ≡ count_at counts.now which }
{
    match which {
        0 => (b"lock_pending ", counts.lock_pending),
        1 => (b"lock_slowpath ", counts.lock_slowpath),
        2 => (b"lock_use_node2 ", counts.lock_use_node2),
        3 => (b"lock_use_node3 ", counts.lock_use_node3),
        4 => (b"lock_use_node4 ", counts.lock_use_node4),
        5 => (b"lock_no_node ", counts.lock_no_node),
        6 => (b"pv_lock_stealing ", counts.pv_lock_stealing),
        7 => (b"pv_wait_node ", counts.pv_wait_node),
        8 => (b"pv_wait_head ", counts.pv_wait_head),
        _ => (b"pv_kick_unlock ", counts.pv_kick_unlock),
    }
}

/// The line of one of the ten counts, with its line feed. `which`, from 0 to 9, is its place among
/// the counts of the closing lines. The counts have the names of Linux's lock events.
#[tactic(auto, using(crate::proofs::Decimals::decimal_short))]
pub fn count_line(counts: &Counts, which: u32) -> LineBuf
    requires { which < 10 }
    ensures { line_text result ≡ count_text counts.now which }
{
    let (name, count) = count_at(counts, which);
    let mut line = LineBuf::new();
    line.word(name);
    line.number(count);
    line.word(b"\n");
    line
}
