// The line of an event, word by word.
ghost use Rattle.std.specs.Prelude.{◌≡◌};
ghost use Rattle.lk_audit_forms.specs.Parts.{words_left};
ghost use Rattle.lk_audit_forms.specs.EventLines.{how_named, writer_named, reader_named, waiter_named, lock_named, lock_word, take_args, rtake_args, wtake_args, owed_args, owing_args, release_args, some_moved, aside_args, moved_args, pass_args, kick_args, no_args, what_on, what_named, event_told};

use crate::parts::{cut, next_word, one_word, plain_number, small_number, two_words};
use lk_names::{Event, How, LockName, RwHow, Waiter, What};

// How a spinlock was taken.
fn how_named(word: &[u8]) -> Option<How>
    ensures { result ≡ how_named word.now }
{
    if word == b"fast".as_slice() {
        Some(How::Fast)
    } else if word == b"head".as_slice() {
        Some(How::Head)
    } else if word == b"sole".as_slice() {
        Some(How::Sole)
    } else if word == b"pending".as_slice() {
        Some(How::Pending)
    } else if word == b"steal".as_slice() {
        Some(How::Steal)
    } else if word == b"try".as_slice() {
        Some(How::Try)
    } else if word == b"virt".as_slice() {
        Some(How::Virt)
    } else if word == b"retry".as_slice() {
        Some(How::Retry)
    } else if word == b"nonode".as_slice() {
        Some(How::NoNode)
    } else {
        None
    }
}

// How a writer took.
fn writer_named(word: &[u8]) -> Option<RwHow>
    ensures { result ≡ writer_named word.now }
{
    if word == b"fast".as_slice() {
        Some(RwHow::Fast)
    } else if word == b"queued".as_slice() {
        Some(RwHow::Queued)
    } else if word == b"try".as_slice() {
        Some(RwHow::Try)
    } else {
        None
    }
}

// How a reader took.
fn reader_named(word: &[u8]) -> Option<RwHow>
    ensures { result ≡ reader_named word.now }
{
    if word == b"irq".as_slice() {
        Some(RwHow::Irq)
    } else {
        writer_named(word)
    }
}

// `cpu.ctx`
fn waiter_named(word: &[u8]) -> Option<Waiter>
    ensures { result ≡ waiter_named word.now }
{
    let (cpu, rest) = cut(word, b'.');
    match cut(rest?, b'.') {
        (ctx, None) => Some(Waiter {
            cpu: small_number(cpu)?,
            ctx: small_number(ctx)?,
        }),
        (_, Some(_)) => None,
    }
}

// `i`, or `iw` for a wait lock.
fn lock_named(word: &[u8]) -> Option<LockName>
    ensures { result ≡ lock_named word.now }
{
    let (index, rest) = cut(word, b'w');
    let wait = match rest {
        None => false,
        Some(rest) if rest.is_empty() => true,
        Some(_) => return None,
    };
    Some(LockName {
        index: small_number(index)?,
        wait,
    })
}

// The words behind the verb are a lock.
fn lock_alone(args: Option<&[u8]>) -> Option<LockName>
    ensures { result ≡ lock_word (words_left args.entry) }
{
    lock_named(one_word(args)?)
}

fn take(args: Option<&[u8]>) -> Option<What>
    ensures { result ≡ take_args (words_left args.entry) }
{
    let (lock, how) = two_words(args)?;
    Some(What::Take {
        lock: lock_named(lock)?,
        how: how_named(how)?,
    })
}

fn rtake(args: Option<&[u8]>) -> Option<What>
    ensures { result ≡ rtake_args (words_left args.entry) }
{
    let (lock, how) = two_words(args)?;
    Some(What::RTake {
        lock: lock_named(lock)?,
        how: reader_named(how)?,
    })
}

fn wtake(args: Option<&[u8]>) -> Option<What>
    ensures { result ≡ wtake_args (words_left args.entry) }
{
    let (lock, how) = two_words(args)?;
    Some(What::WTake {
        lock: lock_named(lock)?,
        how: writer_named(how)?,
    })
}

// `owing p`
fn owed(args: Option<&[u8]>) -> Option<u32>
    ensures { result ≡ owed_args (words_left args.entry) }
{
    let (word, cpu) = two_words(args)?;
    if word == b"owing".as_slice() {
        small_number(cpu)
    } else {
        None
    }
}

// Nothing, or `owing p`.
fn owing(args: Option<&[u8]>) -> Option<Option<u32>>
    ensures { result ≡ owing_args (words_left args.entry) }
{
    match args {
        None => Some(None),
        Some(_) => Some(Some(owed(args)?)),
    }
}

fn release(args: Option<&[u8]>) -> Option<What>
    ensures { result ≡ release_args (words_left args.entry) }
{
    let (lock, rest) = next_word(args)?;
    Some(What::Release {
        lock: lock_named(lock)?,
        owing: owing(rest)?,
    })
}

// Some were moved aside.
fn some_moved(moved: u32) -> Option<u32>
    ensures { result ≡ some_moved moved }
{
    if moved == 0 { None } else { Some(moved) }
}

// `moved k`
fn aside(args: Option<&[u8]>) -> Option<u32>
    ensures { result ≡ aside_args (words_left args.entry) }
{
    let (word, moved) = two_words(args)?;
    if word == b"moved".as_slice() {
        some_moved(small_number(moved)?)
    } else {
        None
    }
}

// Nothing, or `moved k` for a k above 0.
fn moved(args: Option<&[u8]>) -> Option<u32>
    ensures { result ≡ moved_args (words_left args.entry) }
{
    match args {
        None => Some(0),
        Some(_) => aside(args),
    }
}

fn pass(args: Option<&[u8]>) -> Option<What>
    ensures { result ≡ pass_args (words_left args.entry) }
{
    let (lock, rest) = next_word(args)?;
    let (to, rest) = next_word(rest)?;
    Some(What::Pass {
        lock: lock_named(lock)?,
        to: waiter_named(to)?,
        moved: moved(rest)?,
    })
}

fn kick(args: Option<&[u8]>) -> Option<What>
    ensures { result ≡ kick_args (words_left args.entry) }
{
    Some(What::Kick {
        cpu: small_number(one_word(args)?)?,
    })
}

// What happened, and nothing stands behind the verb.
fn alone(what: What, args: Option<&[u8]>) -> Option<What>
    ensures { result ≡ no_args what (words_left args.entry) }
{
    match args {
        None => Some(what),
        Some(_) => None,
    }
}

// What happened, by the verb and the words behind it.
fn what_named(verb: &[u8], args: Option<&[u8]>) -> Option<What>
    ensures { result ≡ what_named verb.now (words_left args.entry) }
{
    if verb == b"take".as_slice() {
        take(args)
    } else if verb == b"release".as_slice() {
        release(args)
    } else if verb == b"pass".as_slice() {
        pass(args)
    } else if verb == b"rtake".as_slice() {
        rtake(args)
    } else if verb == b"wtake".as_slice() {
        wtake(args)
    } else if verb == b"kick".as_slice() {
        kick(args)
    } else if verb == b"int".as_slice() {
        alone(What::Int, args)
    } else if verb == b"nudge".as_slice() {
        alone(What::Nudge, args)
    } else {
        what_on(verb, lock_alone(args)?)
    }
}

// What happened to a lock, by the verb alone.
fn what_on(verb: &[u8], lock: LockName) -> Option<What>
    ensures { result ≡ what_on verb.now lock }
{
    if verb == b"arrive".as_slice() {
        Some(What::Arrive { lock })
    } else if verb == b"miss".as_slice() {
        Some(What::Miss { lock })
    } else if verb == b"rrelease".as_slice() {
        Some(What::RRelease { lock })
    } else if verb == b"wrelease".as_slice() {
        Some(What::WRelease { lock })
    } else if verb == b"halt".as_slice() {
        Some(What::Halt { lock })
    } else if verb == b"wake".as_slice() {
        Some(What::Wake { lock })
    } else if verb == b"leave".as_slice() {
        Some(What::Leave { lock })
    } else if verb == b"flush".as_slice() {
        Some(What::Flush { lock })
    } else if verb == b"promote".as_slice() {
        Some(What::Promote { lock })
    } else {
        None
    }
}

/// The act's number and the event that a line tells, if it is the line of an event.
pub(crate) fn event_told(line: &[u8]) -> Option<(u64, Event)>
    ensures { result ≡ event_told line.now }
{
    let (act, rest) = next_word(Some(line))?;
    let (by, rest) = next_word(rest)?;
    let (verb, args) = next_word(rest)?;
    let act = plain_number(act)?;
    let by = waiter_named(by)?;
    let what = what_named(verb, args)?;
    Some((act, Event { by, what }))
}
