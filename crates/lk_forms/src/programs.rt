// Programs: operations, read from left to right.
ghost use Rattle.std.specs.Prelude.{◌≡◌, ◌≤◌, ◌<◌, Ok, Err, ◌⊎◌, IfOk, IfErr, IfSome, length};
ghost use Rattle.lk_forms.specs.Agrees.{IsAnswer};
ghost use Rattle.lk_forms.specs.Words.{words, HasFirst};
ghost use Rattle.lk_forms.specs.Fronts.{HasNumber};
ghost use Rattle.lk_forms.specs.declared.limits.TheConstants.{MAX_LOCKS, MAX_OPS};
ghost use Rattle.lk_forms.specs.Operations.{lock_word, op_of, closed, ops_of};

use crate::answers::{Fault, LineRefusal, Which};
use crate::limits::MAX_OPS;
use crate::operations::{fault_of_hold, is_declared, is_nothing_held, verb_of};
use crate::words::{is_word_end, next_word};
use lk_names::{Kind, List};
use lk_rows::Op;
use lk_text::read_number;
use std::alloc::Global;

// The lock's number behind a single space, and what stands behind it, if it is one digit.
#[inline(always)]
fn short_lock(args: &[u8]) -> Option<(u64, &[u8])>
    ensures number { IfSome result (λ both. HasNumber args.now both.0 both.1.now) }
    ensures shorter { IfSome result (λ both. length both.1.now < length args.now) }
{
    match args {
        [b' ', b, rest @ ..] if b.is_ascii_digit() && is_word_end(rest) => {
            Some((u64::from(*b - b'0'), rest))
        }
        _ => None,
    }
}

// The lock's number, in the words behind the verb, and what stands behind it. Most are one digit,
// and are read where they stand.
fn lock_word(args: &[u8]) -> Result<(u64, &[u8]), LineRefusal>
    ensures number { IsAnswer (lock_word (words args.now)) (λ both. both.0) result }
    ensures rest { IfOk result (λ both. HasFirst (words args.now) (words both.1.now)) }
    ensures shorter { IfOk result (λ both. length both.1.now < length args.now) }
{
    if let Some(both) = short_lock(args) {
        return Ok(both);
    }
    let Some((word, rest)) = next_word(args) else {
        return Err(LineRefusal::Bad(Fault::WordCount));
    };
    match read_number(word) {
        None => Err(LineRefusal::Bad(Fault::BadNumber)),
        Some(lock) => Ok((lock, rest)),
    }
}

// The operation of a verb and of the words behind it, behind these operations; and what stands
// behind it.
fn read_op<'a>(
    kinds: &[Kind],
    before: &[Op],
    verb: &[u8],
    args: &'a [u8],
) -> Result<(Op, &'a [u8]), LineRefusal>
    requires { length kinds.now ≤ MAX_LOCKS }
    ensures op { IsAnswer (op_of kinds.now before.now verb.now (words args.now))
        (λ both. both.0) result }
    ensures rest { IfOk result (λ both. HasFirst (words args.now) (words both.1.now)) }
    ensures shorter { IfOk result (λ both. length both.1.now < length args.now) }
    ensures few { IfOk result (λ both. length before.now < MAX_OPS) }
{
    if before.len() >= MAX_OPS {
        return Err(LineRefusal::Limit(Which::Words));
    }
    let verb = verb_of(verb).ok_or(LineRefusal::Bad(Fault::UnknownWord))?;
    let (lock, rest) = lock_word(args)?;
    if !is_declared(kinds, lock, verb) {
        return Err(LineRefusal::Bad(Fault::WrongLock));
    }
    let op = Op {
        verb,
        lock: lock as u32,
    };
    match fault_of_hold(kinds.len() as u32, before, op) {
        Some(fault) => Err(LineRefusal::Bad(fault)),
        None => Ok((op, rest)),
    }
}

// The program is these operations, if nothing is held behind them.
fn closed(kinds: &[Kind], ops: List<Op>) -> Result<List<Op>, LineRefusal>
    requires { length kinds.now ≤ MAX_LOCKS }
    ensures answer { IsAnswer (closed kinds.now ops.items) (λ all. all.items) result }
    ensures same { IfOk result (λ all. all ≡ ops) }
{
    if is_nothing_held(kinds.len() as u32, ops.as_slice()) {
        Ok(ops)
    } else {
        Err(LineRefusal::Bad(Fault::StillHeld))
    }
}

/// Reads a program of at least one operation. The list has room for the most operations.
///
/// # Errors
///
/// The first check of the grammar that a word fails, or not enough memory.
pub(crate) fn read_ops(alloc: Global, kinds: &[Kind], args: &[u8]) -> Result<List<Op>, LineRefusal>
    requires { length kinds.now ≤ MAX_LOCKS }
    ensures ok { IfOk result
        (λ ops. (ops_of kinds.now (words args.now) ≡ Ok ops.items) × (ops.room ≡ MAX_OPS)) }
    ensures err { IfErr result
        (λ why. (ops_of kinds.now (words args.now) ≡ Err why) ⊎ (why ≡ LineRefusal.Memory)) }
{
    if next_word(args).is_none() {
        return Err(LineRefusal::Bad(Fault::WordCount));
    }
    let mut ops = List::new(alloc, MAX_OPS)?;
    let mut rest = args;
    while let Some((verb, behind)) = next_word(rest) {
        let (op, behind) = read_op(kinds, ops.as_slice(), verb, behind)?;
        ops.push(op);
        rest = behind;
    }
    closed(kinds, ops)
}
