// The lines of a history.
ghost use Rattle.std.specs.Prelude.{◌≡◌, ◌≤◌, ◌+◌, ◌++◌, length};
ghost use Rattle.lk_text.specs.Block.{waiting};
ghost use Rattle.lk_osq_forms.specs.Texts.{what_text, event_text};

use lk_osq::{OsqEvent, OsqWhat};
use lk_text::Block;

// What happened.
#[inline(always)]
#[tactic(auto, using(lk_forms::proofs::Decimals::decimal_small))]
fn write_what(block: &mut Block, what: OsqWhat)
    requires { length (waiting block.old) + 24 ≤ 65536 }
    ensures text { waiting block.new ≡ waiting block.old ++ what_text what }
    ensures size { length (waiting block.new) ≤ length (waiting block.old) + 24 }
{
    match what {
        OsqWhat::TakeFree => block.word(b"take free"),
        OsqWhat::Arrive => block.word(b"arrive"),
        OsqWhat::TakeHanded => block.word(b"take handed"),
        OsqWhat::Quit => block.word(b"quit"),
        OsqWhat::Release { to: None } => block.word(b"release"),
        OsqWhat::Release { to: Some(cpu) } => {
            block.word(b"release to ");
            block.number(u64::from(cpu));
        }
    }
}

/// Writes the line of an event into a block that has room for 64 more bytes. `act` is the number
/// of the act, counted from 1.
#[inline(always)]
#[tactic(auto, using(lk_forms::proofs::Decimals::decimal_small, lk_forms::proofs::Decimals::decimal_short))]
pub fn write_event(block: &mut Block, act: u64, event: OsqEvent)
    requires { length (waiting block.old) + 64 ≤ 65536 }
    ensures { waiting block.new ≡ waiting block.old ++ event_text act event }
{
    block.number(act);
    block.word(b" ");
    block.number(u64::from(event.cpu));
    block.word(b" ");
    write_what(block, event.what);
    block.word(b"\n");
}
