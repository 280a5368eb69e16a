// A sink that takes nothing, under a replay and under the program's call.
ghost use Rattle.std.specs.Prelude.{◌<◌, ◌+◌, None};

use crate::command::{TRACE, args_of};
use lk_command::run;
use lk_guard::OpenGate;
use lk_replay::{ReplayFault, replay};
use lk_text::{Failed, MemSink, MemSource, Sink};
use std::test::Fail;

// Takes nothing, and counts that as a fault.
#[derive(Drop)]
struct Full {
    faults: u64,
}

impl Sink for Full {
    ghost held = { λ _. None };

    ghost faults = { λ sink. sink.faults };

    ghost sure = { λ _. 0 };

    fn write(&mut self, _: &[u8]) -> Result<usize, Failed> {
        self.faults = self.faults.saturating_add(1);
        Ok(0)
    }
}

// The replay asks it once, and answers its fault.
#[test]
fn replay_asks_a_full_sink_once(rt: HostRuntime) -> Result<(), Fail> {
    let alloc = rt.alloc();
    let mut source = MemSource::new(alloc, TRACE.as_bytes(), 1, &[])?;
    let mut sink = Full { faults: 0 };
    let answer = replay(alloc, &mut source, &mut sink);
    assert!(rt; matches!(answer, Err(ReplayFault::WriteFault)));
    assert_eq!(rt; sink.faults, 1);
    Ok(())
}

// So does the program, with its status and its note.
#[test]
fn full_sink_is_a_write_fault(rt: HostRuntime) -> Result<(), Fail> {
    let alloc = rt.alloc();
    let args = args_of(alloc, "replay")?;
    let mut source = MemSource::new(alloc, TRACE.as_bytes(), 1, &[])?;
    let mut sink = Full { faults: 0 };
    let mut notes = MemSink::new(alloc, 1_000, &[])?;
    let status = run(
        &rt,
        alloc,
        Ok(args),
        &mut source,
        &mut sink,
        &mut notes,
        &OpenGate,
    );
    assert_eq!(rt; status.number(), 5);
    assert_eq!(rt; sink.faults, 1);
    assert!(rt; notes.bytes() == b"write fault\n".as_slice());
    Ok(())
}
