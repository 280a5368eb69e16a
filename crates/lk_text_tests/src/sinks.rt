// What sinks take, the faults of writing, and texts made for a sink.

ghost use Rattle.std.specs.Prelude.{◌<◌, ◌+◌, None};

use lk_text::{Block, Failed, LineBuf, MemSink, NullSink, Sink, StdSink, put};
use std::test::Fail;

// The second write fails, and the last one has no room.
#[test]
fn failed_write_takes_nothing(rt: HostRuntime) -> Result<(), Fail> {
    let mut sink = MemSink::new(rt.alloc(), 6, &[2])?;
    assert!(rt; put(&mut sink, b"one").is_ok());
    assert!(rt; put(&mut sink, b"two").is_err());
    assert!(rt; put(&mut sink, b"two").is_ok());
    assert!(rt; put(&mut sink, b"!").is_err());
    assert!(rt; sink.bytes() == b"onetwo".as_slice());
    assert!(rt; put(&mut NullSink::new(), b"one").is_ok());
    Ok(())
}

// Takes nothing, and counts that as a fault.
#[derive(Drop)]
struct Full {
    faults: u64,
}

impl Sink for Full {
    ghost held = { λ _. None };

    ghost faults = { λ sink. sink.faults };

    ghost sure = { λ _. 0 };

    fn write(&mut self, _: &[u8]) -> Result<usize, Failed> {
        self.faults = self.faults.saturating_add(1);
        Ok(0)
    }
}

#[test]
fn taking_nothing_is_a_fault(rt: HostRuntime) {
    let mut sink = Full { faults: 0 };
    assert!(rt; put(&mut sink, b"one").is_err());
    assert!(rt; sink.faults == 1);
}

#[test]
fn writer_of_std_is_a_sink(rt: HostRuntime) -> Result<(), Fail> {
    let mut text = Vec::new(rt.alloc());
    assert!(rt; put(&mut StdSink::new(&mut text), b"one").is_ok());
    assert!(rt; text.as_slice() == b"one".as_slice());

    let mut room = [0; 2];
    let mut sink = StdSink::new(room.as_mut_slice());
    assert!(rt; put(&mut sink, b"one").is_err());
    assert!(rt; room == *b"on");
    Ok(())
}

#[test]
#[tactic(auto, using(lk_text::proofs::Decimal::decimal_short))]
fn line_joins_words_and_numbers(rt: HostRuntime) {
    let mut line = LineBuf::new();
    line.word(b"from ");
    line.number(0);
    line.word(b" to ");
    line.number(u64::MAX);
    assert!(rt; line.bytes() == b"from 0 to 18446744073709551615".as_slice());
}

// What waits in a block is put before a long text. After a write that failed nothing waits.
#[test]
#[tactic(auto, using(lk_text::proofs::Decimal::decimal_short))]
fn block_is_put_before_a_long_text(rt: HostRuntime) -> Result<(), Fail> {
    let mut sink = MemSink::new(rt.alloc(), 100_000, &[2])?;
    let mut block = Block::new(rt.alloc())?;
    let long = vec![in rt.alloc(); b'#'; 65_536]?;
    block.word(b"end ");
    block.number(10);
    assert!(rt; sink.bytes().is_empty());
    assert!(rt; block.push(&mut sink, &long).is_ok());
    assert!(rt; sink.bytes() == b"end 10".as_slice());
    assert!(rt; block.make_room(&mut sink, 1).is_err());
    assert!(rt; block.flush(&mut sink).is_ok());
    assert!(rt; sink.bytes() == b"end 10".as_slice());
    Ok(())
}
