//! Where bytes come from and where they go: sources and sinks, the lines of a source, numbers in
//! decimal, and buffers in which text is put together for a sink.
#![tactic(auto)]

mod block;
mod digits;
mod feeds;
mod line;
mod numbers;
mod page;
mod reader;
mod sink;
mod source;

pub use block::Block;
pub use line::LineBuf;
pub use numbers::read_number;
pub use page::Page;
pub use reader::{LineFault, LineReader, MAX_INPUT, MAX_LINE};
pub use sink::{MemSink, NullSink, Sink, StdSink, WriteFault, put};
pub use source::{Failed, MemSource, Source, StdSource, SureSource};
