// The generated trace is written, page by page.
ghost use Rattle.std.specs.Prelude.{◌≡◌, ◌<◌, ◌++◌, None, [], IfSome, OnOk, OnErr, length};
ghost use Rattle.std.specs.Io.KnownBytes.{Appends};
ghost use Rattle.lk_text.specs.Causes.{HasCause, PutsSurely};
ghost use Rattle.lk_text.specs.Bytes.{AppendsFront};
ghost use Rattle.lk_text.specs.Page.{page_text};
ghost use Rattle.lk_gen.specs.Generated.{generated};
ghost use Rattle.lk_gen.specs.Writes.{text_left, pages_left};

use crate::pages::{page_of, program_page, steps_page};
use lk_text::{Page, Sink, WriteFault, put};

// How many processors there are.
const CPUS: u32 = 32;

// How many pages the lines of the schedule fill, a hundred each.
const STEP_PAGES: u32 = 250;

// The lines before the programs.
const HEAD: &[u8] = b"qtrace 1
mode cna
cpus 32
sockets 0 0 0 0 0 0 0 0 1 1 1 1 1 1 1 1 2 2 2 2 2 2 2 2 3 3 3 3 3 3 3 3
threshold 16
lock 0 spin
lock 1 spin
lock 2 spin
lock 3 spin
";

// What is still to be written.
#[derive(Clone, Copy)]
pub(crate) enum Left {
    // All of it.
    Whole { start: u32 },
    // The programs from this processor on, and what comes behind them.
    Programs { processor: u32, draw: u32 },
    // So many pages of the schedule, and its end.
    Steps { pages: u32, draw: u32 },
    // Nothing.
    Nothing,
}

impl Left {
    // The next page, and what is left behind it.
    fn page(self) -> Option<(Page, Left)>
        ensures text { IfSome result
            (λ next. text_left self ≡ page_text next.0 ++ text_left next.1) }
        ensures fewer { IfSome result (λ next. pages_left next.1 < pages_left self) }
        ensures none { result ≡ None → text_left self ≡ [] }
    {
        match self {
            Left::Whole { start } => Some((
                page_of(HEAD),
                Left::Programs {
                    processor: 0,
                    draw: start,
                },
            )),
            Left::Programs { processor, draw } => Some(programs_from(processor, draw)),
            Left::Steps { pages, draw } => Some(steps_from(pages, draw)),
            Left::Nothing => None,
        }
    }
}

// The next page of the programs from this processor on, and what is left behind it.
fn programs_from(processor: u32, draw: u32) -> (Page, Left)
    ensures text { text_left (Left.Programs processor draw)
        ≡ page_text result.0 ++ text_left result.1 }
    ensures fewer { pages_left result.1 < pages_left (Left.Programs processor draw) }
{
    if processor >= CPUS {
        return (
            page_of(b"go\n"),
            Left::Steps {
                pages: STEP_PAGES,
                draw,
            },
        );
    }
    let (page, draw) = program_page(processor, draw);
    (
        page,
        Left::Programs {
            processor: processor + 1,
            draw,
        },
    )
}

// The next page of the schedule, and what is left behind it.
fn steps_from(pages: u32, draw: u32) -> (Page, Left)
    ensures text { text_left (Left.Steps pages draw) ≡ page_text result.0 ++ text_left result.1 }
    ensures fewer { pages_left result.1 < pages_left (Left.Steps pages draw) }
{
    if pages == 0 {
        return (page_of(b"end\n"), Left::Nothing);
    }
    let (page, draw) = steps_page(draw);
    (
        page,
        Left::Steps {
            pages: pages - 1,
            draw,
        },
    )
}

/// Writes the trace that is generated from the start number. It takes no memory.
///
/// # Errors
///
/// A fault of the sink. The sink's count of faults rose in this call, and the sink took a prefix
/// of the text. There is no fault if the sink is certain to take so many bytes.
pub fn generate<K: Sink>(start: u32, sink: &mut K) -> Result<(), WriteFault>
    ensures ok { OnOk result (Appends (K.held sink.old) (K.held sink.new) (generated start)) }
    ensures err { OnErr result
        (AppendsFront (K.held sink.old) (K.held sink.new) (generated start)) }
    ensures cause { HasCause (K.faults sink.old) (K.faults sink.new) result }
    ensures sure { PutsSurely (K.sure sink.old) (K.sure sink.new) (length (generated start)) result }
{
    let mut left = Left::Whole { start };
    'pages: while let Some((page, behind)) = left.page() {
        put(sink, page.bytes())?;
        left = behind;
    }
    Ok(())
}
