// What the judge answers to histories. A text has sections. Each begins with a line `given`: the
// threshold, and what was done lawfully before. Each row behind it says what is done then, and the
// breach that the last event makes, or `lawful`. A line `#` says nothing.

mod cna;
mod kicks;
mod queue;
mod rw;

use crate::judging::judge_all;
use lk_abs::judge_is_exact;
use lk_names::{Format, Kind, Mode};
use std::test::Fail;

#[test]
fn histories_are_judged_as_told(rt: HostRuntime) -> Result<(), Fail> {
    judge_is_exact();
    let table = [
        (Format::One, Mode::Native, Kind::Spin, queue::HISTORIES),
        (Format::One, Mode::Cna, Kind::Spin, cna::HISTORIES),
        (Format::One, Mode::Cna, Kind::Spin, cna::IN_FORMAT_ONE),
        (Format::Two, Mode::Cna, Kind::Spin, cna::INTERRUPTS),
        (Format::One, Mode::Pv, Kind::Spin, kicks::HISTORIES),
        (Format::One, Mode::Virt, Kind::Rw, rw::HISTORIES),
    ];
    for (format, mode, kind, text) in table {
        judge_all(&rt, (format, mode, kind), text)?;
    }
    Ok(())
}
