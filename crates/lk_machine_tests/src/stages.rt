// The queues that the judge of a history in mode `cna` shows, stage by stage.

ghost use Rattle.std.specs.Prelude.{◌≡◌, ◌≤◌, ◌<◌, ◌+◌, ◌^◌, length};
ghost use Rattle.lk_abs.specs.Judge.{taken_by};

use crate::events::waiter_of;
use crate::judging::{first_breach, judge};
use lk_abs::Judge;
use lk_names::{Format, Kind, Lists, LockName, Mode, Waiter};
use std::process::Abort;
use std::test::Fail;

// Whether the waiters are those of these words, in this order.
fn are_waiters(waiters: &[Waiter], words: &str) -> bool {
    let mut rest = waiters.iter();
    for word in words.split_whitespace() {
        match (rest.next(), waiter_of(word)) {
            (Some(found), Some(wanted)) if *found == wanted => {}
            _ => return false,
        }
    }
    rest.next().is_none()
}

// Whether the numbers are those of these words, in this order.
fn are_numbers(numbers: &[u32], words: &str) -> bool {
    let mut rest = numbers.iter();
    for word in words.split_whitespace() {
        match (rest.next(), word.parse::<u32>()) {
            (Some(found), Ok(wanted)) if *found == wanted => {}
            _ => return false,
        }
    }
    rest.next().is_none()
}

// Whether the queues are those of a text: the main one, the second one, and its counts.
fn are_queues(lists: &Lists, text: &str) -> Option<bool> {
    let (main, rest) = text.split_once('/')?;
    let (second, passes) = rest.split_once('/')?;
    let has_main = are_waiters(lists.main.as_slice(), main);
    let has_second = are_waiters(lists.second.as_slice(), second);
    Some(has_main && has_second && are_numbers(lists.passes.as_slice(), passes))
}

// What is done lawfully, and after it the main queue, the second one, and its counts.
const STAGES: &str = "\
2.0 arrive 0, 3.0 arrive 0, 4.0 arrive 0, 5.0 arrive 0, 2.0 take 0 head: 2.0 3.0 4.0 5.0 / /
2.0 pass 0 4.0 moved 1: 4.0 5.0 / 3.0 / 1
2.0 release 0, 0.0 arrive 0, 4.0 take 0 head, 4.0 pass 0 0.0 moved 1: 0.0 / 3.0 5.0 / 2 1
4.0 release 0, 0.0 take 0 head, 1.0 arrive 0: 0.0 1.0 / 3.0 5.0 / 2 1
0.0 flush 0: 0.0 3.0 5.0 1.0 / /
0.0 pass 0 3.0, 0.0 release 0: 3.0 5.0 1.0 / /";

const LOCK: LockName = LockName {
    index: 0,
    wait: false,
};

// Does what a stage says, and compares the queues.
fn reach(rt: &impl Abort, judge: &mut Judge, stage: &str)
    requires sockets { length judge.old.rules.sockets ≡ 6 }
    requires locks { length judge.old.locks ≡ 2 }
    requires few { taken_by judge.old < 2 ^ 62 }
    ensures sockets { length judge.new.rules.sockets ≡ 6 }
    ensures locks { length judge.new.locks ≡ 2 }
    ensures few { taken_by judge.new ≤ taken_by judge.old + 100 }
{
    let (events, queues) = stage.split_once(": ").expect(rt, "queues");
    let breach = first_breach(rt, judge, events);
    assert!(rt; breach.is_none(), "at {stage}");
    assert_eq!(rt;
        are_queues(judge.lists(LOCK), queues),
        Some(true),
        "at {stage}"
    );
}

#[test]
fn shows_its_queues(rt: HostRuntime) -> Result<(), Fail> {
    let mut judge = judge(rt.alloc(), (Format::One, Mode::Cna, Kind::Spin), 5)?;
    let mut reached: u64 = 0;
    for stage in STAGES.lines() {
        assert!(rt; reached < 100);
        reached += 1;
        reach(&rt, &mut judge, stage);
    }
    Ok(())
}
