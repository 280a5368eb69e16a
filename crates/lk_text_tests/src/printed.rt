// The lines of a transcript.

use lk_forms::{count_line, end_line, event_line};
use lk_names::{Event, How, LockName, RwHow, Waiter, What};
use lk_rows::Counts;
use std::str;
use std::test::Fail;

const LOCK: LockName = LockName {
    index: 7,
    wait: false,
};

const LAST_WAIT: LockName = LockName {
    index: 31,
    wait: true,
};

const TASK: Waiter = Waiter { cpu: 0, ctx: 0 };

const LAST: Waiter = Waiter { cpu: 63, ctx: 5 };

#[test]
fn events_are_written_as_lines(rt: HostRuntime) {
    let take = |how| What::Take { lock: LOCK, how };
    let last_take = |how| What::Take {
        lock: LAST_WAIT,
        how,
    };
    let rtake = |how| What::RTake { lock: LOCK, how };
    let wtake = |how| What::WTake { lock: LOCK, how };
    let release = |owing| What::Release { lock: LOCK, owing };
    let pass = |moved| What::Pass {
        lock: LOCK,
        to: LAST,
        moved,
    };
    let table = [
        (TASK, take(How::Fast), "9 0.0 take 7 fast\n"),
        (TASK, take(How::Try), "9 0.0 take 7 try\n"),
        (TASK, take(How::Pending), "9 0.0 take 7 pending\n"),
        (TASK, take(How::Virt), "9 0.0 take 7 virt\n"),
        (TASK, take(How::Retry), "9 0.0 take 7 retry\n"),
        (TASK, take(How::NoNode), "9 0.0 take 7 nonode\n"),
        (TASK, take(How::Steal), "9 0.0 take 7 steal\n"),
        (TASK, take(How::Head), "9 0.0 take 7 head\n"),
        (LAST, last_take(How::Sole), "9 63.5 take 31w sole\n"),
        (TASK, What::Miss { lock: LOCK }, "9 0.0 miss 7\n"),
        (TASK, release(None), "9 0.0 release 7\n"),
        (TASK, release(Some(2)), "9 0.0 release 7 owing 2\n"),
        (TASK, What::Kick { cpu: 4 }, "9 0.0 kick 4\n"),
        (TASK, What::Arrive { lock: LOCK }, "9 0.0 arrive 7\n"),
        (TASK, pass(0), "9 0.0 pass 7 63.5\n"),
        (TASK, pass(12), "9 0.0 pass 7 63.5 moved 12\n"),
        (TASK, What::Flush { lock: LOCK }, "9 0.0 flush 7\n"),
        (TASK, What::Promote { lock: LOCK }, "9 0.0 promote 7\n"),
        (TASK, What::Leave { lock: LOCK }, "9 0.0 leave 7\n"),
        (TASK, What::Halt { lock: LOCK }, "9 0.0 halt 7\n"),
        (TASK, What::Wake { lock: LOCK }, "9 0.0 wake 7\n"),
        (LAST, What::Int, "9 63.5 int\n"),
        (TASK, What::Nudge, "9 0.0 nudge\n"),
        (TASK, rtake(RwHow::Fast), "9 0.0 rtake 7 fast\n"),
        (TASK, rtake(RwHow::Irq), "9 0.0 rtake 7 irq\n"),
        (TASK, What::RRelease { lock: LOCK }, "9 0.0 rrelease 7\n"),
        (TASK, wtake(RwHow::Queued), "9 0.0 wtake 7 queued\n"),
        (TASK, wtake(RwHow::Try), "9 0.0 wtake 7 try\n"),
        (TASK, What::WRelease { lock: LOCK }, "9 0.0 wrelease 7\n"),
    ];
    for (by, what, text) in table {
        let line = event_line(9, &Event { by, what });
        assert_eq!(rt; str::from_utf8(line.bytes()), Ok(text));
    }
}

const COUNTS: Counts = Counts {
    lock_pending: 10,
    lock_slowpath: 11,
    lock_use_node2: 12,
    lock_use_node3: 13,
    lock_use_node4: 14,
    lock_no_node: 15,
    pv_lock_stealing: 16,
    pv_wait_node: 17,
    pv_wait_head: 18,
    pv_kick_unlock: u64::MAX,
};

#[test]
fn end_and_counts_are_written_as_lines(rt: HostRuntime) -> Result<(), Fail> {
    let mut text = String::new(rt.alloc());
    text.push_str(str::from_utf8(end_line(100_000_000).bytes())?)?;
    for which in 0..10 {
        text.push_str(str::from_utf8(count_line(&COUNTS, which).bytes())?)?;
    }
    let wanted = "\
end 100000000
lock_pending 10
lock_slowpath 11
lock_use_node2 12
lock_use_node3 13
lock_use_node4 14
lock_no_node 15
pv_lock_stealing 16
pv_wait_node 17
pv_wait_head 18
pv_kick_unlock 18446744073709551615
";
    assert_eq!(rt; text.as_str(), wanted);
    Ok(())
}
