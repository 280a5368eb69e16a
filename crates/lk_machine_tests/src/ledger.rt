// Jobs on the balances of a ledger.
ghost use Rattle.lk_names.specs.Jobs.{IsAmong};

use lk_names::{Job, List, Reply, apply};
use std::process::Abort;
use std::test::Fail;

/// 2^63 - 8: with 5 on another account the sum is 2 below the most that it may be.
const NEARLY_FULL: u64 = 9_223_372_036_854_775_800;

// Does a job on two balances, and sees what it answers and leaves.
fn comes_to(
    rt: &(impl Abort + AllocGlobal),
    job: Job,
    reply: Reply,
    left: [u64; 2],
) -> Result<(), Fail>
    requires { IsAmong 2 job }
{
    let mut balances = List::from_slice(rt.alloc(), &[5, NEARLY_FULL])?;
    assert!(rt; apply(&mut balances, job) == reply);
    assert!(rt; balances.as_slice() == left.as_slice());
    Ok(())
}

#[test]
fn jobs_move_and_add(rt: HostRuntime) -> Result<(), Fail> {
    let full = NEARLY_FULL;
    let moved = |from, to, amount| Job::Move { from, to, amount };
    comes_to(&rt, moved(0, 1, 5), Reply::Done, [0, full + 5])?;
    comes_to(&rt, moved(0, 1, 6), Reply::Short, [5, full])?;
    comes_to(&rt, moved(0, 0, 5), Reply::Done, [5, full])?;
    let add = |amount| Job::Add { account: 1, amount };
    comes_to(&rt, add(2), Reply::Done, [5, full + 2])?;
    comes_to(&rt, add(3), Reply::Full, [5, full])?;
    comes_to(&rt, Job::Sum, Reply::Amount(full + 5), [5, full])?;
    comes_to(&rt, Job::Get { account: 0 }, Reply::Amount(5), [5, full])
}
