// The queues of a lock, as they change.
ghost use Rattle.std.specs.Prelude.{◌≡◌, ◌≤◌, ◌<◌, ◌+◌, length, All, map};
ghost use Rattle.std.proofs.Common.{suc};
ghost use Rattle.lk_names.specs.Lists.{lists_passed, lists_rejoined};
ghost use Rattle.lk_abs.specs.Breaches.{first_over};

use lk_names::{Breach, List, Lists, LockName, Waiter};

/// Counts one more handoff past each waiter of the secondary queue.
fn count_on(passes: &mut List<u32>)
    requires { All (λ n. n ≤ 65535) passes.old.items }
    ensures { passes.new ≡ record passes.old { items = map (λ n. suc n) passes.old.items } }
{
    for at in 0..passes.len() {
        let count = passes.get_mut(at);
        *count += 1;
    }
}

/// The queue head hands off: so many waiters behind it move to the secondary queue, and the head
/// leaves.
pub(crate) fn hand_on(lists: &mut Lists, moved: usize)
    requires moved { moved < length lists.old.main.items }
    requires second { length lists.old.second.items + moved ≤ lists.old.second.room }
    requires passes { length lists.old.passes.items + moved ≤ lists.old.passes.room }
    requires few { All (λ n. n ≤ 65535) lists.old.passes.items }
    ensures { lists.new ≡ lists_passed lists.old moved }
{
    lists.main.pop_front();
    for _ in 0..moved {
        let aside = lists.main.pop_front();
        lists.second.push(aside);
        lists.passes.push(0);
    }
    count_on(&mut lists.passes);
}

/// The secondary queue returns, directly behind the queue head.
pub(crate) fn rejoin(lists: &mut Lists)
    requires front { 0 < length lists.old.main.items }
    requires room { length lists.old.main.items + length lists.old.second.items
        ≤ lists.old.main.room }
    ensures { lists.new ≡ lists_rejoined lists.old }
{
    let front = lists.main.pop_front();
    for _ in 0..lists.second.len() {
        let back = lists.second.pop();
        lists.main.push_front(back);
    }
    lists.main.push_front(front);
    lists.passes.clear();
}

/// The earliest of these waiters whom one more handoff would pass too often.
pub(crate) fn first_over(
    lock: LockName,
    threshold: u32,
    waiters: &[Waiter],
    passes: &[u32],
) -> Option<Breach>
    requires { All (λ n. n ≤ 65535) passes.now }
    ensures { result ≡ first_over lock threshold waiters.now (map (λ n. suc n) passes.now) }
{
    for at in 0..waiters.len() {
        if at == passes.len() {
            return None;
        }
        if passes[at] >= threshold {
            return Some(Breach::OverThreshold {
                lock,
                waiter: waiters[at],
                passes: passes[at] + 1,
            });
        }
    }
    None
}
