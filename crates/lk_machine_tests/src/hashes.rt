// The hash of locks: it is filled and emptied, also where all of its locks have one home.

ghost use Rattle.std.specs.Prelude.{◌≡◌, ◌<◌, ◌≤◌, ◌+◌, [], length};

use lk_hash::LockHash;
use std::test::Fail;

// The n-th of sixteen locks that have one home among sixteen places. Each is sixteen above the one
// before.
fn crowded(n: u32) -> u32
    requires { n < 16 }
{
    16 * n + 7
}

// Enters a lock that is not entered.
#[tactic(auto, using(lk_hash::proofs::Entries::lengths))]
fn put(hash: &mut LockHash, lock: u32, node: u32) -> bool
    requires { length hash.old.entries < hash.old.places }
    ensures places { hash.new.places ≡ hash.old.places }
    ensures entries { length hash.new.entries ≤ length hash.old.entries + 1 }
{
    if hash.find(lock).is_some() {
        return false;
    }
    hash.enter(lock, node);
    true
}

// Takes a lock out that is entered, and gives its node.
fn take(hash: &mut LockHash, lock: u32) -> Option<u32> {
    hash.find(lock)?;
    Some(hash.remove(lock))
}

// Enters all of them into a hash of sixteen places.
fn fills(hash: &mut LockHash) -> bool
    requires { hash.old.entries ≡ [] }
{
    if hash.places() != 16 {
        return false;
    }
    for n in 0..16 {
        if !put(hash, crowded(n), n + 100) {
            return false;
        }
    }
    true
}

// Whether each of them has its node.
fn finds(hash: &LockHash) -> bool {
    for n in 0..16 {
        if hash.find(crowded(n)) != Some(n + 100) {
            return false;
        }
    }
    true
}

// Takes them out in the opposite order.
fn empties(hash: &mut LockHash) -> bool {
    for n in (0..16).rev() {
        if take(hash, crowded(n)) != Some(n + 100) || hash.find(crowded(n)).is_some() {
            return false;
        }
    }
    true
}

#[test]
fn is_filled_and_emptied(rt: HostRuntime) -> Result<(), Fail> {
    let mut hash = LockHash::new(rt.alloc(), 3)?;
    assert!(rt; fills(&mut hash));
    assert!(rt; finds(&hash));
    assert!(rt; hash.find(8).is_none());
    assert!(rt; empties(&mut hash));
    Ok(())
}

// Where one of three that have one home was taken out, the one behind it is still found; and a new
// one comes to its place.
#[test]
fn finds_past_what_was_removed(rt: HostRuntime) -> Result<(), Fail> {
    let mut hash = LockHash::new(rt.alloc(), 3)?;
    assert!(rt; put(&mut hash, crowded(0), 1));
    assert!(rt; put(&mut hash, crowded(1), 2));
    assert!(rt; put(&mut hash, crowded(2), 3));
    assert!(rt; take(&mut hash, crowded(1)) == Some(2));
    assert!(rt;
        [
            hash.find(crowded(0)),
            hash.find(crowded(1)),
            hash.find(crowded(2))
        ] == [Some(1), None, Some(3)]
    );
    Ok(())
}
