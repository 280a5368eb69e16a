// What no clause says: that readers are in at once, that all copies of a value are one after an update, and
// that the value which comes out is the one that was left last.
use lk_lock::{Locks, Open, Seat};
use lk_lock_tests::last;
use lk_names::{Memory, Mode};

#[test]
fn two_readers_are_in_at_once(rt: HostRuntime) -> Result<(), Memory> {
    let mut locks = Locks::new(rt.alloc(), 2)?;
    let limit = locks.shared(7u64)?;
    let Open { domain, mut cpus } = locks.open(Mode::Native)?;
    let mut second = last(&domain, &mut cpus);
    let mut first = last(&domain, &mut cpus);
    let mut inner = Seat::new(&rt, &domain, &mut second);
    let mut outer = Seat::new(&rt, &domain, &mut first);
    let both = outer.read(&limit, |mine: &u64| -> (u64, u64) {
        let other = inner.read(&limit, |limit: &u64| -> u64 { *limit });
        (*mine, other)
    });
    assert_eq!(rt; both, (7, 7));
    Ok(())
}

#[test]
fn all_read_what_a_writer_left(rt: HostRuntime) -> Result<(), Memory> {
    let mut locks = Locks::new(rt.alloc(), 2)?;
    let count = locks.spin(1u64)?;
    let limit = locks.shared(7u64)?;
    let Open { domain, mut cpus } = locks.open(Mode::Cna)?;
    let mut second = last(&domain, &mut cpus);
    let mut first = last(&domain, &mut cpus);
    let mut writer = Seat::new(&rt, &domain, &mut first);
    writer.update(&limit, |limit: &mut u64| {
        *limit = 9;
    });
    let mut reader = Seat::new(&rt, &domain, &mut second);
    let other = reader.read(&limit, |limit: &u64| -> u64 { *limit });
    let own = writer.read(&limit, |limit: &u64| -> u64 { *limit });
    let left = reader.update(&limit, |limit: &mut u64| -> u64 { *limit });
    assert_eq!(rt; (other, own, left), (9, 9, 9));
    let count = reader.with(&count, |count: &mut u64| -> u64 { *count });
    assert_eq!(rt; count, 1);
    Ok(())
}

#[test]
fn shared_value_comes_back(rt: HostRuntime) -> Result<(), Memory> {
    let mut locks = Locks::new(rt.alloc(), 1)?;
    let limit = locks.shared(7u64)?;
    let open = locks.open(Mode::Virt)?;
    let Ok(mut keys) = open.close(rt.alloc()) else {
        return Err(Memory);
    };
    assert_eq!(rt; limit.into_value(&mut keys), 7);
    Ok(())
}

#[test]
fn three_processors_read_what_each_left(rt: HostRuntime) -> Result<(), Memory> {
    let mut locks = Locks::new(rt.alloc(), 3)?;
    let limit = locks.shared(7u64)?;
    let Open { domain, mut cpus } = locks.open(Mode::Native)?;
    let mut third = last(&domain, &mut cpus);
    let mut second = last(&domain, &mut cpus);
    let mut first = last(&domain, &mut cpus);
    let mut last = Seat::new(&rt, &domain, &mut third);
    let mut middle = Seat::new(&rt, &domain, &mut second);
    let mut front = Seat::new(&rt, &domain, &mut first);
    front.update(&limit, |limit: &mut u64| *limit = 8);
    let by_middle = middle.read(&limit, |limit: &u64| -> u64 { *limit });
    let by_last = last.read(&limit, |limit: &u64| -> u64 { *limit });
    assert_eq!(rt; (by_middle, by_last), (8, 8));
    middle.update(&limit, |limit: &mut u64| *limit = 9);
    let by_front = front.read(&limit, |limit: &u64| -> u64 { *limit });
    let by_last = last.read(&limit, |limit: &u64| -> u64 { *limit });
    assert_eq!(rt; (by_front, by_last), (9, 9));
    last.update(&limit, |limit: &mut u64| *limit = 10);
    let by_front = front.read(&limit, |limit: &u64| -> u64 { *limit });
    let by_middle = middle.read(&limit, |limit: &u64| -> u64 { *limit });
    assert_eq!(rt; (by_front, by_middle), (10, 10));
    Ok(())
}
