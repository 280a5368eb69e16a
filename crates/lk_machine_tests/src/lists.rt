// Lists in memory that was taken at their start.

use lk_names::List;
use std::test::Fail;

#[test]
fn items_come_and_go(rt: HostRuntime) -> Result<(), Fail> {
    let mut list: List<u32> = List::new(rt.alloc(), 4)?;
    assert!(rt; list.len() == 0);
    list.push(2);
    list.push(3);
    list.push_front(1);
    *list.get_mut(1) = 7;
    list.as_mut_slice().swap(0, 2);
    assert!(rt; list.as_slice() == [3, 7, 1].as_slice());
    let first = *list.get(0);
    let taken = [first, list.remove(1), list.pop_front(), list.pop()];
    assert!(rt; taken == [3, 7, 3, 1] && list.len() == 0);
    list.push(4);
    list.clear();
    assert!(rt; list.len() == 0);
    let full = List::from_slice(rt.alloc(), &[5, 6])?;
    assert!(rt; full.as_slice() == [5, 6].as_slice());
    Ok(())
}
