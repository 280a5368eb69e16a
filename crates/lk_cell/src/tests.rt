// What no clause says: that a cell can be made, and that its value is the one that was left.
ghost use Rattle.std.specs.Prelude.{◌≡◌, ◌%◌};

use crate::{Any, Fits, KeyCell};
use std::alloc::AllocError;

// While its cell is shut the number is even.
struct Even;

impl Fits<u64> for Even {
    ghost fits = { λ number. number % 2 ≡ 0 };
}

#[test]
fn value_is_worked_on_in_place(rt: HostRuntime) -> Result<(), AllocError> {
    let (cell, mut key) = KeyCell::<u32, Any>::new(rt.alloc(), 7)?;
    let first = cell.with(&mut key, |value: &mut u32| -> u32 {
        let old = *value;
        *value = 9;
        old
    });
    let second = cell.with(&mut key, |value: &mut u32| -> u32 { *value });
    assert_eq!(rt; first, 7);
    assert_eq!(rt; second, 9);
    assert_eq!(rt; cell.into_value(key), 9);
    Ok(())
}

#[test]
fn value_fits_while_the_cell_is_shut(rt: HostRuntime) -> Result<(), AllocError> {
    let (cell, mut key) = KeyCell::<u64, Even>::new(rt.alloc(), 6)?;
    cell.with(
        &mut key,
        |number: &mut u64|
            requires { number.old % 2 ≡ 0 }
            ensures { number.new % 2 ≡ 0 }
        {
            if *number < 1_000 {
                *number += 1;
                *number += 3;
            }
        },
    );
    let number = cell.into_value(key);
    prove!(number % 2 == 0);
    assert_eq!(rt; number, 10);
    Ok(())
}
