// Lists that go on with zeros: behind its last item a list has a zero at each position.

ghost use Rattle.std.specs.Prelude.{◌≡◌, ◌++◌, ◌∷◌, [], OnOk, slice_index_or, true};
ghost use Rattle.lk_reach.specs.Numbers.{Pads, Puts};

use lk_names::Memory;

/// The item at a position.
#[inline]
pub(crate) fn item_at<T: Copy>(items: &Vec<T>, at: usize, zero: T) -> T
    ensures { result ≡ slice_index_or items.now.items at zero }
{
    match items.get(at) {
        Some(item) => *item,
        None => zero,
    }
}

// Adds an item.
#[inline]
fn push_item<T: Copy + Drop>(items: &mut Vec<T>, item: T) -> Result<(), Memory>
    ensures { OnOk result (items.new.items ≡ items.old.items ++ item ∷ []) }
{
    items.push(item).map_err(|_| Memory)
}

// Makes a list go on up to a position.
fn pad<T: Copy + Drop>(items: &mut Vec<T>, at: usize, zero: T) -> Result<(), Memory>
    ensures { OnOk result (Pads zero items.old.items items.new.items at) }
{
    for _made in items.len()..at {
        push_item(items, zero)?;
    }
    Ok(())
}

// Puts an item at a position, though it may be zero.
#[inline(never)]
fn set_item<T: Copy + Drop>(items: &mut Vec<T>, at: usize, item: T, zero: T) -> Result<(), Memory>
    ensures { OnOk result (Puts zero items.old.items items.new.items at item) }
{
    if at < items.len() {
        items[at] = item;
        return Ok(());
    }
    pad(items, at, zero)?;
    push_item(items, item)?;
    Ok(())
}

/// Puts an item at a position.
///
/// # Errors
///
/// There is not enough memory.
#[inline]
pub(crate) fn put_item<T: Copy + Drop>(
    items: &mut Vec<T>,
    at: usize,
    item: T,
    zero: T,
    is_zero: bool,
) -> Result<(), Memory>
    requires { is_zero ≡ true → item ≡ zero }
    ensures { OnOk result (Puts zero items.old.items items.new.items at item) }
{
    if is_zero && at >= items.len() {
        return Ok(());
    }
    if at == items.len() && at < items.capacity() {
        items.push_reserved(item);
        return Ok(());
    }
    set_item(items, at, item, zero)
}
