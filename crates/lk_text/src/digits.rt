//! Texts and numbers, written at a place of a slice of bytes.
ghost use Rattle.std.specs.Prelude.{◌≡◌, ◌≤◌, ◌+◌, ◌++◌, length, take, decimal};

use itoa::write_digits;

/// Copies a text to the place `at`.
#[inline(always)]
pub(crate) fn copy_at(bytes: &mut [u8], at: usize, text: &[u8])
    requires { at + length text.now ≤ length bytes.old }
    ensures { take (at + length text.now) bytes.new ≡ take at bytes.old ++ text.now }
{
    let end = at + text.len();
    let place = &mut bytes[at..end];
    place.copy_from_slice(text);
}

/// Writes a number in decimal at the place `at`, and returns the place behind it.
#[inline(always)]
pub(crate) fn print_at(bytes: &mut [u8], at: usize, n: u64) -> usize
    requires { at + length (decimal n) ≤ length bytes.old }
    ensures end { result ≡ at + length (decimal n) }
    ensures text { take (at + length (decimal n)) bytes.new ≡ take at bytes.old ++ decimal n }
    ensures short { length (decimal n) ≤ 20 }
{
    let end = at + digit_count(n);
    let _ = write_digits(n, bytes, end);
    end
}

// How many digits the number has.
#[inline]
fn digit_count(n: u64) -> usize
    ensures count { result ≡ length (decimal n) }
    ensures short { result ≤ 20 }
{
    let mut left = n;
    let mut count = 1;
    while left >= 10 {
        left /= 10;
        count += 1;
    }
    count
}
