// The number that a word writes.
ghost use Rattle.std.specs.Prelude.{◌≡◌, ◌<◌, ◌+◌, ◌*◌, ◌^◌, SomeIff};
ghost use Rattle.lk_text.specs.Numbers.{number_of};

/// The most digits of a number, leading zeros included.
pub const MAX_DIGITS: usize = 20;

// The number with one more digit, if it stays below 2^64.
fn with_digit(value: u64, digit: u8) -> Option<u64>
    ensures { SomeIff result (value * 10 + digit < 2 ^ 64) (value * 10 + digit) }
{
    value.checked_mul(10)?.checked_add(u64::from(digit))
}

/// Reads a number in decimal: a word of 1 to 20 digits with a value below 2^64. Leading zeros are
/// allowed, and count as digits. Returns `None` for any other word.
pub fn read_number(word: &[u8]) -> Option<u64>
    ensures { result ≡ number_of word.now }
{
    if word.is_empty() || word.len() > MAX_DIGITS {
        return None;
    }
    let mut value: u64 = 0;
    for b in word {
        if !b.is_ascii_digit() {
            return None;
        }
        value = with_digit(value, *b - b'0')?;
    }
    Some(value)
}
