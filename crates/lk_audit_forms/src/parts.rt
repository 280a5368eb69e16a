// The parts of a line, and the numbers among them.
ghost use Rattle.std.specs.Prelude.{◌≡◌, ◌==◌, ◌<◌, ◌∷◌, [], MatchOption};
ghost use Rattle.std.specs.List.{position};
ghost use Rattle.std.specs.Option.{option_map};
ghost use Rattle.lk_audit_forms.specs.Parts.{parts, words_left, shown, one_word, two_words, has_leading_zero, plain_number, small_number};

use lk_text::read_number;

fn first_mark(bytes: &[u8], mark: u8) -> Option<usize>
    ensures { result ≡ position (λ b. b == mark) bytes.now }
{
    bytes.iter().position(|b| *b == mark)
}

/// The part in front, and the bytes behind the mark that ends it, if one does.
pub(crate) fn cut(bytes: &[u8], mark: u8) -> (&[u8], Option<&[u8]>)
    ensures { MatchOption result.1 (parts mark bytes.now ≡ result.0.now ∷ [])
        (λ rest. parts mark bytes.now ≡ result.0.now ∷ parts mark rest.now) }
{
    match first_mark(bytes, mark) {
        None => (bytes, None),
        Some(at) => (&bytes[..at], Some(&bytes[at + 1..])),
    }
}

/// The next word, and the words behind it.
pub(crate) fn next_word(words: Option<&[u8]>) -> Option<(&[u8], Option<&[u8]>)>
    ensures { MatchOption result (words_left words.entry ≡ [])
        (λ both. words_left words.entry ≡ both.0.now ∷ words_left both.1) }
{
    Some(cut(words?, b' '))
}

/// Exactly one word.
pub(crate) fn one_word(words: Option<&[u8]>) -> Option<&[u8]>
    ensures { shown result ≡ one_word (words_left words.entry) }
{
    match next_word(words)? {
        (word, None) => Some(word),
        (_, Some(_)) => None,
    }
}

/// Exactly two words.
pub(crate) fn two_words(words: Option<&[u8]>) -> Option<(&[u8], &[u8])>
    ensures { option_map (λ both. (both.0.now, both.1.now)) result ≡ two_words (words_left words.entry) }
{
    let (first, rest) = next_word(words)?;
    Some((first, one_word(rest)?))
}

fn has_leading_zero(word: &[u8]) -> bool
    ensures { result ≡ has_leading_zero word.now }
{
    match word {
        [first, _, ..] => *first == b'0',
        _ => false,
    }
}

/// The number below 2^64 that a word writes as it is printed.
pub(crate) fn plain_number(word: &[u8]) -> Option<u64>
    ensures { result ≡ plain_number word.now }
{
    if has_leading_zero(word) {
        return None;
    }
    read_number(word)
}

/// The same, below 2^32.
pub(crate) fn small_number(word: &[u8]) -> Option<u32>
    ensures { result ≡ small_number word.now }
{
    u32::try_from(plain_number(word)?).ok()
}
