// The words of a line.
ghost use Rattle.std.specs.Prelude.{◌≡◌, not, ◌≤◌, ◌<◌, ◌∷◌, [], MatchOption, IfSome, length};
ghost use Rattle.std.specs.List.{position, position_or_len};
ghost use Rattle.lk_forms.specs.Words.{is_blank, is_allowed, is_text, is_comment, words};
ghost use Rattle.lk_forms.specs.Fronts.{ends_word};

/// Whether the byte is a space, a tab or a carriage return.
#[inline]
pub(crate) fn is_blank(b: u8) -> bool
    ensures { result ≡ is_blank b }
{
    matches!(b, b' ' | b'\t' | b'\r')
}

fn is_allowed(b: u8) -> bool
    ensures { result ≡ is_allowed b }
{
    (b' '..=b'~').contains(&b) | (b == b'\t') | (b == b'\r')
}

/// Whether a line may have each of these bytes: 0x20 to 0x7e, tab and carriage return.
pub fn is_text(line: &[u8]) -> bool
    ensures { result ≡ is_text line.now }
{
    // No byte ends the loop, so that the compiler takes sixteen at a time.
    let mut all = true;
    for b in line {
        all &= is_allowed(*b);
    }
    all
}

/// Whether a line with this first word is a comment: the word begins with `#`.
pub fn is_comment(word: &[u8]) -> bool
    ensures { result ≡ is_comment word.now }
{
    match word {
        [] => false,
        [b, ..] => *b == b'#',
    }
}

/// Whether a word that stands in front of these bytes ends there: none is left, or a blank comes.
#[inline]
pub(crate) fn is_word_end(bytes: &[u8]) -> bool
    ensures { result ≡ ends_word bytes.now }
{
    match bytes {
        [] => true,
        [b, ..] => is_blank(*b),
    }
}

fn first_blank(bytes: &[u8]) -> Option<usize>
    ensures { result ≡ position is_blank bytes.now }
{
    bytes.iter().position(|b| is_blank(*b))
}

fn first_other(bytes: &[u8]) -> Option<usize>
    ensures { result ≡ position (λ b. not (is_blank b)) bytes.now }
{
    bytes.iter().position(|b| !is_blank(*b))
}

// Where the first word starts, or the end of the bytes.
#[tactic(auto, using(crate::proofs::WordLemmas::places))]
fn word_start(bytes: &[u8]) -> usize
    ensures place { result ≡ position_or_len (λ b. not (is_blank b)) bytes.now }
    ensures within { result ≤ length bytes.now }
{
    first_other(bytes).unwrap_or(bytes.len())
}

// Where the word ends that stands in front.
#[tactic(auto, using(crate::proofs::WordLemmas::places))]
fn word_end(bytes: &[u8]) -> usize
    ensures place { result ≡ position_or_len is_blank bytes.now }
    ensures within { result ≤ length bytes.now }
{
    first_blank(bytes).unwrap_or(bytes.len())
}

/// The first word, and the bytes behind it; none if there is no word. Spaces, tabs and carriage
/// returns separate words.
pub fn next_word(bytes: &[u8]) -> Option<(&[u8], &[u8])>
    ensures words { MatchOption result (words bytes.now ≡ [])
        (λ both. words bytes.now ≡ both.0.now ∷ words both.1.now) }
    ensures shorter { IfSome result (λ both. length both.1.now < length bytes.now) }
{
    let (_, bytes) = bytes.split_at(word_start(bytes));
    if bytes.is_empty() {
        return None;
    }
    Some(bytes.split_at(word_end(bytes)))
}
