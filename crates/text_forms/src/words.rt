//! The words of a line: its longest pieces without blanks.

ghost use Rattle.std.specs.Prelude.{◌≡◌, ◌≢◌, [], ◌∷◌, length, nat_lt, not, position, MatchOption};
ghost use Rattle.text_forms.specs.Words.{is_blank as blank_byte, goes_on, words_of};

/// A space or a tab.
fn is_blank(byte: u8) -> bool
    ensures { result ≡ blank_byte byte }
{
    byte == b' ' || byte == b'\t'
}

/// The place of the first byte of a word.
fn first_letter(bytes: &[u8]) -> Option<usize>
    ensures { result ≡ position (λ byte. not (blank_byte byte)) bytes.now }
{
    bytes.iter().position(|byte| !is_blank(*byte))
}

/// The place of the first blank.
fn first_blank(bytes: &[u8]) -> Option<usize>
    ensures { result ≡ position blank_byte bytes.now }
{
    bytes.iter().position(|byte| is_blank(*byte))
}

/// The bytes from the first word on. None are left exactly where there is no word.
pub(crate) fn from_first_word(bytes: &[u8]) -> &[u8]
    ensures same_words { words_of result.now ≡ words_of bytes.now }
    ensures at_word { goes_on result.now ≡ nat_lt 0 (length result.now) }
{
    match first_letter(bytes) {
        Some(start) => &bytes[start..],
        None => &[],
    }
}

/// The first word and what stands behind it; none where there is no word.
/// Goes to the end of the first word, and no further. Of ` link a b` it gives `link` and ` a b`.
pub fn split_word(bytes: &[u8]) -> Option<(&[u8], &[u8])>
    ensures { MatchOption result (words_of bytes.now ≡ [])
        (λ split. words_of bytes.now ≡ split.0.now ∷ words_of split.1.now) }
{
    let text = from_first_word(bytes);
    if text.is_empty() {
        return None;
    }
    let end = first_blank(text).unwrap_or(text.len());
    Some(text.split_at(end))
}

/// The word of a text, where there is just one. Like those below, it goes over the words that it gives, and no further
/// than to the beginning of the next. Of ` a ` it gives `a`, and of `a b` none.
pub fn one_word(text: &[u8]) -> Option<&[u8]>
    ensures { MatchOption result (length (words_of text.now) ≢ 1)
        (λ word. words_of text.now ≡ word.now ∷ []) }
{
    let (word, behind) = split_word(text)?;
    if split_word(behind).is_some() {
        return None;
    }
    Some(word)
}

/// The words of a text, where there are just two: of `a  b` these are `a` and `b`.
pub fn two_words(text: &[u8]) -> Option<(&[u8], &[u8])>
    ensures { MatchOption result (length (words_of text.now) ≢ 2)
        (λ words. words_of text.now ≡ words.0.now ∷ words.1.now ∷ []) }
{
    let (first, behind) = split_word(text)?;
    let second = one_word(behind)?;
    Some((first, second))
}

/// The words of a text, where there are just three: of `a\tb 7` these are `a`, `b` and `7`.
pub fn three_words(text: &[u8]) -> Option<(&[u8], &[u8], &[u8])>
    ensures { MatchOption result (length (words_of text.now) ≢ 3)
        (λ words. words_of text.now ≡ words.0.now ∷ words.1.now ∷ words.2.now ∷ []) }
{
    let (first, behind) = split_word(text)?;
    let (second, third) = two_words(behind)?;
    Some((first, second, third))
}
