//! What kind of line a line is. A line is given without its line feed.

ghost use Rattle.std.specs.Prelude.{◌≡◌};
ghost use Rattle.text_forms.specs.Lines.{is_long as long_line};
ghost use Rattle.text_forms.specs.Words.{
  words_of,
  without_return as line_text,
  is_remark,
  is_lone,
  is_passed as passed_line,
  is_word_line as word_line,
  is_load as load_line,
  is_end as end_line,
  is_bye as bye_line,
};

use crate::words::{from_first_word, split_word};

/// The most bytes that a line may have, its carriage return counted and its line feed not.
pub const MOST_LINE_BYTES: usize = 512;

/// A line of more than [`MOST_LINE_BYTES`] bytes is too long. One byte more than these of a line tells.
/// `router a` isn't too long.
pub fn is_long(line: &[u8]) -> bool
    ensures { result ≡ long_line line.now }
{
    line.len() > MOST_LINE_BYTES
}

/// The line without the carriage return that may be its last byte: of `BYE\r` it gives `BYE`, and of
/// `BYE` the same.
pub fn without_return(line: &[u8]) -> &[u8]
    ensures { result.now ≡ line_text line.now }
{
    match line.split_last() {
        Some((last, text)) => { if *last == b'\r' { text } else { line } }
        None => line,
    }
}

/// No word, or a first word that begins with a number sign. Looks no further than there.
fn starts_remark(text: &[u8]) -> bool
    ensures { result ≡ is_remark (words_of text.now) }
{
    match from_first_word(text).first() {
        None => true,
        Some(byte) => *byte == b'#',
    }
}

/// There is just this one word.
fn is_just(word: &[u8], text: &[u8]) -> bool
    ensures { result ≡ is_lone word.now (words_of text.now) }
{
    match split_word(text) {
        None => false,
        Some((first, behind)) => first == word && from_first_word(behind).is_empty(),
    }
}

/// A line with just this word, which isn't too long.
fn is_word_line(word: &[u8], line: &[u8]) -> bool
    ensures { result ≡ word_line word.now line.now }
{
    !is_long(line) && is_just(word, without_return(line))
}

/// An empty line or a remark, which isn't too long: it is passed over wherever lines are read.
/// Looks at the first byte of the first word and at what stands before it. `\t# x` is passed over, and
/// `x #` isn't.
pub fn is_passed(line: &[u8]) -> bool
    ensures { result ≡ passed_line line.now }
{
    !is_long(line) && starts_remark(without_return(line))
}

/// The line that begins a network text: ` LOAD\r` is one, and `load` or `LOAD x` is none.
pub fn is_load(line: &[u8]) -> bool
    ensures { result ≡ load_line line.now }
{
    is_word_line(b"LOAD", line)
}

/// The line that ends a network text: `END` is one, and `END.` is none.
pub fn is_end(line: &[u8]) -> bool
    ensures { result ≡ end_line line.now }
{
    is_word_line(b"END", line)
}

/// The line that ends a session: `BYE ` is one, and `BYEBYE` is none.
pub fn is_bye(line: &[u8]) -> bool
    ensures { result ≡ bye_line line.now }
{
    is_word_line(b"BYE", line)
}
