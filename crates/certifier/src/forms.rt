//! What the lines of a certificate say. A line is given without its line feed, and of one that is too long one byte
//! more than a line may have suffices.
ghost use Rattle.std.specs.Prelude.{◌≡◌, ◌≢◌, ◌∷◌, ◌≤◌, [], None, Some, MatchOption};
ghost use Rattle.certifier.specs.Forms.{edge_words as edge_in, is_done as done_line, is_reply as reply_line};
ghost use Rattle.certifier.specs.Forms.{is_skipped as skipped_line, is_title as title_line, on_word as on_in};
ghost use Rattle.certifier.specs.Forms.{root_word as root_in, short_words, signed_in};
ghost use Rattle.certifier.specs.Signs.{IsSigned, with_sign};
ghost use Rattle.cut_model.specs.declared.network.TheConstants.{MOST_CAPACITY};
ghost use Rattle.text_forms.specs.Words.{words_of};

use text_forms::{
    is_long, is_passed, one_word, parse_number, split_word, three_words, two_words, without_return,
};

/// The text of a line that isn't too long, and of one that is, none.
fn short_text(line: &[u8]) -> &[u8]
    ensures { words_of result.now ≡ short_words line.now }
{
    if is_long(line) {
        &[]
    } else {
        without_return(line)
    }
}

/// The line is the title: `cut tree 1` is it.
pub(crate) fn is_title(line: &[u8]) -> bool
    ensures { result ≡ title_line line.now }
{
    match three_words(short_text(line)) {
        None => false,
        Some((first, second, third)) => {
            first == b"cut".as_slice() && second == b"tree".as_slice() && third == b"1".as_slice()
        }
    }
}

/// The word behind `root`: of `root a` it gives `a`.
pub(crate) fn root_word(line: &[u8]) -> Option<&[u8]>
    ensures { MatchOption result (root_in (short_words line.now) ≡ None)
        (λ word. root_in (short_words line.now) ≡ Some word.now) }
{
    let (word, name) = two_words(short_text(line))?;
    if word == b"root".as_slice() {
        Some(name)
    } else {
        None
    }
}

/// The words behind `edge`: of `edge b a 7` these are `b`, `a` and `7`.
pub(crate) fn edge_words(line: &[u8]) -> Option<(&[u8], &[u8], &[u8])>
    ensures { MatchOption result (edge_in (short_words line.now) ≡ None)
        (λ words. edge_in (short_words line.now)
        ≡ Some record { child = words.0.now; up = words.1.now; width = words.2.now }) }
{
    let (word, behind) = split_word(short_text(line))?;
    let words = three_words(behind)?;
    if word == b"edge".as_slice() {
        Some(words)
    } else {
        None
    }
}

/// The word behind `on`: of `on -7` it gives `-7`.
pub(crate) fn on_word(line: &[u8]) -> Option<&[u8]>
    ensures { MatchOption result (on_in (short_words line.now) ≡ None)
        (λ word. on_in (short_words line.now) ≡ Some word.now) }
{
    let (word, value) = two_words(short_text(line))?;
    if word == b"on".as_slice() {
        Some(value)
    } else {
        None
    }
}

/// The line ends a certificate: `DONE` does.
pub(crate) fn is_done(line: &[u8]) -> bool
    ensures { result ≡ done_line line.now }
{
    match one_word(short_text(line)) {
        None => false,
        Some(word) => word == b"DONE".as_slice(),
    }
}

/// The line begins a reply: its first byte is `@`.
fn is_reply(line: &[u8]) -> bool
    ensures { result ≡ reply_line line.now }
{
    match line.first() {
        None => false,
        Some(byte) => *byte == b'@',
    }
}

/// The line of this number is passed over: an empty one, a remark, and where it is the first one the beginning of a
/// reply.
pub(crate) fn is_skipped(number: u32, line: &[u8]) -> bool
    ensures { result ≡ skipped_line number line.now }
{
    is_passed(line) || (number == 1 && is_reply(line) && !is_long(line))
}

/// A number that may have a minus sign. One past the type has its largest size.
#[derive(Clone, Copy)]
pub(crate) struct Signed {
    /// There is a minus sign.
    pub minus: bool,
    /// The number behind the sign.
    pub size: u64,
}

impl Signed {
    /// The number.
    pub(crate) fn value(self) -> i64
        requires { self.size ≤ MOST_CAPACITY }
        ensures { result ≡ with_sign self.minus self.size }
    {
        if self.minus {
            -(self.size as i64)
        } else {
            self.size as i64
        }
    }
}

/// The value of one digit or more, behind a minus sign or not; none where the bytes are no such number. `-07` is 7
/// behind a minus sign, and `+7` is no number.
pub(crate) fn parse_signed(bytes: &[u8]) -> Option<Signed>
    ensures { IsSigned (signed_in bytes.now) result }
{
    match bytes.split_first() {
        Some((first, digits)) if *first == b'-' => {
            let size = parse_number(digits)?;
            Some(Signed { minus: true, size })
        }
        _ => {
            let size = parse_number(bytes)?;
            Some(Signed { minus: false, size })
        }
    }
}
