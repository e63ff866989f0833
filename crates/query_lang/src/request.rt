//! Request lines: what each asks for.
ghost use Rattle.std.specs.Prelude.{◌≡◌, IfOk};
ghost use Rattle.std.specs.Option.{option_copied};
ghost use Rattle.network_text.specs.Sheets.{number_of};
ghost use Rattle.query_lang.specs.Requests.{AreEnds, HasEnds, IsOf, ends_between, ends_of};
ghost use Rattle.query_lang.specs.Requests.{fault_number, needs_record as needs, of_one_word, request_of};
ghost use Rattle.query_lang.specs.Requests.{weakest_of, words_ask};
ghost use Rattle.text_forms.specs.Words.{words_of};

use network_text::Sheet;
use text_forms::{is_long, is_passed, split_word, two_words, without_return};
use thiserror::Error;

/// What a line asks for.
#[derive(Clone, Copy, PartialEq, Eq, Debug)]
pub enum Request {
    /// An empty line or a remark, to which there is no reply.
    Nothing,
    /// A network text follows.
    Load,
    /// The least cut between two routers, by their numbers. The two differ, and both are terminals of
    /// the sheet with which the line was parsed.
    Cut(u32, u32),
    /// The path between two such routers in the tree.
    Path(u32, u32),
    /// The tree of the network.
    Tree,
    /// The commits that made the tree, in their order.
    Run,
    /// The network.
    Net,
    /// The weakest edge of the tree, and so the least cut of the whole network, which has two terminals
    /// or more.
    Weakest,
    /// A flow for each edge of the path between two such routers, of the edge's width.
    Witness(u32, u32),
    /// The certificate: the network, its tree, and a flow for each edge of it.
    Certificate,
    /// The end of the session.
    Bye,
}

impl Request {
    /// Whether it asks for something of a record: of a network, its tree, or the run that made it.
    /// So `Request::Tree.needs_record()` is true, and `Request::Bye.needs_record()` isn't.
    pub fn needs_record(&self) -> bool
        ensures { result ≡ needs self.now }
    {
        match self {
            Request::Nothing | Request::Load | Request::Bye => false,
            Request::Cut(_, _)
            | Request::Path(_, _)
            | Request::Tree
            | Request::Run
            | Request::Net
            | Request::Weakest
            | Request::Witness(_, _)
            | Request::Certificate => true,
        }
    }
}

/// Why a request line is refused. The first applies in this order: `LineTooLong`, `UnknownWord`,
/// `WrongCount`, `NoNetwork`, `UnknownRouter`, `SameRouter`, `OneRouter`.
#[derive(Clone, Copy, PartialEq, Eq, Debug, Error)]
pub enum RequestFault {
    /// The first word is no request word.
    #[error("unknown word")]
    UnknownWord,
    /// The line has more than `MOST_LINE_BYTES` bytes.
    #[error("line too long")]
    LineTooLong,
    /// The request asks for another number of words.
    #[error("wrong number of words")]
    WrongCount,
    /// A name is that of no router of the network.
    #[error("unknown router")]
    UnknownRouter,
    /// Both names are the same.
    #[error("the same router twice")]
    SameRouter,
    /// There is no network yet.
    #[error("no network yet")]
    NoNetwork,
    /// The network has one terminal alone, so no cut.
    #[error("only one router")]
    OneRouter,
}

impl RequestFault {
    /// The number by which clients are told of it: `RequestFault::NoNetwork.number()` is 6.
    pub fn number(self) -> u32
        ensures { result ≡ fault_number self }
    {
        match self {
            RequestFault::UnknownWord => 1,
            RequestFault::LineTooLong => 2,
            RequestFault::WrongCount => 3,
            RequestFault::UnknownRouter => 4,
            RequestFault::SameRouter => 5,
            RequestFault::NoNetwork => 6,
            RequestFault::OneRouter => 8,
        }
    }
}

/// What the line asks for, by the names of the sheet. A line is given without its line feed; of one
/// that is too long, one byte more than the most suffices. It takes no memory, and goes over the line
/// a few times.
///
/// Where `a` and `b` are the first two routers, `parse_request(b"CUT b a", Some(&sheet))` gives
/// `Ok(Request::Cut(1, 0))`.
///
/// # Errors
/// The first fault that applies. `NoNetwork` where there is no sheet, for each request that needs a
/// record.
pub fn parse_request(line: &[u8], sheet: Option<&Sheet>) -> Result<Request, RequestFault>
    ensures value { result ≡ request_of (option_copied sheet.entry) line.now }
    ensures of { IfOk result (IsOf (option_copied sheet.entry)) }
{
    if is_passed(line) {
        return Ok(Request::Nothing);
    }
    if is_long(line) {
        return Err(RequestFault::LineTooLong);
    }
    parse_words(without_return(line), sheet)
}

/// What the words of a line ask for.
fn parse_words(text: &[u8], sheet: Option<&Sheet>) -> Result<Request, RequestFault>
    ensures value { result ≡ words_ask (option_copied sheet.entry) (words_of text.now) }
    ensures of { IfOk result (IsOf (option_copied sheet.entry)) }
{
    let Some((word, behind)) = split_word(text) else {
        return Ok(Request::Nothing);
    };
    if word == b"LOAD".as_slice() {
        parse_one_word(Request::Load, behind, sheet)
    } else if word == b"CUT".as_slice() {
        let (a, b) = parse_ends(behind, sheet)?;
        Ok(Request::Cut(a, b))
    } else if word == b"PATH".as_slice() {
        let (a, b) = parse_ends(behind, sheet)?;
        Ok(Request::Path(a, b))
    } else if word == b"TREE".as_slice() {
        parse_one_word(Request::Tree, behind, sheet)
    } else if word == b"RUN".as_slice() {
        parse_one_word(Request::Run, behind, sheet)
    } else if word == b"NET".as_slice() {
        parse_one_word(Request::Net, behind, sheet)
    } else if word == b"WEAKEST".as_slice() {
        parse_weakest(behind, sheet)
    } else if word == b"WITNESS".as_slice() {
        let (a, b) = parse_ends(behind, sheet)?;
        Ok(Request::Witness(a, b))
    } else if word == b"CERTIFICATE".as_slice() {
        parse_one_word(Request::Certificate, behind, sheet)
    } else if word == b"BYE".as_slice() {
        parse_one_word(Request::Bye, behind, sheet)
    } else {
        Err(RequestFault::UnknownWord)
    }
}

/// A request of one word, by what stands behind it. One that needs a record is refused where there is
/// none.
fn parse_one_word(
    request: Request,
    text: &[u8],
    sheet: Option<&Sheet>,
) -> Result<Request, RequestFault>
    ensures { result ≡ of_one_word request (option_copied sheet.entry) (words_of text.now) }
{
    if split_word(text).is_some() {
        return Err(RequestFault::WrongCount);
    }
    if sheet.is_none() && request.needs_record() {
        return Err(RequestFault::NoNetwork);
    }
    Ok(request)
}

/// What stands behind `WEAKEST` asks for.
fn parse_weakest(text: &[u8], sheet: Option<&Sheet>) -> Result<Request, RequestFault>
    ensures value { result ≡ weakest_of (option_copied sheet.entry) (words_of text.now) }
    ensures of { IfOk result (IsOf (option_copied sheet.entry)) }
{
    let request = parse_one_word(Request::Weakest, text, sheet)?;
    let known = sheet.ok_or(RequestFault::NoNetwork)?;
    if known.net().terminals() < 2 {
        return Err(RequestFault::OneRouter);
    }
    Ok(request)
}

/// The two routers that the words behind `CUT`, `PATH` or `WITNESS` name.
fn parse_ends(text: &[u8], sheet: Option<&Sheet>) -> Result<(u32, u32), RequestFault>
    ensures value { result ≡ ends_of (option_copied sheet.entry) (words_of text.now) }
    ensures of { IfOk result (λ ends. HasEnds (option_copied sheet.entry) ends.0 ends.1) }
{
    let (first, second) = two_words(text).ok_or(RequestFault::WrongCount)?;
    let sheet = sheet.ok_or(RequestFault::NoNetwork)?;
    find_ends(sheet, first, second)
}

/// Two terminals by their names.
fn find_ends(sheet: &Sheet, first: &[u8], second: &[u8]) -> Result<(u32, u32), RequestFault>
    ensures value { result
        ≡ ends_between (number_of sheet.now.names first.now) (number_of sheet.now.names second.now) }
    ensures of { IfOk result (λ ends. AreEnds sheet.now ends.0 ends.1) }
{
    let a = sheet.number_of(first).ok_or(RequestFault::UnknownRouter)?;
    let b = sheet.number_of(second).ok_or(RequestFault::UnknownRouter)?;
    prove!(a.max(b) < sheet.net().routers());
    if a == b {
        return Err(RequestFault::SameRouter);
    }
    Ok((a, b))
}
