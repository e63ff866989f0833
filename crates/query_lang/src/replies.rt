//! Replies of one line, and the first lines of longer ones, written to a sink. Each begins with the
//! version of the network that it speaks of, 0 where there is none, and ends with a line feed. No call
//! takes memory.
ghost use Rattle.query_lang.specs.Replies.{bye_text, head_text, line_piece, loaded_text};
ghost use Rattle.query_lang.specs.Replies.{refusal_head, refused_text};
ghost use Rattle.wires.specs.Puts.{Puts};

use cut_model::Network;
use itoa::Buffer;
use wires::{Failed, Sink, put_pieces};

/// Writes the reply to an accepted network: its numbers of routers and links. With version 1 and two
/// routers that one link joins: `@1 LOADED routers 2 links 1`.
///
/// # Errors
/// [`Failed`] where a put failed. A front of the reply was written then.
#[tactic(auto, unfolding(crate::specs::Replies::loaded_text))]
pub fn write_loaded<K: Sink>(version: u32, net: &Network, sink: &mut K) -> Result<(), Failed>
    ensures puts { Puts K.Sink sink.old sink.new result (loaded_text version net.now) }
{
    let mut version_digits = Buffer::new();
    let mut router_digits = Buffer::new();
    let mut link_digits = Buffer::new();
    put_pieces(
        &[
            b"@",
            version_digits.format(version).as_bytes(),
            b" LOADED routers ",
            router_digits.format(net.routers()).as_bytes(),
            b" links ",
            link_digits.format(net.links().len()).as_bytes(),
            b"\n",
        ],
        sink,
    )
}

/// Writes the reply to the line that ends a session. `write_bye(1, &mut sink)` writes `@1 BYE`.
///
/// # Errors
/// [`Failed`] where a put failed. A front of the reply was written then.
#[tactic(auto, unfolding(crate::specs::Replies::bye_text))]
pub fn write_bye<K: Sink>(version: u32, sink: &mut K) -> Result<(), Failed>
    ensures puts { Puts K.Sink sink.old sink.new result (bye_text version) }
{
    let mut digits = Buffer::new();
    put_pieces(&[b"@", digits.format(version).as_bytes(), b" BYE\n"], sink)
}

/// Writes the reply to a refused request, which tells why by a number, and for a network text in
/// which line. `write_refusal(0, 12, Some(3), &mut sink)` writes `@0 NO 12 line 3`.
///
/// # Errors
/// [`Failed`] where a put failed. A front of the reply was written then.
#[tactic(auto, unfolding(crate::specs::Replies::refused_text))]
pub fn write_refusal<K: Sink>(
    version: u32,
    number: u32,
    line: Option<u32>,
    sink: &mut K,
) -> Result<(), Failed>
    ensures puts { Puts K.Sink sink.old sink.new result (refused_text version number line) }
{
    write_refusal_head(version, number, sink)?;
    write_line_number(line, sink)?;
    put_pieces(&[b"\n"], sink)
}

/// Writes the first words of a refusal, up to the number of its reason.
fn write_refusal_head<K: Sink>(version: u32, number: u32, sink: &mut K) -> Result<(), Failed>
    ensures puts { Puts K.Sink sink.old sink.new result (refusal_head version number) }
{
    let mut version_digits = Buffer::new();
    let mut number_digits = Buffer::new();
    put_pieces(
        &[
            b"@",
            version_digits.format(version).as_bytes(),
            b" NO ",
            number_digits.format(number).as_bytes(),
        ],
        sink,
    )
}

/// Writes which line a refusal tells of, where it tells of one.
fn write_line_number<K: Sink>(line: Option<u32>, sink: &mut K) -> Result<(), Failed>
    ensures puts { Puts K.Sink sink.old sink.new result (line_piece line) }
{
    let Some(line) = line else {
        return Ok(());
    };
    let mut digits = Buffer::new();
    put_pieces(&[b" line ", digits.format(line).as_bytes()], sink)
}

/// Writes the first line of a reply of several lines: the word that says what it tells, and how
/// many lines follow. `write_head(1, "NET", 4, &mut sink)` writes `@1 NET 4`.
///
/// # Errors
/// [`Failed`] where a put failed. A front of the line was written then.
pub fn write_head<K: Sink>(version: u32, word: &str, lines: u64, sink: &mut K) -> Result<(), Failed>
    ensures puts { Puts K.Sink sink.old sink.new result (head_text version word.now lines) }
{
    let mut version_digits = Buffer::new();
    let mut line_digits = Buffer::new();
    put_pieces(
        &[
            b"@",
            version_digits.format(version).as_bytes(),
            b" ",
            word.as_bytes(),
            b" ",
            line_digits.format(lines).as_bytes(),
            b"\n",
        ],
        sink,
    )
}
