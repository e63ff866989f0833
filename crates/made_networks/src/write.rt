//! Writing a summary.
ghost use Rattle.made_networks.specs.Summaries.{summary_text};
ghost use Rattle.wires.specs.Puts.{Puts};

use crate::summary::Summary;
use itoa::Buffer;
use wires::{Failed, Sink, put_pieces};

/// Writes a summary as three lines: that of the network of seed 7 with three routers and three links is `made
/// routers 3 links 3`, `least 355` and `sum 1098`. All of it is known before the first byte is put. It takes no
/// memory.
///
/// # Errors
/// [`Failed`] where a put failed. A front of the text was written then.
#[tactic(auto, unfolding(crate::specs::Summaries::summary_text))]
pub fn write_summary<K: Sink>(summary: &Summary, sink: &mut K) -> Result<(), Failed>
    ensures { Puts K.Sink sink.old sink.new result (summary_text summary.now) }
{
    let mut router_digits = Buffer::new();
    let mut link_digits = Buffer::new();
    let mut least_digits = Buffer::new();
    let mut sum_digits = Buffer::new();
    put_pieces(
        &[
            b"made routers ",
            router_digits.format(summary.routers).as_bytes(),
            b" links ",
            link_digits.format(summary.links).as_bytes(),
            b"\nleast ",
            least_digits.format(summary.least).as_bytes(),
            b"\nsum ",
            sum_digits.format(summary.sum).as_bytes(),
            b"\n",
        ],
        sink,
    )
}
