//! A reply from a network and its tree, told line by line.
ghost use Rattle.std.specs.Prelude.{◌≡◌, IsTrue, Some};
ghost use Rattle.path_minimum.specs.Ladders.{IsLadderOf};
ghost use Rattle.query_lang.specs.Reports.{TellsReport};
ghost use Rattle.query_lang.specs.Requests.{IsOf, is_report};

use crate::Request;
use crate::found::{Found, find_reply, line_count, write_found_line};
use crate::subject::Subject;
use crate::trees::PassedEdges;
use network_text::Sheet;
use path_minimum::{Ladder, PathRoom};
use reply_lines::ReplyLines;
use std::marker::Model;
use tree_state::Finished;
use wires::{Failed, Sink};

/// The reply to CUT, PATH, TREE, RUN, NET or WEAKEST, found once and told line by line. Contracts see its
/// lines. It is made for each run of lines anew, and takes no memory.
#[derive(Drop)]
pub struct Report<'a> {
    version: u32,
    subject: Subject<'a>,
    found: Found<'a>,
    passed: PassedEdges,
}

impl<'a> Model for Report<'a> {
    ghost use Rattle.std.specs.Prelude.{ℕ, List};
    ghost use Rattle.query_lang.specs.Found.{IsHeld, found_lines};

    ghost Value = { List (List ℕ) };

    ghost view = { λ r. found_lines r.version r.subject.sheet.now r.subject.finished.now.tree r.found };

    ghost invariant = { λ r. IsHeld r.subject.sheet.now r.subject.finished.now.tree r.found r.passed };
}

impl<'a> Report<'a> {
    /// Finds what the reply to a request tells: the least edge of the path for CUT, the path for PATH, the
    /// weakest edge for WEAKEST. It looks at each router a few times at most.
    pub fn find(
        version: u32,
        sheet: &'a Sheet,
        finished: &'a Finished,
        ladder: &'a Ladder,
        request: &Request,
        room: &'a mut PathRoom,
    ) -> Report<'a>
        requires report { IsTrue (is_report request.now) }
        requires of { IsOf (Some sheet.now) request.now }
        requires same { finished.now.tree.net ≡ sheet.now.net }
        requires ladder { IsLadderOf finished.now.tree ladder.now }
        ensures { TellsReport version sheet.now finished.now.tree request.now result }
    {
        let subject = Subject {
            sheet,
            finished,
            ladder,
        };
        let found = find_reply(&subject, request, room);
        Report {
            version,
            subject,
            found,
            passed: PassedEdges {
                router: 0,
                edges: 0,
            },
        }
    }
}

impl<'a> ReplyLines for Report<'a> {
    ghost use Rattle.std.specs.Prelude.{ℕ, List, length};
    ghost use Rattle.reply_lines.specs.Tails.{KnownLine};

    ghost Told = { List (List ℕ) };

    ghost Carry = { Unit {0} };

    ghost told = { λ report. report };

    ghost carry = { λ _. tt };

    ghost line = { λ lines. KnownLine (Unit {0}) lines };

    ghost places = { λ lines. length lines };

    ghost fits = { λ _ _ _. Unit {0} };

    fn count(&self) -> u64 {
        line_count(&self.subject, &self.found)
    }

    fn write_line<K: Sink>(&mut self, place: u64, sink: &mut K) -> Result<(), Failed> {
        write_found_line(
            self.version,
            &self.subject,
            &self.found,
            &mut self.passed,
            place,
            sink,
        )
    }
}
