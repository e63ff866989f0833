//! The reply in work.
ghost use Rattle.std.specs.Prelude.{◌≡◌, ◌<◌, ◌≤◌, IfOk, IsTrue, Some, drop, false, length, nat_lt};
ghost use Rattle.certifier.specs.Blocks.{Carried, Fits, Layout};
ghost use Rattle.query_lang.specs.Replies.{bye_text, loaded_text, refused_text};
ghost use Rattle.query_lang.specs.Requests.{IsOf, needs_record};
ghost use Rattle.reply_lines.specs.Runs.{empty_run};
ghost use Rattle.reply_lines.specs.Tails.{Leads};
ghost use Rattle.session.specs.Points.{IsIdle};
ghost use Rattle.session.specs.Reporting.{IsReporting, IsSound, LaysOut, ReportLine, Tells, size_in};
ghost use Rattle.tree_versions.specs.Records.{tree_of};

use crate::runs::{Reached, Rooms, run_asked};
use certifier::FlowRoom;
use cut_model::{MOST_ROUTERS, Network, NoMemory};
use path_minimum::PathRoom;
use query_lang::{Request, write_bye, write_loaded, write_refusal};
use reply_lines::LineRun;
use std::alloc::Global;
use std::marker::Model;
use tree_versions::{Record, Shelf};

/// Which reply from a record is in work: what was asked, and the version of the record that answers it.
#[derive(Clone, Copy, Drop)]
pub struct Asked {
    /// The version of the record, counted from 1.
    pub version: u32,
    /// The request, which that record answers.
    pub request: Request,
}

/// The reply in work: a run of its lines that wasn't taken yet, and for one from a record what was asked, the place
/// behind the run and how many lines are left from there on; and the rooms in which paths and flows are found.
/// Contracts see the `Work`. Only the making takes memory.
#[derive(Drop)]
pub struct Desk {
    run: LineRun,
    asked: Asked,
    reached: Reached,
    rooms: Rooms,
}

impl Model for Desk {
    ghost use Rattle.session.specs.Points.{Work};
    ghost use Rattle.certifier.specs.Blocks.{Carried};
    ghost use Rattle.session.specs.declared.desk.Asked.{Asked};

    ghost Value = { Work Asked Carried };

    ghost view = { λ desk. record {
      run = desk.run.rest;
      reply = desk.asked;
      at = record { left = desk.reached.left; place = desk.reached.place; carry = desk.rooms.flows };
    } };

    ghost invariant = { λ _. Unit {0} };
}

impl Desk {
    /// A desk without a reply in work.
    ///
    /// # Errors
    /// [`NoMemory`] where the memory of its run, of the longest path or of a flow can't be had.
    pub fn make(alloc: Global) -> Result<Desk, NoMemory>
        ensures { IfOk result (λ desk. IsIdle desk) }
    {
        let asked = Asked {
            version: 0,
            request: Request::Nothing,
        };
        Ok(Desk {
            run: LineRun::make(alloc)?,
            asked,
            reached: Reached { place: 0, left: 0 },
            rooms: Rooms {
                path: PathRoom::make(alloc)?,
                flows: FlowRoom::make(alloc)?,
            },
        })
    }

    /// The bytes of the run that weren't taken yet.
    #[inline]
    pub fn rest(&self) -> &[u8]
        ensures { result.now ≡ self.now.run }
    {
        self.run.rest()
    }

    /// So many bytes more of the run were taken.
    #[inline]
    pub fn pass(&mut self, count: usize)
        requires { count ≤ length self.old.run }
        ensures run { self.new.run ≡ drop count self.old.run }
        ensures reply { self.new.reply ≡ self.old.reply }
        ensures at { self.new.at ≡ self.old.at }
    {
        self.run.pass(count);
    }

    /// Whether lines are left behind the run.
    #[inline]
    pub fn has_more(&self) -> bool
        ensures { result ≡ nat_lt 0 self.now.at.left }
    {
        self.reached.left > 0
    }

    /// Whether nothing is owed.
    #[inline]
    pub fn is_idle(&self) -> bool
        ensures idle { IsTrue result → IsIdle self.now }
        ensures owed { result ≡ false → IsIdle self.now → ⊥ }
    {
        self.reached.left == 0 && self.run.rest().is_empty()
    }

    /// Drops the reply in work.
    pub fn clear(&mut self)
        ensures { IsIdle self.new }
    {
        begin(&mut self.run, &mut self.reached);
    }

    /// Begins a refusal by a version; that of a text tells its line. It is one run.
    pub fn refuse(&mut self, version: u32, number: u32, line: Option<u32>)
        ensures run { self.new.run ≡ refused_text version number line }
        ensures whole { self.new.at.left ≡ 0 }
    {
        begin(&mut self.run, &mut self.reached);
        write_refusal(version, number, line, &mut self.run).unwrap();
    }

    /// Begins the reply to a LOAD that was accepted. It is one run.
    pub fn loaded(&mut self, version: u32, net: &Network)
        ensures run { self.new.run ≡ loaded_text version net.now }
        ensures whole { self.new.at.left ≡ 0 }
    {
        begin(&mut self.run, &mut self.reached);
        write_loaded(version, net, &mut self.run).unwrap();
    }

    /// Begins the reply to a BYE. It is one run.
    pub fn bye(&mut self, version: u32)
        ensures run { self.new.run ≡ bye_text version }
        ensures whole { self.new.at.left ≡ 0 }
    {
        begin(&mut self.run, &mut self.reached);
        write_bye(version, &mut self.run).unwrap();
    }

    /// Begins the reply to a request from the record of a version: finds what it tells, and fills the run with its
    /// first lines.
    pub fn report(&mut self, version: u32, made: &Record, request: &Request)
        requires needs { IsTrue (needs_record request.now) }
        requires of { IsOf (Some made.now.sheet) request.now }
        ensures sound { IsSound made.now }
        ensures reply { self.new.reply ≡ record { version = version; request = request.now } }
        ensures tells { Tells made.now (record { version = version; request = request.now }) 0 self.old.at.carry
            self.new.run self.new.at }
    {
        let asked = Asked {
            version,
            request: *request,
        };
        self.tell(asked, 0, made);
    }

    /// Fills the run with further lines, where lines are left and all of the run was taken: finds anew what the reply
    /// tells, in the record of its version.
    pub fn fill<H: Shelf>(&mut self, shelf: &H)
        requires more { 0 < self.old.at.left }
        requires held { IsReporting (H.seen shelf.now) self.old }
        ensures leads { Leads Carried (ReportLine (H.seen shelf.now) self.old.reply) self.old.at self.new.run
            self.new.at }
        ensures fewer { self.new.at.left < self.old.at.left }
        ensures reply { self.new.reply ≡ self.old.reply }
        ensures held { IsReporting (H.seen shelf.now) self.new }
    {
        let made = shelf.record_at(self.asked.version);
        self.tell(self.asked, self.reached.place, made);
    }

    /// Finds what a reply from a record tells, and fills the run with its lines from a place on.
    fn tell(&mut self, asked: Asked, from: u64, made: &Record)
        requires needs { IsTrue (needs_record asked.request) }
        requires of { IsOf (Some made.now.sheet) asked.request }
        requires within { (layout : Layout) → LaysOut made.now asked.version asked.request layout
            → from ≤ size_in made.now layout }
        requires fits { (layout : Layout) → LaysOut made.now asked.version asked.request layout
            → Fits (tree_of made.now) layout from self.old.at.carry }
        ensures sound { IsSound made.now }
        ensures reply { self.new.reply ≡ asked }
        ensures tells { Tells made.now asked from self.old.at.carry self.new.run self.new.at }
    {
        prove!(made.sheet().net().routers() <= MOST_ROUTERS);
        let _ = made.finished();
        self.reached = run_asked(&asked, from, made, &mut self.rooms, &mut self.run);
        self.asked = asked;
    }
}

/// Ends the reply in work, whatever is left of it: what is put into the run next is of another one.
fn begin(run: &mut LineRun, reached: &mut Reached)
    ensures run { run.new ≡ empty_run run.old.faults }
    ensures left { reached.new.left ≡ 0 }
{
    run.clear();
    reached.left = 0;
}
