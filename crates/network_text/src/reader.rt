//! Reading a network text line by line.

ghost use Rattle.std.specs.Prelude.{◌≡◌, ◌<◌, ◌≤◌, ◌^◌, Err, IfOk, IfSome, IsFalse, IsTrue};
ghost use Rattle.std.specs.Prelude.{None, Ok, false, length, true};
ghost use Rattle.cut_model.specs.declared.network.TheConstants.{MOST_LINKS, MOST_ROUTERS};
ghost use Rattle.std.specs.Result.{IsErr, IsOk};
ghost use Rattle.text_forms.specs.Words.{is_end as end_line};
ghost use Rattle.network_text.specs.Readings.{Closes, TakesLine, kept_at};
ghost use Rattle.network_text.specs.Texts.{at_start, no_draft, verdict_at};

use crate::drafting::Drafting;
use crate::fault::{TextFault, TextKind};
use crate::sheet::Sheet;
use cut_model::NoMemory;
use std::alloc::Global;
use std::marker::Model;
use text_forms::is_end;

/// Whether a text goes on behind a line.
#[derive(Clone, Copy, PartialEq, Eq, Debug)]
pub enum Fed {
    /// The text goes on.
    More,
    /// The line was the END line.
    Ended,
}

/// A reader of one network text. It keeps no lines, but what they name: never more names and links than a
/// network may have, and none of them behind the first thing that goes wrong. Contracts see a `Reading`.
#[derive(Drop)]
pub struct Reader {
    alloc: Global,
    drafting: Drafting,
    lines: u32,
    noted: Option<TextFault>,
    ended: bool,
}

impl Model for Reader {
    ghost use Rattle.network_text.specs.Readings.{Reading, draft_at, KeepsBounds};

    ghost Value = { Reading };

    ghost view = { λ reader. record {
      progress = record { lines = reader.lines; draft = draft_at reader.noted reader.drafting };
      kept = reader.drafting;
      ended = reader.ended;
    } };

    ghost invariant = { λ reader. KeepsBounds reader.lines reader.noted reader.drafting };
}

impl Reader {
    /// A reader before the first line, which keeps no name and no link.
    ///
    /// # Errors
    /// [`NoMemory`] where memory was wanted. A reader that begins takes none as it is built, and its
    /// caller need not rely on that.
    pub fn begin(alloc: Global) -> Result<Reader, NoMemory>
        ensures { IfOk result (λ reader. reader ≡ record { progress = at_start; kept = no_draft; ended = false }) }
    {
        Ok(Reader {
            alloc,
            drafting: Drafting::new(alloc),
            lines: 0,
            noted: None,
            ended: false,
        })
    }

    /// Takes the next line, without its line feed; of a line that is too long one byte more than a line may
    /// have suffices. The first thing that goes wrong, a faulty line or want of memory, is noted and stays:
    /// what was kept is let go, and later lines are only looked at for END. `link a b 7` gives `More`, and
    /// then two names and a link are kept; `END` gives `Ended`.
    ///
    /// One look-up for each name, and the memory of what the line names. At most 2^31 lines may come before
    /// END.
    pub fn line(&mut self, line: &[u8]) -> Fed
        requires open { IsFalse self.old.ended }
        requires few { self.old.progress.lines < 2 ^ 31 }
        ensures ended { result ≡ Fed.Ended
            → IsTrue (end_line line.now) × (self.new ≡ record self.old { ended = true }) }
        ensures more { result ≡ Fed.More → IsFalse (end_line line.now) × IsFalse self.new.ended }
        ensures taken { result ≡ Fed.More → TakesLine self.old.progress line.now self.new.progress }
        ensures kept { IsOk self.old.progress.draft → self.new.kept ≡ kept_at self.new.progress.draft }
        ensures nothing_more { IsErr self.old.progress.draft → self.new.kept ≡ self.old.kept }
        ensures few_names { length self.new.kept.names ≤ MOST_ROUTERS }
        ensures few_links { length self.new.kept.links ≤ MOST_LINKS }
    {
        if is_end(line) {
            self.ended = true;
            return Fed::Ended;
        }
        self.lines += 1;
        if self.noted.is_some() {
            return Fed::More;
        }
        if let Err(kind) = self.drafting.add_line(line) {
            self.drafting = Drafting::new(self.alloc);
            self.noted = Some(TextFault {
                kind,
                line: self.lines,
            });
        }
        Fed::More
    }

    /// The first thing that went wrong so far, if anything did.
    /// Behind `lnk a b 7` it is `UnknownWord` in line 1.
    pub fn noted(&self) -> Option<TextFault>
        ensures none { result ≡ None → self.now.progress.draft ≡ Ok self.now.kept }
        ensures some { IfSome result (λ fault. self.now.progress.draft ≡ Err fault) }
    {
        self.noted
    }

    /// The sheet of the lines: the routers in the order in which their names first appeared, and the
    /// links in the order of their lines. Behind `link b a 7` and `END` router 0 is `b`.
    ///
    /// # Errors
    /// The first thing that went wrong. Where nothing did, `EndedEarly` where no END came, and
    /// `NoTerminal` where END came and no router was named. `Memory` may come in place of a sheet.
    pub fn close(self) -> Result<Sheet, TextFault>
        ensures { Closes (verdict_at self.ended self.progress) result }
    {
        let Reader {
            alloc,
            drafting,
            lines,
            noted,
            ended,
        } = self;
        if let Some(fault) = noted {
            return Err(fault);
        }
        if !ended {
            return Err(TextFault {
                kind: TextKind::EndedEarly,
                line: lines + 1,
            });
        }
        drafting.into_sheet(alloc, lines + 1)
    }
}
