//! The names and links of a text so far.

ghost use Rattle.std.specs.Prelude.{◌≡◌, ◌<◌, ◌≤◌, true, length, IfErr, IfOk, OnOk};
ghost use Rattle.cut_model.specs.declared.network.TheConstants.{MOST_ROUTERS};
ghost use Rattle.text_forms.specs.Words.{words_of};
ghost use Rattle.network_text.specs.Readings.{Adds, Closes, IsBounded, IsRefusal, IsWithinLimits};
ghost use Rattle.network_text.specs.Texts.{link_line, no_draft, place_of, router_line, whole_verdict, with_line};
ghost use Rattle.network_text.specs.Texts.{with_link, with_name, with_names, with_words};

use crate::fault::{TextFault, TextKind};
use crate::name::Name;
use crate::sheet::Sheet;
use cut_model::{Link, MOST_CAPACITY, MOST_LINKS, MOST_ROUTERS, Network, NoMemory};
use indexmap::IndexSet;
use std::alloc::Global;
use std::marker::Model;
use text_forms::{
    is_long, is_passed, one_word, parse_number, split_word, three_words, without_return,
};

/// The number of a router among the names, which a new name joins at their end; each name is looked up
/// once. One that is one too many joins them at no moment.
fn number_in(names: &mut IndexSet<Name>, name: Name) -> Result<usize, TextKind>
    requires few { length names.old.keys ≤ MOST_ROUTERS }
    ensures named { OnOk result (names.new.keys ≡ with_name names.old.keys name) }
    ensures number { IfOk result (λ number. number ≡ place_of names.new.keys name) }
    ensures below { IfOk result (λ number. number < length names.new.keys) }
    ensures few { length names.new.keys ≤ MOST_ROUTERS }
    ensures refused { IfErr result (λ kind. IsRefusal (with_name names.old.keys name) kind) }
{
    if names.len() == MOST_ROUTERS as usize {
        return number_known(names, &name);
    }
    let (number, _) = names.insert_full(name)?;
    Ok(number)
}

/// The number of a router among as many names as a network may have.
fn number_known(names: &IndexSet<Name>, name: &Name) -> Result<usize, TextKind>
    requires full { length names.now.keys ≡ MOST_ROUTERS }
    ensures named { OnOk result (names.now.keys ≡ with_name names.now.keys name.now) }
    ensures number { IfOk result (λ number. number ≡ place_of names.now.keys name.now) }
    ensures below { IfOk result (λ number. number < length names.now.keys) }
    ensures refused { IfErr result (λ kind. IsRefusal (with_name names.now.keys name.now) kind) }
{
    match names.get_index_of(name) {
        Some(number) => Ok(number),
        None => Err(TextKind::TooManyRouters),
    }
}

/// The names and links of a text so far, in order of appearance, and at no moment more of them than a
/// network may have. Contracts see a `Draft`.
#[derive(Drop)]
pub(crate) struct Drafting {
    names: IndexSet<Name>,
    links: Vec<Link>,
}

impl Model for Drafting {
    ghost use Rattle.network_text.specs.Texts.{Draft};
    ghost use Rattle.network_text.specs.Readings.{IsBounded};

    ghost Value = { Draft };

    ghost view = { λ drafting. record { names = drafting.names.keys; links = drafting.links.items } };

    ghost invariant = { λ drafting. IsBounded drafting.names.keys drafting.links.items };
}

impl Drafting {
    /// Nothing yet. It takes no memory.
    pub(crate) fn new(alloc: Global) -> Drafting
        ensures { result ≡ no_draft }
    {
        Drafting {
            names: IndexSet::new(alloc),
            links: Vec::new(alloc),
        }
    }

    /// Takes in a line. After an error what was drafted means nothing.
    pub(crate) fn add_line(&mut self, line: &[u8]) -> Result<(), TextKind>
        ensures adds { Adds (with_line self.old line.now) result self.new }
        ensures limits { OnOk result (IsWithinLimits self.old.names self.old.links
            → IsWithinLimits self.new.names self.new.links) }
        ensures bounded { IsBounded self.new.names self.new.links }
    {
        // What the type keeps is known where one of its fields is looked at.
        let _names = &self.names;
        if is_passed(line) {
            return Ok(());
        }
        if is_long(line) {
            return Err(TextKind::LineTooLong);
        }
        let added = self.add_words(without_return(line));
        let _names = &self.names;
        added
    }

    /// Takes in the words of a line that isn't passed over.
    fn add_words(&mut self, text: &[u8]) -> Result<(), TextKind>
        ensures adds { Adds (with_words self.old (words_of text.now)) result self.new }
    {
        let Some((word, behind)) = split_word(text) else {
            return Ok(());
        };
        if word == b"router".as_slice() {
            self.add_router_line(behind)
        } else if word == b"link".as_slice() {
            self.add_link_line(behind)
        } else if word == b"END".as_slice() {
            Err(TextKind::WrongCount)
        } else {
            Err(TextKind::UnknownWord)
        }
    }

    /// Takes in what stands behind the word `router`.
    fn add_router_line(&mut self, text: &[u8]) -> Result<(), TextKind>
        ensures adds { Adds (router_line self.old (words_of text.now)) result self.new }
    {
        let name = one_word(text).ok_or(TextKind::WrongCount)?;
        let name = Name::from_bytes(name).ok_or(TextKind::BadName)?;
        self.add_router(name)
    }

    /// Names a router.
    fn add_router(&mut self, name: Name) -> Result<(), TextKind>
        ensures adds { Adds (with_names (with_name self.old.names name) self.old.links) result self.new }
    {
        number_in(&mut self.names, name)?;
        Ok(())
    }

    /// Takes in what stands behind the word `link`.
    fn add_link_line(&mut self, text: &[u8]) -> Result<(), TextKind>
        ensures adds { Adds (link_line self.old (words_of text.now)) result self.new }
    {
        let (first, second, number) = three_words(text).ok_or(TextKind::WrongCount)?;
        let first = Name::from_bytes(first).ok_or(TextKind::BadName)?;
        let second = Name::from_bytes(second).ok_or(TextKind::BadName)?;
        let cap = parse_number(number).ok_or(TextKind::BadNumber)?;
        self.add_link(first, second, cap)
    }

    /// Names the routers of a link, the first first, and joins them.
    fn add_link(&mut self, first: Name, second: Name, cap: u64) -> Result<(), TextKind>
        ensures adds { Adds (with_link self.old first second cap) result self.new }
    {
        if cap > MOST_CAPACITY {
            return Err(TextKind::CapTooLarge);
        }
        let a = number_in(&mut self.names, first)?;
        let b = number_in(&mut self.names, second)?;
        if self.links.len() >= MOST_LINKS {
            return Err(TextKind::TooManyLinks);
        }
        self.links.push(Link {
            a: a as u32,
            b: b as u32,
            cap,
        })?;
        Ok(())
    }

    /// The sheet of what was drafted, where its END is the line of this number.
    pub(crate) fn into_sheet(self, alloc: Global, end: u32) -> Result<Sheet, TextFault>
        requires { IsWithinLimits self.names self.links }
        ensures { Closes (whole_verdict end true self) result }
    {
        let Drafting { names, links } = self;
        if names.is_empty() {
            return Err(TextFault {
                kind: TextKind::NoTerminal,
                line: end,
            });
        }
        let routers = names.len() as u32;
        let Ok(net) = Network::make(routers, links) else {
            unreachable!()
        };
        match Sheet::make(alloc, net, names) {
            Ok(sheet) => Ok(sheet),
            Err(NoMemory) => Err(TextFault {
                kind: TextKind::Memory,
                line: end,
            }),
        }
    }
}
