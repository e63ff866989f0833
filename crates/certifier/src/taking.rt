//! What a line does where so much was told.
ghost use Rattle.std.specs.Prelude.{◌≡◌, ℕ, ◌+◌, ◌-◌, ◌<◌, ◌≤◌, ◌^◌, List, ℤ, length};
ghost use Rattle.std.specs.Prelude.{nat_lt, pos, replicate, true, false, IfOk, IfSome, Ok, OnOk};
ghost use Rattle.certifier.specs.Certificates as certificate;
ghost use Rattle.certifier.specs.Certificates.{take_between as told_between, take_counted as told_counted};
ghost use Rattle.certifier.specs.Certificates.{take_done as told_done, take_drafted, take_edge as told_edge, take_end};
ghost use Rattle.certifier.specs.Certificates.{take_flow as told_flow, take_line as told_line};
ghost use Rattle.certifier.specs.Certificates.{take_network as told_network, take_on as told_on};
ghost use Rattle.certifier.specs.Certificates.{take_root as told_root, take_title as told_title};
ghost use Rattle.certifier.specs.Certificates.{link_at, take_routers as told_routers, take_value as told_value};
ghost use Rattle.certifier.specs.Certificates.{take_whole as told_whole};
ghost use Rattle.certifier.specs.Kept.{IsKept};
ghost use Rattle.certifier.specs.Stages.{IsNext, IsReady, IsTextStop, IsUnderWay, Lengthens, Shows, Takes};
ghost use Rattle.certifier.specs.Stages.{TakesIn, told_names};
ghost use Rattle.certifier.specs.Signs.{HasSign};
ghost use Rattle.certifier.specs.Trees.{Edge, Told};
ghost use Rattle.cut_model.specs.Net.{IsLink};
ghost use Rattle.cut_model.specs.declared.network.TheConstants.{MOST_LINKS};
ghost use Rattle.network_text.specs.Readings.{TakesLine};
ghost use Rattle.network_text.specs.Sheets.{number_of};
ghost use Rattle.network_text.specs.Texts.{Draft, Progress, with_line};

use crate::forms::{
    Signed, edge_words, is_done, is_skipped, is_title, on_word, parse_signed, root_word,
};
use crate::stage::{Stage, Stop, Way, faulty};
use crate::sums::Sums;
use crate::tree::Tree;
use cut_model::{Link, NoMemory};
use network_text::{Fed, Reader, Sheet, TextFault, TextKind};
use std::alloc::Global;
use std::mem;
use text_forms::parse_number;

/// The number of the fault of a line that isn't what must stand there.
const WRONG_LINE: u32 = 30;

/// That of a line that is no line of a network's text there.
const WRONG_TEXT: u32 = 31;

/// That of a name that no router has.
const UNKNOWN_ROUTER: u32 = 32;

/// That of an edge above another router than the next one, or up to that router itself.
const WRONG_ROUTER: u32 = 33;

/// That of a word that is no number.
const NO_NUMBER: u32 = 34;

/// That of a value that is greater than what the link can carry.
const TOO_MUCH: u32 = 35;

/// That of a flow of which something stays in a router.
const LEAK: u32 = 36;

/// That of a flow that isn't as great as its edge is wide.
const WRONG_FLOW: u32 = 37;

/// The title.
fn take_title(alloc: Global, number: u32, line: &[u8]) -> Result<Stage, Stop>
    requires { 0 < number }
    ensures takes { Takes result (told_title number line.now) }
    ensures ready { IfOk result (IsReady (number + 1)) }
{
    if !is_title(line) {
        return Err(faulty(WRONG_LINE, number));
    }
    Ok(Stage::Network(Reader::begin(alloc)?))
}

/// What a fault of the network's text is in a certificate.
fn text_stop(number: u32, fault: TextFault) -> Stop
    ensures { IsTextStop number fault result }
{
    if fault.kind == TextKind::Memory {
        Stop::NoMemory
    } else {
        faulty(WRONG_TEXT, number)
    }
}

/// Goes on behind a line of the network, unless something is wrong with it.
fn go_on(number: u32, reader: Reader) -> Result<Stage, Stop>
    requires open { reader.ended ≡ false }
    requires lines { reader.progress.lines < number + 1 }
    ensures takes { (draft : Draft) (line : List ℕ) (old : Progress) → old.draft ≡ Ok draft
        → TakesLine old line reader.progress → Takes result (take_drafted number (with_line draft line)) }
    ensures ready { IfOk result (IsReady (number + 1)) }
{
    match reader.noted() {
        None => Ok(Stage::Network(reader)),
        Some(fault) => Err(text_stop(number, fault)),
    }
}

/// The network is whole, unless something is wrong with it.
fn close_network(number: u32, reader: Reader) -> Result<Stage, Stop>
    requires { reader.ended ≡ true }
    ensures takes { (draft : Draft) → reader.progress.draft ≡ Ok draft → Takes result (take_end number draft) }
    ensures ready { IfOk result (IsReady (number + 1)) }
{
    match reader.close() {
        Ok(sheet) => Ok(Stage::Root(sheet)),
        Err(fault) => Err(text_stop(number, fault)),
    }
}

/// A line of the network.
fn take_network(number: u32, mut reader: Reader, line: &[u8]) -> Result<Stage, Stop>
    requires ready { IsReady number (Stage.Network reader) }
    requires few { number ≤ 2 ^ 31 }
    ensures takes { (draft : Draft) → reader.progress.draft ≡ Ok draft
        → Takes result (told_network number draft line.now) }
    ensures ready { IfOk result (IsReady (number + 1)) }
{
    match reader.line(line) {
        Fed::More => go_on(number, reader),
        Fed::Ended => close_network(number, reader),
    }
}

/// The root.
fn take_root(alloc: Global, number: u32, sheet: Sheet, line: &[u8]) -> Result<Stage, Stop>
    ensures takes { Takes result (told_root number sheet line.now) }
    ensures ready { IfOk result (IsReady (number + 1)) }
{
    let Some(name) = root_word(line) else {
        return Err(faulty(WRONG_LINE, number));
    };
    let Some(root) = number_in(&sheet, name) else {
        return Err(faulty(UNKNOWN_ROUTER, number));
    };
    Ok(Stage::Between(Tree::make(alloc, sheet, root)?))
}

/// The number of the router with this name, which is one of the network.
fn number_in(sheet: &Sheet, name: &[u8]) -> Option<u32>
    ensures value { result ≡ number_of sheet.now.names name.now }
    ensures within { IfSome result (λ router. router < sheet.now.net.routers) }
{
    let router = sheet.number_of(name)?;
    prove!(router < sheet.net().routers());
    Some(router)
}

/// The last line.
fn take_done(number: u32, tree: Tree, line: &[u8]) -> Result<Stage, Stop>
    ensures takes { (told : Told) → IsKept told tree → Takes result (told_done number told line.now) }
    ensures ready { IfOk result (IsReady (number + 1)) }
{
    if is_done(line) {
        Err(Stop::Ended(tree))
    } else {
        Err(faulty(WRONG_LINE, number))
    }
}

/// The flow of an edge is whole: it must be kept at all other routers, and carry as much as the edge is wide.
fn take_whole(number: u32, mut tree: Tree, way: Way) -> Result<Stage, Stop>
    requires next { IsNext tree way }
    ensures takes { (told : Told) (edge : Edge) → IsKept told tree → IsUnderWay told.sheet.net edge way
        → Takes result (told_whole told edge) }
    ensures ready { IfOk result (IsReady (number + 1)) }
{
    if way.sums.leaks_beside(way.child, way.up) {
        return Err(faulty(LEAK, way.line));
    }
    if !way.sums.sends(way.child, way.width) {
        return Err(faulty(WRONG_FLOW, way.line));
    }
    tree.add(way.line, way.up, way.width);
    Ok(Stage::Between(tree))
}

/// The flow of an edge goes on, or is whole.
fn take_flow(number: u32, tree: Tree, way: Way) -> Result<Stage, Stop>
    requires next { IsNext tree way }
    ensures takes { (told : Told) (edge : Edge) → IsKept told tree → IsUnderWay told.sheet.net edge way
        → Takes result (told_flow told edge) }
    ensures ready { IfOk result (IsReady (number + 1)) }
{
    if way.sums.values() < tree.sheet().net().links().len() {
        Ok(Stage::Within(tree, way))
    } else {
        take_whole(number, tree, way)
    }
}

/// The sums of a flow of which no value has come.
fn no_sums(alloc: Global, tree: &Tree) -> Result<Sums, NoMemory>
    ensures { IfOk result (λ s. s ≡ record {
      values = 0;
      sums = replicate tree.now.sheet.net.routers (pos 0);
    }) }
{
    Sums::make(alloc, tree.sheet().net().routers())
}

/// Two routers of which the first must be the next one, and the second another.
fn take_routers(
    alloc: Global,
    number: u32,
    tree: Tree,
    child: u32,
    up: u32,
    width: &[u8],
) -> Result<Stage, Stop>
    requires left { length tree.edges + 1 < tree.sheet.net.routers }
    requires up { up < tree.sheet.net.routers }
    ensures takes { (told : Told) → IsKept told tree
        → Takes result (told_routers number told width.now child up) }
    ensures ready { IfOk result (IsReady (number + 1)) }
{
    if child != tree.next_child() || up == child {
        return Err(faulty(WRONG_ROUTER, number));
    }
    let Some(width) = parse_number(width) else {
        return Err(faulty(NO_NUMBER, number));
    };
    let sums = no_sums(alloc, &tree)?;
    let way = Way {
        line: number,
        child,
        up,
        width,
        sums,
    };
    take_flow(number, tree, way)
}

/// Two routers by their names.
fn take_names(
    alloc: Global,
    number: u32,
    tree: Tree,
    child: &[u8],
    up: &[u8],
    width: &[u8],
) -> Result<Stage, Stop>
    requires { length tree.edges + 1 < tree.sheet.net.routers }
    ensures takes { (told : Told) → IsKept told tree
        → Takes result (told_names number told child.now up.now width.now) }
    ensures ready { IfOk result (IsReady (number + 1)) }
{
    let Some(child) = number_in(tree.sheet(), child) else {
        return Err(faulty(UNKNOWN_ROUTER, number));
    };
    let Some(up) = number_in(tree.sheet(), up) else {
        return Err(faulty(UNKNOWN_ROUTER, number));
    };
    take_routers(alloc, number, tree, child, up, width)
}

/// An edge.
fn take_edge(alloc: Global, number: u32, tree: Tree, line: &[u8]) -> Result<Stage, Stop>
    requires { length tree.edges + 1 < tree.sheet.net.routers }
    ensures takes { (told : Told) → IsKept told tree → Takes result (told_edge number told line.now) }
    ensures ready { IfOk result (IsReady (number + 1)) }
{
    let Some((child, up, width)) = edge_words(line) else {
        return Err(faulty(WRONG_LINE, number));
    };
    take_names(alloc, number, tree, child, up, width)
}

/// An edge while some router has none, and then the last line.
fn take_between(alloc: Global, number: u32, tree: Tree, line: &[u8]) -> Result<Stage, Stop>
    ensures takes { (told : Told) → IsKept told tree → Takes result (told_between number told line.now) }
    ensures ready { IfOk result (IsReady (number + 1)) }
{
    if tree.is_whole() {
        take_done(number, tree, line)
    } else {
        take_edge(alloc, number, tree, line)
    }
}

/// The link of this place.
fn link_of(tree: &Tree, place: usize) -> Link
    requires { place < length tree.now.sheet.net.links }
    ensures value { result ≡ link_at tree.now.sheet.net place }
    ensures link { IsLink tree.now.sheet.net.routers result }
    ensures few { length tree.now.sheet.net.links ≤ MOST_LINKS }
{
    tree.sheet().net().links()[place]
}

/// A value of the flow of an edge, on the next link.
fn add_told(number: u32, tree: &Tree, way: &mut Way, value: Signed) -> Result<(), Stop>
    requires next { IsNext tree.now way.old }
    requires left { way.old.sums.values < length tree.now.sheet.net.links }
    ensures takes { (told : Told) (edge : Edge) (size : ℤ) → IsKept told tree.now
        → IsUnderWay told.sheet.net edge way.old → HasSign size value
        → Lengthens told result way.new (told_value number told edge size) }
    ensures next { OnOk result (IsNext tree.now way.new) }
    ensures values { OnOk result (way.new.sums.values ≡ way.old.sums.values + 1) }
{
    let link = link_of(tree, way.sums.values());
    if value.size > link.cap {
        return Err(faulty(TOO_MUCH, number));
    }
    way.sums.add(&link, value.value());
    Ok(())
}

/// A line that tells a value of the flow of an edge.
fn add_on(number: u32, tree: &Tree, way: &mut Way, line: &[u8]) -> Result<(), Stop>
    requires next { IsNext tree.now way.old }
    requires left { way.old.sums.values < length tree.now.sheet.net.links }
    ensures takes { (told : Told) (edge : Edge) → IsKept told tree.now → IsUnderWay told.sheet.net edge way.old
        → Lengthens told result way.new (told_on number told edge line.now) }
    ensures next { OnOk result (IsNext tree.now way.new) }
    ensures values { OnOk result (way.new.sums.values ≡ way.old.sums.values + 1) }
{
    let Some(word) = on_word(line) else {
        return Err(faulty(WRONG_LINE, number));
    };
    let Some(value) = parse_signed(word) else {
        return Err(faulty(NO_NUMBER, number));
    };
    add_told(number, tree, way, value)
}

/// A line that tells a value of the flow of an edge, which may be its last one.
fn take_on(number: u32, tree: Tree, mut way: Way, line: &[u8]) -> Result<Stage, Stop>
    requires ready { IsReady number (Stage.Within tree way) }
    ensures takes { (told : Told) (edge : Edge) → IsKept told tree → IsUnderWay told.sheet.net edge way
        → Takes result (told_on number told edge line.now) }
    ensures ready { IfOk result (IsReady (number + 1)) }
{
    add_on(number, &tree, &mut way, line)?;
    take_flow(number, tree, way)
}

/// A line that isn't passed over.
fn take_counted(alloc: Global, number: u32, stage: Stage, line: &[u8]) -> Result<Stage, Stop>
    requires some { 0 < number }
    requires few { number ≤ 2 ^ 31 }
    requires ready { IsReady number stage }
    ensures takes { (told : certificate.Stage) → Shows told stage → Takes result (told_counted number told line.now) }
    ensures ready { IfOk result (IsReady (number + 1)) }
{
    match stage {
        Stage::Title => take_title(alloc, number, line),
        Stage::Network(reader) => take_network(number, reader, line),
        Stage::Root(sheet) => take_root(alloc, number, sheet, line),
        Stage::Between(tree) => take_between(alloc, number, tree, line),
        Stage::Within(tree, way) => take_on(number, tree, way, line),
    }
}

/// Whether the flow of an edge goes on behind the next value.
fn goes_on(tree: &Tree, way: &Way) -> bool
    requires { way.now.sums.values < length tree.now.sheet.net.links }
    ensures { result ≡ nat_lt 1 (length tree.now.sheet.net.links - way.now.sums.values) }
{
    tree.sheet().net().links().len() - way.sums.values() > 1
}

/// The line of this number, counted from 1: what is kept behind it, or why no further line is taken. A value behind
/// which the flow of its edge goes on is added in place, so that what is kept isn't moved for each of them.
pub(crate) fn take_line(
    alloc: Global,
    number: u32,
    stage: &mut Stage,
    line: &[u8],
) -> Result<(), Stop>
    requires some { 0 < number }
    requires few { number ≤ 2 ^ 31 }
    requires ready { IsReady number stage.old }
    ensures takes { (told : certificate.Stage) → Shows told stage.old
        → TakesIn result stage.new (told_line number told line.now) }
    ensures ready { OnOk result (IsReady (number + 1) stage.new) }
{
    if is_skipped(number, line) {
        return Ok(());
    }
    if let Stage::Within(tree, way) = stage {
        if goes_on(tree, way) {
            return add_on(number, tree, way, line);
        }
    }
    let before = mem::replace(stage, Stage::Title);
    *stage = take_counted(alloc, number, before, line)?;
    Ok(())
}
