//! The command that the words of a command line name.
ghost use Rattle.std.specs.Prelude.{◌≡◌, map};
ghost use Rattle.std.specs.String.{string_bytes};
ghost use Rattle.planner_server.specs.Commands.{check_of, command_of, make_of, making_of, needed, number_or, place_of};
ghost use Rattle.planner_server.specs.Commands.{plan_of, serve_of, serving_of};

use crate::options::{Given, OptionName, are_options};

/// A command.
#[derive(Clone, Copy, PartialEq, Eq, Debug)]
pub enum Command {
    /// One session over the source and the sink.
    Plan {
        /// How many workers at most build a tree: 1 to 16.
        workers: u32,
    },
    /// The check of a certificate that the source tells.
    Check,
    /// The summary of a made network.
    Make(Making),
    /// Sessions with the clients that come through doors.
    Serve(Serving),
}

/// What `make` is asked for: a made network, and by how many workers its tree is built.
#[derive(Clone, Copy, PartialEq, Eq, Debug)]
pub struct Making {
    /// The seed: 0 to 65535.
    pub seed: u32,
    /// How many routers the network has: 2 to 1024.
    pub routers: u32,
    /// How many links it has: 0 to 8192.
    pub links: u32,
    /// How many workers at most build its tree: 1 to 16.
    pub workers: u32,
}

/// How `serve` is asked to serve.
#[derive(Clone, Copy, PartialEq, Eq, Debug)]
pub struct Serving {
    /// On which port clients come: 1 to 65535.
    pub port: u32,
    /// How many desks serve them at most, and so at how many doors: 1 to 8.
    pub desks: u32,
    /// How many clients of each door are served at most: 1 to 1000000.
    pub sessions: u32,
    /// How many workers at most build the tree of a network that a client loads: 1 to 16.
    pub workers: u32,
}

/// The number of an option that may be missing, and is then the usual one; none where it is given wrongly.
fn number_or(usual: u32, given: Given) -> Option<u32>
    ensures { result ≡ number_or usual given }
{
    match given {
        Given::Missing => Some(usual),
        Given::Number(number) => Some(number),
        Given::Wrong => None,
    }
}

/// The number of an option that must stand there; none where it is missing or given wrongly.
fn needed(given: Given) -> Option<u32>
    ensures { result ≡ needed given }
{
    match given {
        Given::Number(number) => Some(number),
        Given::Missing | Given::Wrong => None,
    }
}

/// The command `plan` with these options.
fn read_plan(options: &[String]) -> Option<Command>
    ensures { result ≡ plan_of (map string_bytes options.now) }
{
    if !are_options(options, &[OptionName::Workers]) {
        return None;
    }
    let workers = number_or(1, OptionName::Workers.given_in(options))?;
    Some(Command::Plan { workers })
}

/// The command `check`, which takes no options.
fn read_check(options: &[String]) -> Option<Command>
    ensures { result ≡ check_of (map string_bytes options.now) }
{
    options.is_empty().then_some(Command::Check)
}

/// What these options ask `make` for, if they do.
fn read_making(options: &[String]) -> Option<Making>
    ensures { result ≡ making_of (map string_bytes options.now) }
{
    let seed = needed(OptionName::Seed.given_in(options))?;
    let routers = needed(OptionName::Routers.given_in(options))?;
    let links = needed(OptionName::Links.given_in(options))?;
    let workers = number_or(1, OptionName::Workers.given_in(options))?;
    Some(Making {
        seed,
        routers,
        links,
        workers,
    })
}

/// The command `make` with these options.
fn read_make(options: &[String]) -> Option<Command>
    ensures { result ≡ make_of (map string_bytes options.now) }
{
    let names = [
        OptionName::Seed,
        OptionName::Routers,
        OptionName::Links,
        OptionName::Workers,
    ];
    if !are_options(options, &names) {
        return None;
    }
    let making = read_making(options)?;
    Some(Command::Make(making))
}

/// How these options ask `serve` to serve, if they do.
fn read_serving(options: &[String]) -> Option<Serving>
    ensures { result ≡ serving_of (map string_bytes options.now) }
{
    let port = needed(OptionName::Port.given_in(options))?;
    let desks = needed(OptionName::Desks.given_in(options))?;
    let sessions = needed(OptionName::Sessions.given_in(options))?;
    let workers = number_or(1, OptionName::Workers.given_in(options))?;
    Some(Serving {
        port,
        desks,
        sessions,
        workers,
    })
}

/// The command `serve` with these options.
fn read_serve(options: &[String]) -> Option<Command>
    ensures { result ≡ serve_of (map string_bytes options.now) }
{
    let names = [
        OptionName::Port,
        OptionName::Desks,
        OptionName::Sessions,
        OptionName::Workers,
    ];
    if !are_options(options, &names) {
        return None;
    }
    let serving = read_serving(options)?;
    Some(Command::Serve(serving))
}

/// The port on which clients come and the number of desks, where the words name `serve`. With `serve --port=4000
/// --desks=2 --sessions=5` they are 4000 and 2.
pub fn door_place(words: &[String]) -> Option<(u16, u32)>
    ensures { result ≡ place_of (command_of (map string_bytes words.now)) }
{
    match read_command(words) {
        Some(Command::Serve(serving)) => Some((serving.port as u16, serving.desks)),
        _ => None,
    }
}

/// The command that the words name, if they name one. Goes over each word a few times.
pub fn read_command(words: &[String]) -> Option<Command>
    ensures { result ≡ command_of (map string_bytes words.now) }
{
    let [name, options @ ..] = words else {
        return None;
    };
    match name.as_str() {
        "plan" => read_plan(options),
        "check" => read_check(options),
        "make" => read_make(options),
        "serve" => read_serve(options),
        _ => None,
    }
}
