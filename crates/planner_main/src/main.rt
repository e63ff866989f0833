//! The program: one run over the standard input and output, and over doors of one listener where it serves. Its exit
//! status is the run's status; it writes nothing of its own.
#![tactic(auto)]

ghost use Rattle.std.specs.Prelude.{◌≡◌, All, IfOk, false};
ghost use Rattle.planner_main.specs.Codes.{exit_code};

use cut_model::NoMemory;
use planner_server::{Status, door_place, run};
use std::env;
use std::io::{self, ErrorKind};
use std::net::{Ipv4Addr, Net, SocketAddr, TcpListener, TcpStream};
use std::process::ExitCode;
use std::rt::Env;
use wires::{StdSink, StdSource, TcpDoor};
use worker_gate::OpenGate;

/// The arguments without the program's own name.
fn words(rt: &(impl Env + AllocGlobal)) -> io::Result<Vec<String>> {
    Ok(env::args(rt)?.skip(1).collect(rt.alloc())?)
}

/// The exit status that stands for a status.
fn code_of(status: Status) -> u8
    ensures { result ≡ exit_code status }
{
    match status {
        Status::Done => 0,
        Status::BadWords => 1,
        Status::ReadFault => 2,
        Status::WriteFault => 3,
        Status::NoMemory => 4,
        Status::TooLong => 5,
        Status::DoorFault => 6,
        Status::NotAccepted => 7,
    }
}

/// A door over a handle of its own for a listener; a broken one where there is none, or it can't be shared.
fn door_over(listener: Option<&TcpListener>) -> TcpDoor
    ensures { result.is_out ≡ false }
{
    match listener.and_then(|listener| listener.try_clone().ok()) {
        Some(listener) => TcpDoor::make(listener),
        None => TcpDoor::broken(),
    }
}

/// So many doors at a port of the loopback. Where nobody can listen there, they are broken.
///
/// # Errors
/// [`NoMemory`] where the list of doors can't be had.
fn open_doors(
    rt: &(impl Net<Listener = TcpListener, Stream = TcpStream> + AllocGlobal),
    port: u16,
    count: u32,
) -> Result<Vec<TcpDoor>, NoMemory>
    ensures { IfOk result (λ doors. All (λ door. door.is_out ≡ false) doors.items) }
{
    let listener = TcpListener::bind(rt, SocketAddr::from((Ipv4Addr::LOCALHOST, port))).ok();
    let mut doors = Vec::new(rt.alloc());
    for _number in 0..count {
        doors.push(door_over(listener.as_ref()))?;
    }
    Ok(doors)
}

/// The doors that the words ask for: none but for `serve`.
///
/// # Errors
/// [`NoMemory`] where the list of doors can't be had.
fn doors_for(
    rt: &(impl Net<Listener = TcpListener, Stream = TcpStream> + AllocGlobal),
    words: &[String],
) -> Result<Vec<TcpDoor>, NoMemory>
    ensures { IfOk result (λ doors. All (λ door. door.is_out ≡ false) doors.items) }
{
    match door_place(words) {
        Some((port, desks)) => open_doors(rt, port, desks),
        None => Ok(Vec::new(rt.alloc())),
    }
}

/// The status of a run whose words can't be had: one that is no text is no word of a command.
fn without_words(error: &io::Error) -> Status {
    match error.kind() {
        ErrorKind::OutOfMemory => Status::NoMemory,
        _ => Status::BadWords,
    }
}

fn main(rt: HostRuntime) -> ExitCode {
    let words = match words(&rt) {
        Ok(words) => words,
        Err(error) => return ExitCode::from(code_of(without_words(&error))),
    };
    let Ok(mut doors) = doors_for(&rt, &words) else {
        return ExitCode::from(code_of(Status::NoMemory));
    };
    let mut source = StdSource::make(rt.reader());
    let mut sink = StdSink::make(io::writer(&rt));
    let outcome = run(
        rt.alloc(),
        &rt,
        &words,
        &mut source,
        &mut sink,
        &mut doors,
        &OpenGate,
    );
    ExitCode::from(code_of(outcome.status))
}
