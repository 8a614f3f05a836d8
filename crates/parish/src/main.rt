//! The program `parish`: the words of its command line, on the standard streams.
//!
//! It uses `command_line` for the words, `archive_files` and `archive_runs` for the archive in a file and tasks on
//! it, and `gedcom_tree` for files on the input. What it does is in `command`, over any streams and whatever the file
//! of an archive holds; `run` is that and the close of the file, and says what is lost of an archive: nothing.
#![tactic(auto)]

ghost use Rattle.std.specs.Prelude.{◌≡◌, IfSome, None};
ghost use Rattle.devices.specs.Devices.{Rose};
ghost use Rattle.parish.specs.Rooms.{VisitsEnd};

mod applying;
mod archives;
mod command;
mod converting;
mod files;
mod laws;
mod lists;
mod reporting;
mod running;
mod tables;
mod visits;

use crate::running::run;
use crate::visits::Visits;
use devices::{Counted, Device};
use sqlite::Unknown;
use std::alloc::Global;
use std::io::Write;
use std::net::{Net, TcpListener, TcpStream};
use std::process::ExitCode;
use std::rt::Env;
use std::time::Clock;
use std::{env, io};
use tasks::FaultStream;

/// The words of the command line, the program's name first. A word that is not UTF-8 is an error.
fn words_of(rt: &(impl Env + AllocGlobal)) -> io::Result<Vec<String>> {
    let mut words = Vec::new(rt.alloc());
    for word in env::args(rt)? {
        words.push(word)?;
    }
    Ok(words)
}

/// Serves the room that there is, and gives the exit status; where there is none, the status that was given.
fn served<N, W: Write + Device, F: FaultStream>(
    alloc: Global,
    net: &N,
    status: u8,
    room: Option<Visits>,
    output: &mut W,
    faults: &mut F,
) -> u8
where
    N: Net<Listener = TcpListener, Stream = TcpStream> + Clock,
    ensures none { room ≡ None → (result ≡ status) × (output.new ≡ output.old) × (faults.new ≡ faults.old) }
    ensures served { IfSome room (λ visits. VisitsEnd visits.port result (W.contents output.old)
        (W.contents output.new) (Rose (W.failed output.old) (W.failed output.new))) }
{
    match room {
        Some(visits) => visits.serve(alloc, net, output, faults),
        None => status,
    }
}

fn main(rt: HostRuntime) -> ExitCode {
    let mut input = Counted::new(rt.stdin());
    let mut output = Counted::new(rt.stdout());
    let mut faults = Counted::new(rt.stderr());
    let status = match words_of(&rt) {
        Ok(words) => {
            let (status, left, room) = run(
                &rt,
                &words,
                Unknown,
                &mut input,
                &mut output,
                &mut faults,
            );
            // The file is free for others while a room is served.
            drop(left);
            served(rt.alloc(), &rt, status, room, &mut output, &mut faults)
        }
        Err(error) => command::refuse_command_line(&error, &mut faults),
    };
    ExitCode::from(status)
}
