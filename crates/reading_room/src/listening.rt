//! A room that listens, and serves many visitors at once.

ghost use Rattle.std.specs.Prelude.{◌≡◌, ◌⊎◌, Err, IfErr, IfOk, IfSome, OnErr, OnOk, string_bytes};
ghost use Rattle.std.specs.Io.KnownBytes.{Appends};
ghost use Rattle.devices.specs.Devices.{AppendsBeginning, Rose};
ghost use Rattle.record_text.specs.declared.refusal.RefusalKind.TheVariants as refusal;
ghost use Rattle.reading_room.specs.Listening.{IsRoomAddress, IsRoomRefusal, listening_line};

use devices::{Device, TransferError, write_flushed};
use mio::net::TcpListener;
use record_text::RefusalKind;
use room_door::serve_visitors;
use room_requests::Answering;
use std::alloc::{AllocError, Global};
use std::io::{ErrorKind, Write};
use std::net::{Net, SocketAddr};
use std::time::Clock;

/// Listens on a port of 127.0.0.1, says so on the output, and serves so many connections, up to 256 at once; without a
/// limit there is no end.
///
/// What fails on one connection ends that one. 94: listening, accepting or the clock failed. 95: the output failed. 1:
/// memory was refused to what is said or to the list of events, or the output did not count its error.
pub fn serve<N, A: Answering, W: Write + Device>(
    alloc: Global,
    net: &N,
    room: &A,
    port: u16,
    limit: Option<u32>,
    output: &mut W,
) -> Result<(), RefusalKind>
where
    N: Net + Clock,
    ensures ok { OnOk result (Appends (W.contents output.old) (W.contents output.new) (listening_line port)) }
    ensures err { OnErr result
        (AppendsBeginning (W.contents output.old) (W.contents output.new) (listening_line port)) }
    ensures failed { result ≡ Err refusal.WriteFailed → Rose (W.failed output.old) (W.failed output.new) }
    ensures listed { IfErr result IsRoomRefusal }
{
    match serve_visits(alloc, net, room, port, limit, output) {
        Ok(_) => Ok(()),
        Err(kind) => Err(kind),
    }
}

/// The same, with the number of visitors who came: so many as are asked for.
fn serve_visits<N, A: Answering, W: Write + Device>(
    alloc: Global,
    net: &N,
    room: &A,
    port: u16,
    limit: Option<u32>,
    output: &mut W,
) -> Result<u32, RefusalKind>
where
    N: Net + Clock,
    ensures visits { IfSome limit (λ count. IfOk result (λ came. came ≡ count)) }
    ensures ok { OnOk result (Appends (W.contents output.old) (W.contents output.new) (listening_line port)) }
    ensures err { OnErr result
        (AppendsBeginning (W.contents output.old) (W.contents output.new) (listening_line port)) }
    ensures failed { result ≡ Err refusal.WriteFailed → Rose (W.failed output.old) (W.failed output.new) }
    ensures listed { IfErr result IsRoomRefusal }
{
    let listener = match TcpListener::bind(net, room_address(port)) {
        Ok(listener) => listener,
        Err(_) => return Err(RefusalKind::ReadFailed),
    };
    match say_listening(alloc, port, output) {
        Ok(()) => serve_on(alloc, net, room, listener, limit),
        Err(kind) => Err(kind),
    }
}

/// The address of a room: a port of 127.0.0.1, which only this machine reaches.
fn room_address(port: u16) -> SocketAddr
    ensures { IsRoomAddress port result }
{
    SocketAddr::from(([127, 0, 0, 1], port))
}

/// Serves so many connections of a listener. 94: accepting, waiting or the clock failed.
fn serve_on<N: Net + Clock, A: Answering>(
    alloc: Global,
    net: &N,
    room: &A,
    listener: TcpListener,
    limit: Option<u32>,
) -> Result<u32, RefusalKind>
    ensures visits { IfSome limit (λ count. IfOk result (λ came. came ≡ count)) }
    ensures refused { IfErr result (λ kind. (kind ≡ refusal.ReadFailed) ⊎ (kind ≡ refusal.OutOfMemory)) }
{
    match serve_visitors(alloc, net, room, listener, limit) {
        Ok(came) => Ok(came),
        Err(e) if e.kind() == ErrorKind::OutOfMemory => Err(RefusalKind::OutOfMemory),
        Err(_) => Err(RefusalKind::ReadFailed),
    }
}

/// Says on an output that a room listens, and flushes it.
fn say_listening<W: Write + Device>(
    alloc: Global,
    port: u16,
    output: &mut W,
) -> Result<(), RefusalKind>
    ensures ok { OnOk result (Appends (W.contents output.old) (W.contents output.new) (listening_line port)) }
    ensures err { OnErr result
        (AppendsBeginning (W.contents output.old) (W.contents output.new) (listening_line port)) }
    ensures failed { result ≡ Err refusal.WriteFailed → Rose (W.failed output.old) (W.failed output.new) }
    ensures listed { IfErr result IsRoomRefusal }
{
    let before = output.failures();
    let line = match listening_line(alloc, port) {
        Ok(line) => line,
        Err(_) => return Err(RefusalKind::OutOfMemory),
    };
    match write_flushed(output, before, line.as_bytes()) {
        Ok(()) => Ok(()),
        Err(TransferError::Failed) => Err(RefusalKind::WriteFailed),
        Err(TransferError::OutOfMemory) => Err(RefusalKind::OutOfMemory),
    }
}

fn listening_line(alloc: Global, port: u16) -> Result<String, AllocError>
    ensures { IfOk result (λ line. string_bytes line ≡ listening_line port) }
{
    format!(in alloc; "listening on 127.0.0.1:{port}\n")
}
