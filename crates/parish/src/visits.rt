//! What is shown of an archive on a day: which sheet, and the reading room.

ghost use Rattle.std.specs.Int.{IsInRange};
ghost use Rattle.std.specs.Io.KnownBytes.{Appends};
ghost use Rattle.std.specs.Prelude.{◌≡◌, ◌<◌, Err, IfNone, IfOk, IfSome, OnErr, OnOk, option_map, string_bytes};
ghost use Rattle.devices.specs.Devices.{AppendsBeginning, Rose};
ghost use Rattle.reading_room.specs.Listening.{listening_line};
ghost use Rattle.record_text.specs.declared.refusal.RefusalKind.TheVariants as refusal;
ghost use Rattle.parish.specs.Rooms.{IsRoomOf, IsSheetOf, VisitsEnd};

use archive_output::{Sheet, Shelf};
use command_line::{RoomPages, SheetKind};
use devices::Device;
use html_answers::HtmlRoom;
use html_lists::HtmlLists;
use html_pages::HtmlLibrary;
use html_parts::Words;
use reading_room::{Room, serve};
use record_text::RefusalKind;
use sheets::Generations;
use std::alloc::{AllocError, Global};
use std::io::Write;
use std::net::{Net, TcpListener, TcpStream};
use std::time::Clock;
use tasks::{FaultStream, plain, status_of};

/// A room that is to be served: what it shows and in which pages, the port where visitors are heard, and how many of
/// them are answered.
pub struct Visits {
    shelf: Shelf,
    pages: RoomPages,
    port: u16,
    count: u32,
}

// It is written out, so that no function that holds one proves again how a shelf is dropped.
impl Drop for Visits {
    fn drop(self) {
        let Visits {
            shelf: _,
            pages: _,
            port: _,
            count: _,
        } = self;
    }
}

/// The sheet of a kind, of a record of that number; a pedigree has so many generations.
pub(crate) fn sheet_of(kind: SheetKind, number: u32, generations: u32) -> Sheet
    requires { IsInRange 1 12 generations }
    ensures { IsSheetOf kind number generations result }
{
    match kind {
        SheetKind::Person => Sheet::Person(number),
        SheetKind::Family => Sheet::Family(number),
        SheetKind::Register => Sheet::Register(number),
        SheetKind::Pedigree => match Generations::new(generations) {
            Some(generations) => Sheet::Pedigree(number, generations),
            None => unreachable!(),
        },
    }
}

/// The room of what is shown, for so many visitors at a port; none where nothing is shown.
pub(crate) fn room_of(
    shown: Option<Shelf>,
    pages: RoomPages,
    port: u16,
    count: u32,
) -> Option<Visits>
    ensures { IsRoomOf port count pages shown result }
{
    match shown {
        Some(shelf) => Some(Visits {
            shelf,
            pages,
            port,
            count,
        }),
        None => None,
    }
}

impl Visits {
    /// Serves the room, and gives the exit status.
    pub(crate) fn serve<N, W: Write + Device, F: FaultStream>(
        self,
        alloc: Global,
        net: &N,
        output: &mut W,
        faults: &mut F,
    ) -> u8
    where
        N: Net<Listener = TcpListener, Stream = TcpStream> + Clock,
        ensures { VisitsEnd self.port result (W.contents output.old) (W.contents output.new)
            (Rose (W.failed output.old) (W.failed output.new)) }
    {
        let Visits {
            shelf,
            pages,
            port,
            count,
        } = self;
        let outcome = serve_pages(alloc, net, shelf, pages, port, count, output);
        status_of(plain(outcome), faults)
    }
}

/// Serves a room in pages of its kind. 1: memory was refused. Else it ends as `reading_room::serve`.
fn serve_pages<N, W: Write + Device>(
    alloc: Global,
    net: &N,
    shelf: Shelf,
    pages: RoomPages,
    port: u16,
    count: u32,
    output: &mut W,
) -> Result<(), RefusalKind>
where
    N: Net<Listener = TcpListener, Stream = TcpStream> + Clock,
    ensures ok { OnOk result (Appends (W.contents output.old) (W.contents output.new) (listening_line port)) }
    ensures err { OnErr result
        (AppendsBeginning (W.contents output.old) (W.contents output.new) (listening_line port)) }
    ensures failed { result ≡ Err refusal.WriteFailed → Rose (W.failed output.old) (W.failed output.new) }
{
    match pages {
        RoomPages::Plain => serve_text(alloc, net, shelf, port, count, output),
        RoomPages::Html(host) => serve_html(alloc, net, shelf, host, port, count, output),
    }
}

/// Serves a room of text. 1: memory was refused. Else it ends as `reading_room::serve`.
fn serve_text<N, W: Write + Device>(
    alloc: Global,
    net: &N,
    shelf: Shelf,
    port: u16,
    count: u32,
    output: &mut W,
) -> Result<(), RefusalKind>
where
    N: Net<Listener = TcpListener, Stream = TcpStream> + Clock,
    ensures ok { OnOk result (Appends (W.contents output.old) (W.contents output.new) (listening_line port)) }
    ensures err { OnErr result
        (AppendsBeginning (W.contents output.old) (W.contents output.new) (listening_line port)) }
    ensures failed { result ≡ Err refusal.WriteFailed → Rose (W.failed output.old) (W.failed output.new) }
{
    let (shown, _society) = shelf.into_parts();
    match Room::new(alloc, shown) {
        Ok(room) => serve(alloc, net, &room, port, Some(count), output),
        Err(_) => Err(RefusalKind::OutOfMemory),
    }
}

/// Serves a room of HTML, for 0 visitors without an end. 1: memory was refused. Else it ends as `reading_room::serve`.
fn serve_html<N, W: Write + Device>(
    alloc: Global,
    net: &N,
    shelf: Shelf,
    host: Option<String>,
    port: u16,
    count: u32,
    output: &mut W,
) -> Result<(), RefusalKind>
where
    N: Net<Listener = TcpListener, Stream = TcpStream> + Clock,
    ensures ok { OnOk result (Appends (W.contents output.old) (W.contents output.new) (listening_line port)) }
    ensures err { OnErr result
        (AppendsBeginning (W.contents output.old) (W.contents output.new) (listening_line port)) }
    ensures failed { result ≡ Err refusal.WriteFailed → Rose (W.failed output.old) (W.failed output.new) }
{
    match html_room(alloc, shelf, host) {
        Ok(room) => serve(alloc, net, &room, port, limit_of(count), output),
        Err(_) => Err(RefusalKind::OutOfMemory),
    }
}

/// After how many visitors a room of HTML ends. `None`, for 0: it has no end.
fn limit_of(count: u32) -> Option<u32>
    ensures none { IfNone result (count ≡ 0) }
    ensures some { IfSome result (λ limit. (limit ≡ count) × (0 < count)) }
{
    if count == 0 { None } else { Some(count) }
}

/// The room of HTML of what is shown, which may be asked for by a name.
fn html_room(alloc: Global, shelf: Shelf, host: Option<String>) -> Result<HtmlRoom, AllocError>
    ensures { IfOk result (λ room. (room.lists.state ≡ shelf) × (room.host ≡ option_map string_bytes host)) }
{
    let (shown, society) = shelf.into_parts();
    let society = Words::of(alloc, society.as_str())?;
    let library = HtmlLibrary::new(alloc, shown)?;
    Ok(HtmlRoom {
        lists: HtmlLists::new(alloc, library, society)?,
        host: host_words(host),
    })
}

fn host_words(host: Option<String>) -> Option<Words>
    ensures { result ≡ option_map string_bytes host }
{
    match host {
        None => None,
        Some(name) => Some(Words::new(name)),
    }
}
