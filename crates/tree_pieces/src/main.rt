//! Reads standard input cut in many ways, and says where the forest or the fault depends on it, and which
//! byte decides a fault. A check of `gedcom_tree`; no part of the product.
#![tactic(auto)]

use devices::{Counted, read_up_to};
use gedcom_rules::TreeFault;
use gedcom_tree::{Forest, Node, TreeReader, write_forest};
use std::alloc::{AllocError, Global};
use std::io;
use std::io::Write;
use std::process::ExitCode;

/// The most bytes that are read: enough to be too many for a file.
const LIMIT: usize = 67_108_865;

/// The text of a forest, and the line of each node, those below it after it; or the fault.
type Answer = Result<(Vec<u8>, Vec<u32>), TreeFault>;

/// Appends the line of each node, and of those below it.
fn push_lines(lines: &mut Vec<u32>, nodes: &[Node]) -> Result<(), AllocError> {
    for node in nodes {
        lines.push(node.line)?;
        push_lines(lines, &node.children)?;
    }
    Ok(())
}

/// What was fed comes to this.
fn answer(alloc: Global, reader: TreeReader) -> Answer {
    let forest = reader.finish()?;
    let mut text = Vec::new(alloc);
    write_forest(alloc, &forest, &mut Counted::new(&mut text))?;
    let mut lines = Vec::new(alloc);
    push_lines(&mut lines, forest.nodes())?;
    Ok((text, lines))
}

/// Fed in two pieces, cut at a place.
fn in_two(alloc: Global, (front, back): (&[u8], &[u8])) -> Answer {
    let mut reader = TreeReader::new(alloc);
    reader.feed(front)?;
    reader.feed(back)?;
    answer(alloc, reader)
}

/// Feeds byte by byte, with an empty piece before each, up to a fault: the byte, from 1, that decides it.
fn feed_each(reader: &mut TreeReader, bytes: &[u8]) -> Option<(usize, TreeFault)> {
    for (before, byte) in bytes.iter().enumerate() {
        for piece in [[].as_slice(), &[*byte]] {
            if let Err(fault) = reader.feed(piece) {
                return Some((before + 1, fault));
            }
        }
    }
    None
}

/// Whether the fault is answered to an empty piece and to a trailer too.
fn answers_again(reader: &mut TreeReader, fault: TreeFault) -> bool {
    reader.feed(&[]) == Err(fault) && reader.feed(b"0 TRLR\n") == Err(fault)
}

/// Fed byte by byte; and the byte that decides the fault, `None` where the end does or none is there.
fn byte_by_byte(alloc: Global, bytes: &[u8]) -> (Option<usize>, Answer) {
    let mut reader = TreeReader::new(alloc);
    match feed_each(&mut reader, bytes) {
        None => (None, answer(alloc, reader)),
        Some((byte, fault)) if answers_again(&mut reader, fault) => {
            (Some(byte), answer(alloc, reader))
        }
        // no file has an empty text
        Some((byte, _)) => (Some(byte), Ok((Vec::new(alloc), Vec::new(alloc)))),
    }
}

/// The first place, from 1, where a cut shows.
fn cut_that_shows(alloc: Global, bytes: &[u8], whole: &Answer) -> Option<usize> {
    (1..bytes.len()).find(|k| in_two(alloc, bytes.split_at(*k)) != *whole)
}

/// The forest that bytes are.
fn forest_of(alloc: Global, bytes: &[u8]) -> Result<Forest, TreeFault> {
    let mut reader = TreeReader::new(alloc);
    reader.feed(bytes)?;
    reader.finish()
}

/// The text with other line ends, and a blank line after each line.
fn spelled_otherwise(alloc: Global, text: &[u8]) -> Result<Vec<u8>, AllocError> {
    let mut all = Vec::new(alloc);
    for byte in text {
        match *byte {
            b'\n' => all.extend_from_slice(b"\r\n\r\n")?,
            other => all.push(other)?,
        }
    }
    Ok(all)
}

/// The text with a longer value on its first line.
fn with_another_value(alloc: Global, text: &[u8]) -> Result<Vec<u8>, AllocError> {
    let mut all = Vec::new(alloc);
    let mut lines = text.splitn(2, |byte| *byte == b'\n');
    all.extend_from_slice(lines.next().unwrap_or(&[]))?;
    all.extend_from_slice(b" x\n")?;
    all.extend_from_slice(lines.next().unwrap_or(&[]))?;
    Ok(all)
}

/// Whether the forest of the bytes equals that of its text in another spelling, where lines may have other
/// numbers, and differs from one with another value.
fn is_compared(alloc: Global, bytes: &[u8], text: &[u8]) -> Result<bool, TreeFault> {
    let forest = forest_of(alloc, bytes)?;
    let same = forest_of(alloc, &spelled_otherwise(alloc, text)?)?;
    let other = forest_of(alloc, &with_another_value(alloc, text)?)?;
    Ok(forest == same && forest != other)
}

/// Tells a fault, and the byte that decides it.
fn tell(rt: &HostRuntime, fault: TreeFault, byte: Option<usize>) -> io::Result<()> {
    match byte {
        Some(byte) => println!(rt; "{fault}\ndecided at byte {byte}"),
        None => println!(rt; "{fault}\ndecided at the end"),
    }
}

fn main(rt: HostRuntime) -> io::Result<ExitCode> {
    let alloc = rt.alloc();
    let Ok(bytes) = read_up_to(alloc, &mut Counted::new(rt.stdin()), 0, LIMIT) else {
        return Ok(ExitCode::from(2));
    };
    let whole = in_two(alloc, (&bytes, &[]));
    let (byte, stepwise) = byte_by_byte(alloc, &bytes);
    let shown = if stepwise == whole {
        cut_that_shows(alloc, &bytes, &whole)
    } else {
        Some(0)
    };
    if let Some(place) = shown {
        return println!(rt; "differs at {place}").map(|()| ExitCode::from(3));
    }
    match whole {
        Ok((text, lines)) => {
            if is_compared(alloc, &bytes, &text) != Ok(true) {
                return println!(rt; "compared wrongly").map(|()| ExitCode::from(3));
            }
            io::writer(&rt).write_all(&text)?;
            println!(rt; "lines {lines:?}").map(|()| ExitCode::SUCCESS)
        }
        Err(fault) => tell(&rt, fault, byte).map(|()| ExitCode::FAILURE),
    }
}
