//! Rows of batches that are read, and that are refused; over a reader of seven bytes a call, and one that fails.

use crate::transfers::{Faulty, NEVER};
use devices::Counted;
use record_text::{Refusal, RefusalKind};
use request_csv::read_entries;
use std::alloc::Global;

const BAPTISM: &str = "BAPTISM,f. 3,1,15 APR 1699/00,,John,child,John,father,Tom Lee\n";

const BURIAL: &str = "BURIAL,f. 3,1,,,Ann,buried,Ann Lee\n";

/// How many entries are read of bytes, where a read fails, or the refusal.
fn read(alloc: Global, bytes: &[u8], fails_at: u64) -> Result<usize, Refusal> {
    let mut reader = Counted::new(Faulty::new(bytes, 7, fails_at));
    let entries = read_entries(alloc, &mut reader)?;
    Ok(entries.as_slice().len())
}

/// What is read of two rows, and then of this one.
fn read_third(alloc: Global, row: &[u8]) -> Result<usize, Refusal> {
    let mut bytes: Vec<u8> = Vec::new(alloc);
    bytes.extend_from_slice(BAPTISM.as_bytes())?;
    bytes.extend_from_slice(BURIAL.as_bytes())?;
    bytes.extend_from_slice(row)?;
    read(alloc, bytes.as_slice(), NEVER)
}

/// The refusal of the third row.
fn third(kind: RefusalKind) -> Result<usize, Refusal> {
    Err(Refusal { kind, at: Some(3) })
}

#[test]
fn the_first_refused_row_is_named(rt: HostRuntime) {
    let rows: [(&[u8], Result<usize, Refusal>); 10] = [
        (b"".as_slice(), Ok(2)),
        (b"\n\nMARRIAGE,,999999,,,,groom,".as_slice(), Ok(3)),
        (
            b"BURIAL,f. 3,1,,,Ann".as_slice(),
            third(RefusalKind::FieldCount),
        ),
        (
            b"BURIAL,f. 3,1,,,Ann,buried".as_slice(),
            third(RefusalKind::FieldCount),
        ),
        (b"BURIAL\nBIRTH".as_slice(), third(RefusalKind::FieldCount)),
        (
            b"BIRTH,f. 3,1,,,Ann,buried,Ann".as_slice(),
            third(RefusalKind::BadRow),
        ),
        (
            b"BURIAL,f. 3,0,,,Ann,buried,Ann".as_slice(),
            third(RefusalKind::BadRow),
        ),
        (
            b"BURIAL,f. 3,1000000,,,Ann,buried,Ann".as_slice(),
            third(RefusalKind::BadRow),
        ),
        (
            b"BURIAL,f. 3,1,,0,Ann,buried,Ann".as_slice(),
            third(RefusalKind::BadRow),
        ),
        (b"BURIAL,\xff,1".as_slice(), third(RefusalKind::BadRow)),
    ];
    for (row, want) in rows {
        assert_eq!(rt; read_third(rt.alloc(), row), want);
    }
}

#[test]
fn each_read_of_rows_fails_in_turn(rt: HostRuntime) {
    let failed = Refusal::from(RefusalKind::ReadFailed);
    for fails_at in 1..=10u64 {
        assert_eq!(rt;
            read(rt.alloc(), BAPTISM.as_bytes(), fails_at),
            Err(failed),
            "at {fails_at}"
        );
    }
    assert_eq!(rt; read(rt.alloc(), BAPTISM.as_bytes(), NEVER), Ok(1));
}
