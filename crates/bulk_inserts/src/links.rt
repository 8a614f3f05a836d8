//! Links, inserted eight at a time.

ghost use Rattle.std.specs.Prelude.{◌≡◌, true, OnOk};
ghost use Rattle.sqlite.specs.Held.{state};
ghost use Rattle.sqlite.specs.State.{HasCleanDisk};
ghost use Rattle.store_tables.specs.Calls.{Inside, LeavesAsBefore, WritesDated};
ghost use Rattle.store_tables.specs.Reading.{IsTypedLink};
ghost use Rattle.store_tables.specs.Rows.{Rows, integer_at, link_place};
ghost use Rattle.bulk_inserts.specs.Links.{AreNewLinks, eight, with_links};

use sqlite::{Alter, Error, Transaction, params};
use store_tables::links::insert_link;
use store_tables::{LinkRow, integer_of};

const EIGHT_LINKS: &str =
    "INSERT INTO link (id) VALUES (?1), (?2), (?3), (?4), (?5), (?6), (?7), (?8)";

/// Inserts links in their order. `Err`: one of them is there already, or a statement failed.
pub fn insert_links<S: Alter>(tx: &mut Transaction<'_, S>, links: &[LinkRow]) -> Result<(), Error>
    ensures same_reference { tx.new.conn.ghost_name ≡ tx.old.conn.ghost_name }
    ensures ok { WritesDated (state S.Store tx.old.conn.now) (state S.Store tx.new.conn.now)
        result (with_links links.now) }
    ensures fresh { HasCleanDisk (state S.Store tx.new.conn.now) → OnOk result ((rows : Rows)
        → rows.has_spans ≡ true → Inside (state S.Store tx.old.conn.now) rows → AreNewLinks links.now rows) }
    ensures survives { LeavesAsBefore (state S.Store tx.old.conn.now) (state S.Store tx.new.conn.now) }
{
    let mut rest = links;
    'eights: while let [a, b, c, d, e, f, g, h, more @ ..] = rest {
        insert_eight(tx, a, b, c, d, e, f, g, h)?;
        rest = more;
    }
    'singles: while let [link, more @ ..] = rest {
        insert_link(tx, link.target, link.number)?;
        rest = more;
    }
    Ok(())
}

/// Inserts eight of them, by one statement.
fn insert_eight<S: Alter>(
    tx: &mut Transaction<'_, S>,
    a: &LinkRow,
    b: &LinkRow,
    c: &LinkRow,
    d: &LinkRow,
    e: &LinkRow,
    f: &LinkRow,
    g: &LinkRow,
    h: &LinkRow,
) -> Result<(), Error>
    ensures same_reference { tx.new.conn.ghost_name ≡ tx.old.conn.ghost_name }
    ensures ok { WritesDated (state S.Store tx.old.conn.now) (state S.Store tx.new.conn.now) result
        (with_links (eight a.now b.now c.now d.now e.now f.now g.now h.now)) }
    ensures fresh { HasCleanDisk (state S.Store tx.new.conn.now) → OnOk result ((rows : Rows)
        → rows.has_spans ≡ true → Inside (state S.Store tx.old.conn.now) rows
        → AreNewLinks (eight a.now b.now c.now d.now e.now f.now g.now h.now) rows) }
    ensures survives { LeavesAsBefore (state S.Store tx.old.conn.now) (state S.Store tx.new.conn.now) }
{
    tx.execute(
        EIGHT_LINKS,
        params![
            key(a),
            key(b),
            key(c),
            key(d),
            key(e),
            key(f),
            key(g),
            key(h)
        ],
    )?;
    Ok(())
}

/// The key of a link.
fn key(link: &LinkRow) -> i64
    ensures key { result ≡ integer_at (link_place link.now) }
    ensures typed { IsTypedLink link.now }
{
    integer_of(link.target, link.number)
}
