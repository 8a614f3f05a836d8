//! The line that names the place of an event.

ghost use Rattle.std.specs.Prelude.{◌≡◌, ◌++◌, ◌∷◌, Bool, IfOk, option_map};
ghost use Rattle.std.specs.List.{filter};
ghost use Rattle.stored_lines.specs.Line.{Line, Lines};
ghost use Rattle.stored_lines.specs.Tree.{Tree};
ghost use Rattle.record_shapes.specs.Forms.{number_of as number_on};
ghost use Rattle.record_shapes.specs.Picking.{first};
ghost use Rattle.record_shapes.specs.Reading as reading;
ghost use Rattle.node_reading.specs.Told as told;

use field_rows::{Known, is_loc, number_of};
use std::alloc::{AllocError, Global};
use stored_lines::Carried;

/// The number of the place that a line names, and the lines beside it.
#[derive(Drop)]
pub(crate) struct Located {
    pub(crate) number: Option<u32>,
    pub(crate) carried: Vec<Carried>,
}

/// Of the lines below that of a place, the first that names one of that path, and the others.
pub(crate) fn locate<K: Known>(
    alloc: Global,
    known: &K,
    path: &str,
    lines: Vec<Carried>,
) -> Result<Located, AllocError>
    ensures number { IfOk result (λ l. l.number
        ≡ option_map number_on (first (filter (reading.is_loc (K.known known.now) path.now) lines.items))) }
    ensures carried { IfOk result (λ l. l.carried.items
        ≡ reading.without (reading.is_loc (K.known known.now) path.now) lines.items) }
{
    let mut located = Located {
        number: None,
        carried: Vec::new(alloc),
    };
    'lines: for line in lines {
        let is_it = is_loc(known, path, &line);
        take_loc(&mut located, is_it, line)?;
    }
    Ok(located)
}

fn take_loc(located: &mut Located, is_loc: bool, line: Carried) -> Result<(), AllocError>
    ensures number { IfOk result (λ _. (P : Tree Line → Bool) (ts : Lines) → is_loc ≡ P line
        → told.number_or P located.new.number ts ≡ told.number_or P located.old.number (line ∷ ts)) }
    ensures carried { IfOk result (λ _. (P : Tree Line → Bool) (ts : Lines) → is_loc ≡ P line
        → located.new.carried.items ++ told.unlocated P located.new.number ts
        ≡ located.old.carried.items ++ told.unlocated P located.old.number (line ∷ ts)) }
{
    if located.number.is_some() || !is_loc {
        located.carried.push(line)?;
        return Ok(());
    }
    located.number = Some(number_of(&line));
    Ok(())
}
