//! The list of faulty lines.

ghost use Rattle.std.specs.Prelude.{◌≡◌, ◌+◌, ◌<◌, ◌^◌, ◌++◌, ◌∷◌, [], IfOk, OnOk, List, string_bytes};
ghost use Rattle.file_faults.specs.Faults.{Faulty};
ghost use Rattle.file_faults.specs.Shown.{fault_line, heading, listing, more_line};
ghost use Rattle.file_faults.specs.Views.{IsList};

use crate::shown::push_shown;
use gedcom_rules::TreeKind;
use std::alloc::{AllocError, Global};

/// The most faulty lines that are listed.
const MAX_LISTED: u32 = 1_000;

/// The faulty lines so far: the text of the first 1,000 of them, and how many there are.
#[derive(Drop)]
pub(crate) struct Listing {
    pub(crate) text: Vec<u8>,
    pub(crate) total: u32,
}

/// What a line of the list begins with.
fn heading_of(alloc: Global, line: u32, kind: TreeKind) -> Result<String, AllocError>
    ensures { IfOk result (λ t. string_bytes t ≡ heading line kind) }
{
    let number = kind.number();
    let name = kind.name();
    format!(in alloc; "line {line}: {number} {name}: ")
}

/// Appends the line of a faulty line.
#[tactic(auto, unfolding(crate::specs::Shown::fault_line))]
fn push_fault(
    alloc: Global,
    out: &mut Vec<u8>,
    line: u32,
    kind: TreeKind,
    text: &[u8],
) -> Result<(), AllocError>
    ensures { OnOk result (out.new.items ≡ out.old.items
        ++ fault_line (record { line = line; kind = kind; text = text.now })) }
{
    let heading = heading_of(alloc, line, kind)?;
    push_bytes(out, heading.as_bytes())?;
    push_shown(out, text)?;
    push_bytes(out, b"\n")
}

fn push_bytes(out: &mut Vec<u8>, bytes: &[u8]) -> Result<(), AllocError>
    ensures { OnOk result (out.new.items ≡ out.old.items ++ bytes.now) }
{
    out.extend_from_slice(bytes)
}

/// How many more faulty lines there are than are listed, as it is written.
fn more_of(alloc: Global, total: u32) -> Result<String, AllocError>
    ensures { IfOk result (λ t. string_bytes t ≡ more_line total) }
{
    if total <= MAX_LISTED {
        return Ok(String::new(alloc));
    }
    let more = total - MAX_LISTED;
    format!(in alloc; "and {more} more\n")
}

impl Listing {
    /// No faulty lines yet.
    pub(crate) fn new(alloc: Global) -> Self
        ensures { IsList result [] }
    {
        Listing {
            text: Vec::new(alloc),
            total: 0,
        }
    }

    /// One more.
    pub(crate) fn add(
        &mut self,
        alloc: Global,
        line: u32,
        kind: TreeKind,
        text: &[u8],
    ) -> Result<(), AllocError>
        requires { self.old.total + 1 < 2 ^ 32 }
        ensures list { OnOk result ((fs : List Faulty) → IsList self.old fs
            → IsList self.new (fs ++ record { line = line; kind = kind; text = text.now } ∷ [])) }
        ensures total { OnOk result (self.new.total ≡ self.old.total + 1) }
    {
        if self.total < MAX_LISTED {
            push_fault(alloc, &mut self.text, line, kind, text)?;
        }
        self.total += 1;
        Ok(())
    }

    /// The whole list.
    pub(crate) fn finish(mut self, alloc: Global) -> Result<Vec<u8>, AllocError>
        ensures { IfOk result (λ text. (fs : List Faulty) → IsList self fs → text.items ≡ listing fs) }
    {
        let more = more_of(alloc, self.total)?;
        push_bytes(&mut self.text, more.as_bytes())?;
        Ok(self.text)
    }
}
