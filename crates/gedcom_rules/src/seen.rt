//! What the lines of a file so far leave for judging the next one.

ghost use Rattle.std.specs.Prelude.{◌≡◌, ◌+◌, ◌<◌, ◌≤◌, ◌^◌, ◌-◌, ◌||◌, ℕ, List, true, false, OnOk, option_map, length};
ghost use Rattle.std.specs.Str.{bytes_eq};
ghost use Rattle.std.specs.BTreeSet.{contains_text};
ghost use Rattle.std.specs.Option.{option_map_or};
ghost use Rattle.gedcom_line.specs.Reading.{parts, is_continuation as continuation_test};
ghost use Rattle.gedcom_rules.specs.Rules.{
  is_trailer as trailer_test,
  parent as parent_of,
  names_set as set_test,
  names_version as version_test,
  may_go_on as goes_on,
};
ghost use Rattle.gedcom_rules.specs.Judging.{after as after_line, above_after, continue_at, start as no_lines};
ghost use Rattle.gedcom_rules.specs.Depth.{depth as depth_of};
ghost use Rattle.gedcom_rules.specs.Views.{progress, standing_view, standings, IsStacked};

use crate::standing::{Role, Standing, added_len};
use gedcom_line::LineRef;
use std::alloc::{AllocError, Global};
use std::collections::BTreeSet;

/// What the lines so far leave for judging the next one. Contracts see it as `progress` of specs/Views.
#[derive(Drop)]
pub struct Seen {
    /// How many lines there were.
    pub(crate) count: u32,
    /// The level of the last one.
    pub(crate) last: u8,
    /// Whether the trailer stood.
    pub(crate) is_done: bool,
    /// Whether the last line belongs to the header.
    pub(crate) is_in_head: bool,
    /// The cross references that stood on them.
    pub(crate) names: BTreeSet<String>,
    /// The last line of each level, from 0 up, that still stands open.
    pub(crate) stack: Vec<Standing>,
}

/// Whether the line is the trailer: level 0 TRLR.
pub fn is_trailer(line: &LineRef<'_>) -> bool
    ensures { result ≡ trailer_test (parts line.now) }
{
    line.level == 0 && line.tag == "TRLR"
}

/// Whether the line continues a text: CONC or CONT.
pub fn is_continuation(line: &LineRef<'_>) -> bool
    ensures { result ≡ continuation_test line.now.tag.now }
{
    line.tag == "CONC" || line.tag == "CONT"
}

/// Adds the cross reference of a line.
fn add_name(
    alloc: Global,
    names: &mut BTreeSet<String>,
    xref: Option<&str>,
) -> Result<(), AllocError>
    ensures { OnOk result ((x : List ℕ) → contains_text names.new x
        ≡ (contains_text names.old x || option_map_or (bytes_eq x) (option_map (λ s. s.now) xref.entry) false)) }
{
    if let Some(name) = xref {
        names.insert(String::from_str(alloc, name)?)?;
    }
    Ok(())
}

/// Makes the text of the last line longer by a continuation one level below.
fn join_last(stack: &mut Vec<Standing>, line: &LineRef<'_>)
    requires own { continuation_test line.now.tag.now ≡ true }
    requires level { line.now.level ≡ length stack.old.items }
    ensures value { (n : ℕ) → standings stack.new.items n
        ≡ option_map (continue_at n (parts line.now)) (standings stack.old.items n) }
    ensures same { length stack.new.items ≡ length stack.old.items }
{
    let more = added_len(line);
    if let Some(above) = stack.last_mut() {
        *above = above.continued(more);
    }
}

/// Opens a line, and closes those of its level and deeper. A continuation makes the text above it longer.
fn stand(stack: &mut Vec<Standing>, line: &LineRef<'_>) -> Result<(), AllocError>
    requires { line.now.level ≤ length stack.old.items }
    ensures value { OnOk result ((n : ℕ) → standings stack.new.items n
        ≡ above_after (standings stack.old.items) (parts line.now) n) }
    ensures depth { OnOk result (length stack.new.items ≡ line.now.level + 1) }
{
    stack.truncate(usize::from(line.level));
    if is_continuation(line) {
        join_last(stack, line);
    }
    stack.push(Standing::of_line(line))?;
    Ok(())
}

impl Seen {
    /// No lines yet.
    pub fn new(alloc: Global) -> Self
        ensures value { progress result ≡ no_lines }
        ensures stacked { IsStacked result }
    {
        Seen {
            count: 0,
            last: 0,
            is_done: false,
            is_in_head: false,
            names: BTreeSet::new(alloc),
            stack: Vec::new(alloc),
        }
    }

    /// The line one level above.
    pub(crate) fn parent(&self, level: u8) -> Option<Standing>
        ensures { option_map standing_view result ≡ parent_of (progress self.now) level }
    {
        if level == 0 {
            return None;
        }
        self.stack.get(usize::from(level - 1)).copied()
    }

    /// Whether the header names the character set by a line of that level and role.
    pub(crate) fn names_set(&self, level: u8, role: Role) -> bool
        ensures { result ≡ set_test (progress self.now) level role }
    {
        self.is_in_head && level == 1 && role == Role::Charset
    }

    /// Whether the header names the version by a line of that level and role.
    pub(crate) fn names_version(&self, level: u8, role: Role) -> bool
        ensures { result ≡ version_test (progress self.now) level role }
    {
        let is_below_gedcom = match self.stack.get(1) {
            Some(above) => above.role == Role::Gedcom,
            None => false,
        };
        self.is_in_head && level == 2 && role == Role::Version && is_below_gedcom
    }

    /// Whether a line of the level may continue what stands above it.
    pub(crate) fn may_go_on(&self, above: Option<Standing>, level: u8) -> bool
        ensures { result ≡ option_map_or (goes_on (progress self.now) (level - 1))
            (option_map standing_view above) false }
    {
        match above {
            Some(standing) => {
                let level = level.saturating_sub(1);
                standing.is_text
                    && !self.names_set(level, standing.role)
                    && !self.names_version(level, standing.role)
            }
            None => false,
        }
    }

    /// Whether the cross reference stood before.
    pub(crate) fn is_named(&self, xref: Option<&str>) -> bool
        ensures { result ≡ option_map_or (progress self.now).named (option_map (λ s. s.now) xref.entry) false }
    {
        match xref {
            Some(name) => self.names.contains(name),
            None => false,
        }
    }

    /// How many lines stand open: one of each level down to that of the last one.
    pub fn depth(&self) -> usize
        requires { IsStacked self.now }
        ensures { result ≡ depth_of (progress self.now) }
    {
        self.stack.len()
    }

    /// Adds a line after these, whichever rules it breaks: the callers that read on after a faulty line decide what
    /// it counts as.
    pub fn count_line(&mut self, alloc: Global, line: &LineRef<'_>) -> Result<(), AllocError>
        requires count { (progress self.old).count + 1 < 2 ^ 32 }
        requires stacked { IsStacked self.old }
        requires level { line.now.level ≤ depth_of (progress self.old) }
        ensures value { OnOk result (progress self.new ≡ after_line (progress self.old) (parts line.now)) }
        ensures stacked { OnOk result (IsStacked self.new) }
    {
        self.add(alloc, line)
    }

    /// Adds a line after these.
    pub(crate) fn add(&mut self, alloc: Global, line: &LineRef<'_>) -> Result<(), AllocError>
        requires count { self.old.count + 1 < 2 ^ 32 }
        requires level { line.now.level ≤ length self.old.stack.items }
        ensures value { OnOk result (progress self.new ≡ after_line (progress self.old) (parts line.now)) }
        ensures count { OnOk result (self.new.count ≡ self.old.count + 1) }
        ensures depth { OnOk result (length self.new.stack.items ≡ line.now.level + 1) }
    {
        add_name(alloc, &mut self.names, line.xref)?;
        stand(&mut self.stack, line)?;
        self.is_in_head = self.count == 0 || (self.is_in_head && line.level != 0);
        self.is_done = self.is_done || is_trailer(line);
        self.count += 1;
        self.last = line.level;
        Ok(())
    }
}
