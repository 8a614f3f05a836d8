//! Stored lines and the branches that they are.

use row_words::{Answer, number, word};
use std::alloc::{AllocError, Global};
use stored_lines::{
    Branch, Carried, StoredLine, Value, are_same, branch_of_lines, branches_of, carried_of,
    lines_of_branch,
};

/// Says what is asked of the lines.
pub(crate) fn say_of_lines(
    alloc: Global,
    lines: &[StoredLine],
    words: &[String],
    out: &mut Answer,
) -> Result<(), AllocError> {
    match word(words, 1) {
        "branch" => say_branch(alloc, branch_of_lines(alloc, lines)?, out),
        "carried" => say_below(alloc, branch_of_lines(alloc, lines)?, out),
        _ => {
            say_same(lines, number(words, 2) as usize, out);
            Ok(())
        }
    }
}

/// Says the lines of a branch, or that there is none.
fn say_branch(alloc: Global, found: Option<Branch>, out: &mut Answer) -> Result<(), AllocError> {
    match found {
        Some(branch) => out.say_lines(&lines_of_branch(alloc, branch)?),
        None => out.say_line("none"),
    }
    Ok(())
}

/// Says whether the lines are the same as those from a place on.
fn say_same(lines: &[StoredLine], from: usize, out: &mut Answer) {
    match lines.get(from..) {
        Some(rest) => out.say_printed(&are_same(lines, rest)),
        None => out.say("none"),
    }
    out.say("\n");
}

/// Says what stands below the first line of a branch, as carried lines; as carried lines that were made branches
/// and read again; and their copies.
fn say_below(alloc: Global, found: Option<Branch>, out: &mut Answer) -> Result<(), AllocError> {
    match carried_below(alloc, &found)? {
        Some(carried) => say_three_times(alloc, carried, out),
        None => {
            out.say_line("none");
            Ok(())
        }
    }
}

fn carried_below(
    alloc: Global,
    found: &Option<Branch>,
) -> Result<Option<Vec<Carried>>, AllocError> {
    match found {
        Some(branch) => carried_of(alloc, &branch.children),
        None => Ok(None),
    }
}

fn say_three_times(
    alloc: Global,
    carried: Vec<Carried>,
    out: &mut Answer,
) -> Result<(), AllocError> {
    say_carried("first", &carried, out);
    match &read_again(alloc, &carried)? {
        Some(again) => say_carried("again", again, out),
        None => out.say_line("none"),
    }
    out.say_line("copies");
    for line in &carried {
        say_carried_line(&line.copy(alloc)?, 0, out);
    }
    Ok(())
}

fn read_again(alloc: Global, carried: &[Carried]) -> Result<Option<Vec<Carried>>, AllocError> {
    let branches = branches_of(alloc, carried)?;
    carried_of(alloc, &branches)
}

/// Says a name and carried lines, each with its depth.
pub(crate) fn say_carried(name: &str, carried: &[Carried], out: &mut Answer) {
    out.say_line(name);
    for line in carried {
        say_carried_line(line, 0, out);
    }
}

fn say_carried_line(line: &Carried, depth: u32, out: &mut Answer) {
    out.say_printed(&depth);
    out.say(" ");
    out.say(line.tag.as_str());
    say_carried_value(" ", &line.value, out);
    for child in &line.children {
        say_carried_line(child, depth.saturating_add(1), out);
    }
}

/// Says a text, or the number that a line points to.
pub(crate) fn say_carried_value(name: &str, value: &Value, out: &mut Answer) {
    match value {
        Value::Text(text) => out.say_words(name, text.as_str()),
        Value::Ref(number) => out.say_number(name, Some(*number)),
    }
}
