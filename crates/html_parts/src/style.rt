//! The style sheet.

ghost use Rattle.std.specs.Prelude.{◌≡◌, ◌++◌, IfOk, OnOk, string_bytes};
ghost use Rattle.html_parts.specs.Style as style;

use std::alloc::{AllocError, Global};

/// The style sheet of all pages: readable at 360 pixels, in dark mode and printed.
pub fn style_sheet(alloc: Global) -> Result<String, AllocError>
    ensures { IfOk result (λ s. string_bytes s ≡ style.style_sheet) }
{
    let mut out = String::new(alloc);
    push_base(&mut out)?;
    push_elements(&mut out)?;
    push_classes(&mut out)?;
    Ok(out)
}

fn push_base(out: &mut String) -> Result<(), AllocError>
    ensures { OnOk result (string_bytes out.new ≡ string_bytes out.old ++ style.base_rules) }
{
    out.push_str(color_rules())?;
    out.push_str(text_rules())?;
    out.push_str(width_rules())
}

fn push_elements(out: &mut String) -> Result<(), AllocError>
    ensures { OnOk result (string_bytes out.new ≡ string_bytes out.old ++ style.element_rules) }
{
    out.push_str(heading_rules())?;
    out.push_str(section_rules())?;
    out.push_str(nav_rules())?;
    out.push_str(list_rules())
}

fn push_classes(out: &mut String) -> Result<(), AllocError>
    ensures { OnOk result (string_bytes out.new ≡ string_bytes out.old ++ style.class_rules) }
{
    out.push_str(note_rules())?;
    out.push_str(pages_rules())?;
    push_shapes(out)?;
    out.push_str(focus_rules())?;
    out.push_str(print_rules())
}

fn push_shapes(out: &mut String) -> Result<(), AllocError>
    ensures { OnOk result (string_bytes out.new ≡ string_bytes out.old ++ style.shape_rules) }
{
    out.push_str(lined_rules())?;
    out.push_str(tree_rules())?;
    out.push_str(box_rules())
}

#[tactic(auto, unfolding(crate::specs::Style::color_rules))]
fn color_rules() -> &'static str
    ensures { result.now ≡ style.color_rules }
{
    ":root{color-scheme:light dark}\n"
}

#[tactic(auto, unfolding(crate::specs::Style::text_rules))]
fn text_rules() -> &'static str
    ensures { result.now ≡ style.text_rules }
{
    "body{font:1rem/1.5 serif;overflow-wrap:anywhere}\n"
}

#[tactic(auto, unfolding(crate::specs::Style::width_rules))]
fn width_rules() -> &'static str
    ensures { result.now ≡ style.width_rules }
{
    "body{margin:0 auto;max-width:46rem;padding:.5rem 1rem}\n"
}

#[tactic(auto, unfolding(crate::specs::Style::heading_rules))]
fn heading_rules() -> &'static str
    ensures { result.now ≡ style.heading_rules }
{
    "h1{font-size:1.5rem;line-height:1.2}\n"
}

#[tactic(auto, unfolding(crate::specs::Style::section_rules))]
fn section_rules() -> &'static str
    ensures { result.now ≡ style.section_rules }
{
    "h2{font-size:1.15rem;margin-bottom:.25rem}\n"
}

#[tactic(auto, unfolding(crate::specs::Style::nav_rules))]
fn nav_rules() -> &'static str
    ensures { result.now ≡ style.nav_rules }
{
    "nav{border-bottom:1px solid;padding:.5rem 0}\n"
}

#[tactic(auto, unfolding(crate::specs::Style::list_rules))]
fn list_rules() -> &'static str
    ensures { result.now ≡ style.list_rules }
{
    "ul{padding-left:1.2rem;margin:.25rem 0}\n"
}

#[tactic(auto, unfolding(crate::specs::Style::note_rules))]
fn note_rules() -> &'static str
    ensures { result.now ≡ style.note_rules }
{
    ".note{font-size:.9rem;margin:.25rem 0}\n"
}

#[tactic(auto, unfolding(crate::specs::Style::pages_rules))]
fn pages_rules() -> &'static str
    ensures { result.now ≡ style.pages_rules }
{
    ".pages a{margin-right:1rem}\n"
}

#[tactic(auto, unfolding(crate::specs::Style::lined_rules))]
fn lined_rules() -> &'static str
    ensures { result.now ≡ style.lined_rules }
{
    ".text{white-space:pre-line}\n"
}

#[tactic(auto, unfolding(crate::specs::Style::tree_rules))]
fn tree_rules() -> &'static str
    ensures { result.now ≡ style.tree_rules }
{
    ".tree,.tree ul{list-style:none;border-left:1px solid;padding-left:1rem}\n"
}

#[tactic(auto, unfolding(crate::specs::Style::box_rules))]
fn box_rules() -> &'static str
    ensures { result.now ≡ style.box_rules }
{
    ".tree a{border:1px solid;display:inline-block;margin:.25rem 0;padding:.25rem .5rem}\n"
}

#[tactic(auto, unfolding(crate::specs::Style::focus_rules))]
fn focus_rules() -> &'static str
    ensures { result.now ≡ style.focus_rules }
{
    "a:focus{outline:2px solid}\n"
}

#[tactic(auto, unfolding(crate::specs::Style::print_rules))]
fn print_rules() -> &'static str
    ensures { result.now ≡ style.print_rules }
{
    "@media print{nav{display:none}body{max-width:none;padding:0}}\n"
}
