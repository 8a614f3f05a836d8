//! A place found, or made within the place above it.

ghost use Rattle.std.specs.Prelude.{◌≡◌, ◌<◌, ◌∷◌, ◌++◌, false, Some, IfErr, IfOk, OnOk, MatchOption, MatchResult};
ghost use Rattle.archive_state.specs.Looks.{is_failure, is_stop, CountsFailures, OnView};
ghost use Rattle.record_shapes.specs.Paths as paths;
ghost use Rattle.field_rows.specs.Cuts.{Without};
ghost use Rattle.import_definitions.specs.Numbers as numbers;
ghost use Rattle.import_numbers.specs.Settling.{IsPathText, Knows, Settles};
ghost use Rattle.import_numbers.specs.Views.{drawing_said, found_said, places_of};

use crate::drawing::Drawing;
use crate::finding::{FilePlaces, Looks};
use crate::found::Found;
use archive_state::View;
use field_rows::made_normal;
use record_text::RefusalKind;
use std::alloc::Global;

/// Where in a file a place is sought.
#[derive(Clone, Copy)]
pub struct Spot {
    /// The position of the node.
    pub position: u32,
    /// Of the file's places those before this position count; none: all do.
    pub before: Option<u32>,
}

impl Spot {
    /// The same for the place above: there those before the node count.
    fn above(self) -> Spot
        ensures { (result.position ≡ self.position) × (result.before ≡ Some self.position) }
    {
        Spot {
            position: self.position,
            before: Some(self.position),
        }
    }
}

/// The place of a path: found, or else made within the place of the names after the first, which is found or made
/// before it. 63: there is no number left.
pub fn settle<V: View>(
    alloc: Global,
    view: &mut V,
    looks: &mut Looks,
    file: &FilePlaces,
    drawing: &mut Drawing,
    spot: Spot,
    text: &str,
) -> Result<Found, RefusalKind>
    requires { IsPathText text.now }
    ensures settles { OnView V.is_honest V.shows V.content view.old view.new (λ c. Knows looks.old.found c
        → Settles (numbers.settle (places_of c file.now) spot.before spot.position (numbers.names_of text.now)
        (drawing_said drawing.old)) drawing.new result × IfOk result (λ f. Knows looks.new.found c)) }
    ensures counts { CountsFailures (V.failed view.old) (V.failed view.new) result }
{
    let path = made_normal(alloc, text)?;
    let made = drawing.made(path.as_str());
    if let Some(found) = looks.find(alloc, view, file, spot.before, made, path.as_str())? {
        return Ok(found);
    }
    let Some((part, after)) = cut(text) else {
        return drawing.make(alloc, path.as_str(), path.as_str(), None);
    };
    let above = settle(alloc, view, looks, file, drawing, spot.above(), after)?;
    make_within(alloc, drawing, path.as_str(), part, above)
}

/// Makes the place of a path within another, with the part in front as its name.
fn make_within(
    alloc: Global,
    drawing: &mut Drawing,
    path: &str,
    part: &str,
    above: Found,
) -> Result<Found, RefusalKind>
    requires { IsPathText part.now }
    ensures made { OnOk result (drawing_said drawing.new
        ≡ numbers.with_made path.now (paths.normal part.now) (Some (found_said above)) (drawing_said drawing.old)) }
    ensures number { MatchResult result
        (λ f. found_said f ≡ numbers.at_number drawing.old.next)
        (λ e. is_stop e ≡ false → (e ≡ RefusalKind.Full) × (4294967295 < drawing.old.next)) }
    ensures own { IfErr result (λ e. is_failure e ≡ false) }
{
    let name = made_normal(alloc, part)?;
    drawing.make(alloc, path, name.as_str(), Some(above))
}

/// What is before the first comma and after it.
fn cut(text: &str) -> Option<(&str, &str)>
    ensures { MatchOption result (Without 44 text.now)
        (λ x. (text.now ≡ x.0.now ++ 44 ∷ x.1.now) × Without 44 x.0.now) }
{
    text.split_once(',')
}
