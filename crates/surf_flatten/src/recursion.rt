// The lines by which a model reaches itself.
ghost use Rattle.std.specs.Prelude.{◌≡◌, None, MatchResult, length};
ghost use Rattle.surf_flatten.specs.Checks.{Refuses, back_fault, lines_fault, recursion_fault};
ghost use Rattle.surf_flatten.specs.Tables.{AreWithin, place_in};

use crate::error::{FlattenError, Kind, refusal};
use crate::models::{Item, Model};
use crate::places::Places;
use std::alloc::Global;

// The item does not lead to a model of the same part.
fn check_item(
    alloc: Global,
    library: &Places,
    parts: &[usize],
    part: usize,
    item: &Item,
) -> Result<(), FlattenError>
    requires { AreWithin (length parts.now) library.now }
    ensures { MatchResult result
        (λ _. back_fault (place_in library.now) parts.now part item.now ≡ None)
        (Refuses (back_fault (place_in library.now) parts.now part item.now)) }
{
    match item {
        Item::Cover(_) => Ok(()),
        Item::Place(placing) => match library.place(placing.model()) {
            Some(place) => {
                if parts[place] == part {
                    return Err(refusal(alloc, Kind::Recursive, placing.line, placing.model()));
                }
                Ok(())
            }
            None => Ok(()),
        },
    }
}

fn check_items(
    alloc: Global,
    library: &Places,
    parts: &[usize],
    part: usize,
    items: &[Item],
) -> Result<(), FlattenError>
    requires { AreWithin (length parts.now) library.now }
    ensures { MatchResult result
        (λ _. lines_fault (back_fault (place_in library.now) parts.now part) items.now ≡ None)
        (Refuses (lines_fault (back_fault (place_in library.now) parts.now part) items.now)) }
{
    for item in items {
        check_item(alloc, library, parts, part, item)?;
    }
    Ok(())
}

// No line leads to a model of the part of its own. Models of part 0 are left out.
pub(crate) fn check_recursion(
    alloc: Global,
    models: &[Model],
    library: &Places,
    parts: &[usize],
) -> Result<(), FlattenError>
    requires within { AreWithin (length parts.now) library.now }
    requires parts { length parts.now ≡ length models.now }
    ensures { MatchResult result
        (λ _. recursion_fault (place_in library.now) parts.now models.now ≡ None)
        (Refuses (recursion_fault (place_in library.now) parts.now models.now)) }
{
    for (place, model) in models.iter().enumerate() {
        let part = parts[place];
        if part > 0 {
            check_items(alloc, library, parts, part, model.items())?;
        }
    }
    Ok(())
}
