// The models that main reaches, in the order in which a search leaves them.
ghost use Rattle.std.specs.Prelude.{◌≡◌, ◌<◌, ℕ, Some, IfOk, IfNone, IfSome, length, slice_index};
ghost use Rattle.surf_flatten.specs.Searches.{HasLeft, target_by};
ghost use Rattle.surf_flatten.specs.Tables.{AreWithin, Finds, place_in};

use crate::models::{Item, Model};
use crate::places::Places;
use std::alloc::Global;
use surf_base::NoMemory;

// The place of the model that an item places.
pub(crate) fn target_of(library: &Places, item: &Item) -> Option<usize>
    ensures { result ≡ target_by (place_in library.now) item.now }
{
    match item {
        Item::Cover(_) => None,
        Item::Place(placing) => library.place(placing.model()),
    }
}

// The same, where the search has not come to it.
fn unseen_target(library: &Places, item: &Item, progress: &[usize]) -> Option<usize>
    requires { AreWithin (length progress.now) library.now }
    ensures some { IfSome result (λ j. target_by (place_in library.now) item.now ≡ Some j) }
    ensures unseen { IfSome result (λ j. slice_index progress.now j ≡ 0) }
    ensures seen { IfNone result
        ((j : ℕ) → target_by (place_in library.now) item.now ≡ Some j
        → 0 < slice_index progress.now j) }
{
    let target = target_of(library, item)?;
    if progress[target] == 0 {
        Some(target)
    } else {
        None
    }
}

// The models that main reaches. A search leaves each after all that it places, but for those that
// lead back; the last that is left comes first. Beside each model stands how many of its items
// were looked at: 0 where the search has not come to it, else 1 more.
pub(crate) fn left_models(
    alloc: Global,
    models: &[Model],
    library: &Places,
) -> Result<Vec<usize>, NoMemory>
    requires some { 0 < length models.now }
    requires library { Finds models.now library.now }
    ensures { IfOk result (λ left. HasLeft models.now left.items) }
{
    let mut progress = vec![in alloc; 0; models.len()].map_err(|_| NoMemory)?;
    let mut path = vec![in alloc; 0].map_err(|_| NoMemory)?;
    let mut left = Vec::new(alloc);
    progress[0] = 1;
    while let Some(place) = path.pop() {
        let seen: usize = progress[place];
        let items = models[place].items();
        if seen > items.len() {
            progress[place] = seen + 1;
            left.push(place).map_err(|_| NoMemory)?;
            continue;
        }
        path.push(place).map_err(|_| NoMemory)?;
        if let Some(target) = unseen_target(library, &items[seen - 1], &progress) {
            progress[target] = 1;
            path.push(target).map_err(|_| NoMemory)?;
            continue;
        }
        progress[place] = seen + 1;
    }
    left.reverse();
    Ok(left)
}
