// Which models reach each other: a search back along the lines that place models.
ghost use Rattle.std.specs.Prelude.{◌≡◌, ◌++◌, ◌<◌, ◌∷◌, ℕ, List, [], IfOk, length, replicate, false, slice_index_or};
ghost use Rattle.std.specs.List.{All};
ghost use Rattle.surf_logic.specs.Marks.{Marks, fresh, marked};
ghost use Rattle.surf_flatten.specs.Groups.{AreSourcesOf, HasGroups, IsFoundBack, all_sources, numbered, put_source, sources_with};
ghost use Rattle.surf_flatten.specs.Searches.{HasLeft, target_by};
ghost use Rattle.surf_flatten.specs.Tables.{AreWithin, Finds, place_in};

use crate::models::{Item, Model};
use crate::places::Places;
use crate::search::target_of;
use std::alloc::Global;
use surf_base::NoMemory;

// The models that place one.
#[derive(Drop)]
pub(crate) struct Sources {
    places: Vec<usize>,
}

impl std::marker::Model for Sources {
    ghost use Rattle.std.specs.Prelude.{ℕ, List};

    ghost Value = { List ℕ };

    ghost view = { λ s. s.places.items };
}

impl Sources {
    fn none(alloc: Global) -> Sources
        ensures { result ≡ [] }
    {
        Sources {
            places: Vec::new(alloc),
        }
    }

    fn places(&self) -> &[usize]
        ensures { result.now ≡ self.now }
    {
        &self.places
    }

    fn add(&mut self, place: usize) -> Result<(), NoMemory>
        ensures { IfOk result (λ _. self.new ≡ self.old ++ place ∷ []) }
    {
        self.places.push(place).map_err(|_| NoMemory)?;
        Ok(())
    }
}

// Adds a model to the sources of those that it places.
fn add_sources(
    library: &Places,
    place: usize,
    items: &[Item],
    sources: &mut [Sources],
) -> Result<(), NoMemory>
    requires { AreWithin (length sources.old) library.now }
    ensures is { IfOk result
        (λ _. sources.new ≡ sources_with (place_in library.now) sources.old place items.now) }
    ensures length { length sources.new ≡ length sources.old }
{
    for item in items {
        if let Some(target) = target_of(library, item) {
            sources[target].add(place)?;
        }
    }
    Ok(())
}

fn no_sources(alloc: Global, count: usize) -> Result<Vec<Sources>, NoMemory>
    ensures { IfOk result (λ sources. sources.items ≡ replicate count []) }
{
    let mut sources = Vec::new(alloc);
    for _place in 0..count {
        sources.push(Sources::none(alloc)).map_err(|_| NoMemory)?;
    }
    Ok(sources)
}

fn add_all(
    models: &[Model],
    library: &Places,
    done: &[usize],
    sources: &mut [Sources],
) -> Result<(), NoMemory>
    requires library { AreWithin (length sources.old) library.now }
    requires done { All (λ k. k < length models.now) done.now }
    ensures { IfOk result
        (λ _. sources.new ≡ all_sources (place_in library.now) models.now sources.old done.now) }
{
    for place in done {
        add_sources(library, *place, models[*place].items(), sources)?;
    }
    Ok(())
}

// Beside each model those of the given ones that place it.
fn sources_of(
    alloc: Global,
    models: &[Model],
    library: &Places,
    done: &[usize],
) -> Result<Vec<Sources>, NoMemory>
    requires library { Finds models.now library.now }
    requires done { All (λ k. k < length models.now) done.now }
    ensures sources { IfOk result (λ sources. AreSourcesOf models.now done.now sources.items) }
    ensures range { IfOk result
        (λ sources. All (All (λ k. k < length models.now)) sources.items) }
    ensures length { IfOk result (λ sources. length sources.items ≡ length models.now) }
{
    let mut sources = no_sources(alloc, models.len())?;
    add_all(models, library, done, &mut sources)?;
    Ok(sources)
}

// Puts up the flags of these models, and adds each whose flag was down to the list.
fn gather(places: &[usize], flags: &mut [bool], list: &mut Vec<usize>) -> Result<(), NoMemory>
    requires { All (λ k. k < length flags.old) places.now }
    ensures flags { IfOk result (λ _. flags.new ≡ marked flags.old places.now) }
    ensures list { IfOk result
        (λ _. list.new.items ≡ list.old.items ++ fresh flags.old places.now) }
    ensures length { length flags.new ≡ length flags.old }
{
    for place in places {
        if !flags[*place] {
            flags[*place] = true;
            list.push(*place).map_err(|_| NoMemory)?;
        }
    }
    Ok(())
}

// The models from which lines lead to this one, by way of models whose flags are down. Their flags
// go up.
fn found_back(
    alloc: Global,
    sources: &[Sources],
    root: usize,
    taken: &mut [bool],
) -> Result<Vec<usize>, NoMemory>
    requires same { length sources.now ≡ length taken.old }
    requires range { All (All (λ k. k < length taken.old)) sources.now }
    requires root { root < length taken.old }
    requires free { slice_index_or taken.old root false ≡ false }
    ensures found { IfOk result (λ found. (assigned : List ℕ) → Marks taken.old assigned →
        IsFoundBack sources.now root assigned found.items taken.new) }
    ensures length { length taken.new ≡ length taken.old }
{
    taken[root] = true;
    let mut found = vec![in alloc; root].map_err(|_| NoMemory)?;
    let mut next = 0;
    while next < found.len() {
        gather(sources[found[next]].places(), taken, &mut found)?;
        next += 1;
    }
    Ok(found)
}

// Gives these models a number.
fn number_all(places: &[usize], number: usize, numbers: &mut [usize])
    requires { All (λ k. k < length numbers.old) places.now }
    ensures is { numbers.new ≡ numbered numbers.old number places.now }
    ensures length { length numbers.new ≡ length numbers.old }
{
    for place in places {
        numbers[*place] = number;
    }
}

// A number beside each model that a search from main has left, the same for two that reach each
// other, and 0 beside each other model.
pub(crate) fn groups_of(
    alloc: Global,
    models: &[Model],
    library: &Places,
    done: &[usize],
) -> Result<Vec<usize>, NoMemory>
    requires library { Finds models.now library.now }
    requires done { HasLeft models.now done.now }
    requires range { All (λ k. k < length models.now) done.now }
    ensures groups { IfOk result (λ groups. HasGroups models.now groups.items) }
    ensures length { IfOk result (λ groups. length groups.items ≡ length models.now) }
{
    let sources = sources_of(alloc, models, library, done)?;
    let mut taken = vec![in alloc; false; models.len()].map_err(|_| NoMemory)?;
    let mut groups = vec![in alloc; 0; models.len()].map_err(|_| NoMemory)?;
    let mut count = 0;
    for root in done {
        if taken[*root] {
            continue;
        }
        count += 1;
        let found = found_back(alloc, &sources, *root, &mut taken)?;
        number_all(&found, count, &mut groups);
    }
    Ok(groups)
}
