// Models by name.
ghost use Rattle.std.specs.Prelude.{◌≡◌, ◌++◌, ◌∷◌, ℕ, List, [], None, Some, false, true, IfOk, IfErr, IfSome};
ghost use Rattle.std.specs.Str.{bytes_eq};
ghost use Rattle.surf_logic.specs.Order.{has};
ghost use Rattle.surf_flatten.specs.Faults.{ModelTwice, model_twice, twice_at};
ghost use Rattle.surf_flatten.specs.Refusals.{told};
ghost use Rattle.surf_flatten.specs.Tables.{Finds, names_after, places_after};

use crate::error::{FlattenError, Kind, refusal};
use crate::models::Model;
use crate::places::Places;
use std::alloc::Global;

// Adds a name that no earlier model has.
fn add_name(
    alloc: Global,
    library: &mut Places,
    place: usize,
    line: u64,
    name: &[u8],
) -> Result<(), FlattenError>
    ensures names { IfOk result (λ _. library.new.names ≡ library.old.names ++ name.now ∷ []) }
    ensures places { IfOk result
        (λ _. library.new.places.items ≡ library.old.places.items ++ place ∷ []) }
    ensures once { IfOk result (λ _. has bytes_eq library.old.names name.now ≡ false) }
    ensures refused { IfErr result (λ e. IfSome (told e)
        (λ f. (has bytes_eq library.old.names name.now ≡ true) × (f ≡ ModelTwice line name.now))) }
{
    if library.has(name) {
        return Err(refusal(alloc, Kind::ModelTwice, line, name));
    }
    library
        .add(name, place)
        .map_err(|_| FlattenError::NoMemory)?;
    Ok(())
}

// Adds the name of a model, if it has one.
fn add_model(
    alloc: Global,
    library: &mut Places,
    place: usize,
    model: &Model,
) -> Result<(), FlattenError>
    ensures names { IfOk result
        (λ _. library.new.names ≡ names_after library.old.names model.now.name) }
    ensures places { IfOk result
        (λ _. library.new.places.items
        ≡ places_after library.old.places.items place model.now.name) }
    ensures once { IfOk result
        (λ _. twice_at model.now.line library.old.names model.now.name ≡ None) }
    ensures refused { IfErr result (λ e. IfSome (told e)
        (λ f. twice_at model.now.line library.old.names model.now.name ≡ Some f)) }
{
    match &model.name {
        None => Ok(()),
        Some(name) => add_name(alloc, library, place, model.line, name.bytes()),
    }
}

// The places of the models. No two have one name.
pub(crate) fn library_of(alloc: Global, models: &[Model]) -> Result<Places, FlattenError>
    ensures found { IfOk result (Finds models.now) }
    ensures once { IfOk result (λ _. model_twice [] models.now ≡ None) }
    ensures refused { IfErr result (λ e. IfSome (told e)
        (λ f. model_twice [] models.now ≡ Some f)) }
{
    let mut library = Places::new(alloc);
    for (place, model) in models.iter().enumerate() {
        add_model(alloc, &mut library, place, model)?;
    }
    Ok(library)
}
