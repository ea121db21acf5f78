// The faults of lines that place models, each by itself.
ghost use Rattle.std.specs.Prelude.{◌≡◌, [], None, IfOk, MatchResult, length, map};
ghost use Rattle.std.specs.Str.{bytes_eq};
ghost use Rattle.std.specs.Option.{option_map};
ghost use Rattle.surf_logic.specs.Order.{first_missing};
ghost use Rattle.surf_flatten.specs.Checks.{Refuses, bind_fault, formal_by, is_free, item_fault, lines_fault, placings_fault, port_of, ports_by};
ghost use Rattle.surf_flatten.specs.Faults.{BadFormal, Unconnected};
ghost use Rattle.surf_flatten.specs.Tables.{AreWithin, place_in, with_texts};

use crate::error::{FlattenError, Kind, refusal};
use crate::models::{Bind, Item, Model, Placing};
use crate::places::Places;
use crate::texts::{add_text, add_texts, holds};
use std::alloc::Global;
use surf_base::NoMemory;
use surf_rules::Names;

// The signals of a model that a line which places it may bind, and those that it has to.
#[derive(Drop)]
pub(crate) struct Ports {
    all: Names,
    inputs: Names,
}

fn ports_of(alloc: Global, model: &Model) -> Result<Ports, NoMemory>
    ensures { IfOk result (λ ports. ports ≡ port_of model.now) }
{
    let mut all = Names::new(alloc);
    add_texts(&mut all, model.inputs())?;
    add_texts(&mut all, model.outputs())?;
    let mut inputs = Names::new(alloc);
    add_texts(&mut inputs, model.inputs())?;
    Ok(Ports { all, inputs })
}

// The same of each model.
pub(crate) fn all_ports(alloc: Global, models: &[Model]) -> Result<Vec<Ports>, NoMemory>
    ensures { IfOk result (λ ports. ports.items ≡ ports_by models.now) }
{
    let mut ports = Vec::new(alloc);
    for model in models {
        ports.push(ports_of(alloc, model)?).map_err(|_| NoMemory)?;
    }
    Ok(ports)
}

// The formal is one of the signals, and isn't bound.
fn can_bind(known: &Names, bound: &Names, formal: &[u8]) -> bool
    ensures { result ≡ is_free known.now bound.now formal.now }
{
    holds(known, formal) && !holds(bound, formal)
}

// Binds the formals of a line.
fn check_formals(
    alloc: Global,
    line: u64,
    known: &Names,
    bound: &mut Names,
    binds: &[Bind],
) -> Result<(), FlattenError>
    ensures fault { MatchResult result
        (λ _. formal_by known.now bound.old binds.now ≡ None)
        (Refuses (option_map (BadFormal line) (formal_by known.now bound.old binds.now))) }
    ensures bound { IfOk result
        (λ _. bound.new ≡ with_texts bound.old (map (λ b. b.formal) binds.now)) }
{
    for bind in binds {
        let formal = bind.formal.bytes();
        if !can_bind(known, bound, formal) {
            return Err(refusal(alloc, Kind::BadFormal, line, formal));
        }
        add_text(bound, formal).map_err(|_| FlattenError::NoMemory)?;
    }
    Ok(())
}

// All inputs are bound.
fn check_inputs(alloc: Global, line: u64, inputs: &Names, bound: &Names) -> Result<(), FlattenError>
    ensures { MatchResult result
        (λ _. first_missing bytes_eq bound.now inputs.now ≡ None)
        (Refuses (option_map (Unconnected line) (first_missing bytes_eq bound.now inputs.now))) }
{
    for number in 0..inputs.len() {
        let input = inputs.text(number);
        if !holds(bound, input) {
            return Err(refusal(alloc, Kind::Unconnected, line, input));
        }
    }
    Ok(())
}

fn check_binds(alloc: Global, ports: &Ports, placing: &Placing) -> Result<(), FlattenError>
    ensures { MatchResult result
        (λ _. bind_fault ports.now placing.now ≡ None)
        (Refuses (bind_fault ports.now placing.now)) }
{
    let mut bound = Names::new(alloc);
    check_formals(alloc, placing.line, &ports.all, &mut bound, placing.binds())?;
    check_inputs(alloc, placing.line, &ports.inputs, &bound)
}

fn check_item(
    alloc: Global,
    library: &Places,
    ports: &[Ports],
    item: &Item,
) -> Result<(), FlattenError>
    requires { AreWithin (length ports.now) library.now }
    ensures { MatchResult result
        (λ _. item_fault (place_in library.now) ports.now item.now ≡ None)
        (Refuses (item_fault (place_in library.now) ports.now item.now)) }
{
    match item {
        Item::Cover(_) => Ok(()),
        Item::Place(placing) => match library.place(placing.model()) {
            Some(place) => check_binds(alloc, &ports[place], placing),
            None => Err(refusal(alloc, Kind::UnknownModel, placing.line, placing.model())),
        },
    }
}

fn check_items(
    alloc: Global,
    library: &Places,
    ports: &[Ports],
    items: &[Item],
) -> Result<(), FlattenError>
    requires { AreWithin (length ports.now) library.now }
    ensures { MatchResult result
        (λ _. lines_fault (item_fault (place_in library.now) ports.now) items.now ≡ None)
        (Refuses (lines_fault (item_fault (place_in library.now) ports.now) items.now)) }
{
    for item in items {
        check_item(alloc, library, ports, item)?;
    }
    Ok(())
}

// The first fault of the models whose part is not 0.
pub(crate) fn check_placings(
    alloc: Global,
    models: &[Model],
    library: &Places,
    ports: &[Ports],
    parts: &[usize],
) -> Result<(), FlattenError>
    requires ports { AreWithin (length ports.now) library.now }
    requires parts { length parts.now ≡ length models.now }
    ensures { MatchResult result
        (λ _. placings_fault (place_in library.now) ports.now parts.now models.now ≡ None)
        (Refuses (placings_fault (place_in library.now) ports.now parts.now models.now)) }
{
    for (place, model) in models.iter().enumerate() {
        if parts[place] > 0 {
            check_items(alloc, library, ports, model.items())?;
        }
    }
    Ok(())
}
