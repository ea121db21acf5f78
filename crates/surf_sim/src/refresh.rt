// The weights around an event, set anew.
ghost use Rattle.std.specs.Prelude.{◌≡◌, ◌≤◌, ◌<◌, ◌+◌, ◌∷◌, IsTrue, IfSome, length, slice_set, sum, IfOk};
ghost use Rattle.std.specs.Option.{option_to_list};
ghost use Rattle.surf_lattice.specs.Grids.{IsInside, place};
ghost use Rattle.surf_world.specs.Picks.{weight_of, weights_of, around, around_event, refreshed};
ghost use Rattle.surf_sim.specs.Simulations.{AreWeights};
ghost use Rattle.surf_sim.specs.Totals.{most_total};
ghost use Rattle.surf_sim.specs.Touched.{touched, AreRight, AreSettled, IsSettled};

use crate::second::refresh_second;
use std::alloc::Global;
use surf_base::NoMemory;
use surf_lattice::{Lattice, Site};
use surf_pick::Picker;
use surf_world::{Event, World};

/// The weights of the sites in row-major order.
pub(crate) fn weights<L: Lattice>(alloc: Global, world: &World<L>) -> Result<Vec<u128>, NoMemory>
    ensures all { IfOk result (λ v. v.items ≡ weights_of world.now) }
    ensures right { IfOk result (λ v. AreWeights world.now.surface v.items) }
    ensures fits { IfOk result (λ v. sum v.items ≤ most_total world.now.surface) }
{
    let count = world.site_count();
    let mut weights = Vec::with_capacity(alloc, count).map_err(|_| NoMemory)?;
    for place in 0..count {
        let weight = world.weight_at(world.site_at(place));
        weights.push(weight).map_err(|_| NoMemory)?;
    }
    Ok(weights)
}

/// Sets the weights of the sites of an event and of their neighbours anew, each once. A neighbour
/// whose name begins no pair keeps its weight, and is passed over.
pub(crate) fn refresh_event<L: Lattice, P: Picker>(world: &World<L>, picker: &mut P, event: &Event)
    requires first { IsInside world.now.surface.grid event.now.first }
    requires second { IfSome event.now.second (IsInside world.now.surface.grid) }
    requires weights { AreWeights world.now.surface (P.weights picker.old) }
    requires fits { most_total world.now.surface < P.bound }
    requires settled { AreSettled world.now.surface world.now.names
        (event.now.first ∷ option_to_list event.now.second) (P.weights picker.old) }
    ensures set { P.weights picker.new
        ≡ refreshed world.now.surface world.now.names
        (around_event world.now.surface.grid event.now) (P.weights picker.old) }
    ensures weights { AreWeights world.now.surface (P.weights picker.new) }
    ensures once { P.sets picker.new ≤ P.sets picker.old + length
        (touched world.now.surface.grid event.now) }
    ensures sets { P.sets picker.new ≤ P.sets picker.old + 14 }
    ensures counted { P.sets picker.old ≤ P.sets picker.new }
{
    refresh_around(world, picker, event.first, event.second);
    refresh_second(world, picker, event.first, event.second);
}

fn refresh_around<L: Lattice, P: Picker>(
    world: &World<L>,
    picker: &mut P,
    site: Site,
    changed: Option<Site>,
)
    requires site { IsInside world.now.surface.grid site }
    requires weights { AreWeights world.now.surface (P.weights picker.old) }
    requires fits { most_total world.now.surface < P.bound }
    requires settled { AreSettled world.now.surface world.now.names
        (site ∷ option_to_list changed) (P.weights picker.old) }
    ensures set { P.weights picker.new
        ≡ refreshed world.now.surface world.now.names (around world.now.surface.grid site)
        (P.weights picker.old) }
    ensures weights { AreWeights world.now.surface (P.weights picker.new) }
    ensures right { AreRight world.now.surface world.now.names (around world.now.surface.grid site)
        (P.weights picker.new) }
    ensures settled { AreSettled world.now.surface world.now.names (option_to_list changed)
        (P.weights picker.new) }
    ensures sets { P.sets picker.new ≤ P.sets picker.old + length
        (around world.now.surface.grid site) }
    ensures counted { P.sets picker.old ≤ P.sets picker.new }
{
    refresh(world, picker, site);
    for direction in 0..world.grid().degree() {
        refresh_some(
            world,
            picker,
            changed,
            world.grid().neighbour(site, direction),
        );
    }
}

fn refresh_some<L: Lattice, P: Picker>(
    world: &World<L>,
    picker: &mut P,
    changed: Option<Site>,
    site: Option<Site>,
)
    requires site { IfSome site (IsInside world.now.surface.grid) }
    requires weights { AreWeights world.now.surface (P.weights picker.old) }
    requires fits { most_total world.now.surface < P.bound }
    requires settled { AreSettled world.now.surface world.now.names (option_to_list changed)
        (P.weights picker.old) }
    ensures set { P.weights picker.new
        ≡ refreshed world.now.surface world.now.names (option_to_list site) (P.weights picker.old) }
    ensures weights { AreWeights world.now.surface (P.weights picker.new) }
    ensures settled { AreSettled world.now.surface world.now.names (option_to_list changed)
        (P.weights picker.new) }
    ensures sets { P.sets picker.new ≤ P.sets picker.old + length (option_to_list site) }
    ensures counted { P.sets picker.old ≤ P.sets picker.new }
{
    if let Some(site) = site {
        refresh_unsettled(world, picker, changed, site);
    }
}

/// Sets the weight of a site anew, unless it is not the changed one and begins no pair.
pub(crate) fn refresh_unsettled<L: Lattice, P: Picker>(
    world: &World<L>,
    picker: &mut P,
    changed: Option<Site>,
    site: Site,
)
    requires site { IsInside world.now.surface.grid site }
    requires weights { AreWeights world.now.surface (P.weights picker.old) }
    requires fits { most_total world.now.surface < P.bound }
    requires settled { AreSettled world.now.surface world.now.names (option_to_list changed)
        (P.weights picker.old) }
    ensures set { P.weights picker.new
        ≡ slice_set (P.weights picker.old) (place world.now.surface.grid site)
        (weight_of world.now.surface world.now.names site) }
    ensures weights { AreWeights world.now.surface (P.weights picker.new) }
    ensures settled { AreSettled world.now.surface world.now.names (option_to_list changed)
        (P.weights picker.new) }
    ensures sets { P.sets picker.new ≤ P.sets picker.old + 1 }
    ensures counted { P.sets picker.old ≤ P.sets picker.new }
{
    if !is_settled(world, changed, site) {
        refresh(world, picker, site);
    }
}

// Whether an event beside a site can't change its weight.
fn is_settled<L: Lattice>(world: &World<L>, changed: Option<Site>, site: Site) -> bool
    requires { IsInside world.now.surface.grid site }
    ensures { IsTrue result → IsSettled world.now.surface world.now.names changed site }
{
    if changed == Some(site) {
        return false;
    }
    !world.book().is_paired(world.at(site))
}

pub(crate) fn refresh<L: Lattice, P: Picker>(world: &World<L>, picker: &mut P, site: Site)
    requires site { IsInside world.now.surface.grid site }
    requires weights { AreWeights world.now.surface (P.weights picker.old) }
    requires fits { most_total world.now.surface < P.bound }
    ensures set { P.weights picker.new
        ≡ slice_set (P.weights picker.old) (place world.now.surface.grid site)
        (weight_of world.now.surface world.now.names site) }
    ensures weights { AreWeights world.now.surface (P.weights picker.new) }
    ensures sets { P.sets picker.new ≤ P.sets picker.old + 1 }
    ensures counted { P.sets picker.old ≤ P.sets picker.new }
{
    picker.set(world.place(site), world.weight_at(site));
}
