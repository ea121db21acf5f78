// The weights around an event's second site.
ghost use Rattle.std.specs.Prelude.{◌≡◌, ◌≤◌, ◌<◌, ◌+◌, ◌∷◌, [], IfSome, filter, flat_map, length, slice_set};
ghost use Rattle.std.specs.Option.{option_to_list};
ghost use Rattle.surf_lattice.specs.Grids.{IsInside, place};
ghost use Rattle.surf_world.specs.Picks.{weight_of, around, refreshed};
ghost use Rattle.surf_sim.specs.Simulations.{AreWeights};
ghost use Rattle.surf_sim.specs.Totals.{most_total};
ghost use Rattle.surf_sim.specs.Touched.{is_new, AreRight, AreSettled};

use crate::refresh::refresh_unsettled;
use surf_lattice::{Lattice, Site};
use surf_pick::Picker;
use surf_world::World;

/// Sets the weights around the second site anew, where there is one. The sites around the first
/// one have their weights already, and are passed over, as are neighbours that begin no pair.
pub(crate) fn refresh_second<L: Lattice, P: Picker>(
    world: &World<L>,
    picker: &mut P,
    first: Site,
    second: Option<Site>,
)
    requires first { IsInside world.now.surface.grid first }
    requires second { IfSome second (IsInside world.now.surface.grid) }
    requires weights { AreWeights world.now.surface (P.weights picker.old) }
    requires fits { most_total world.now.surface < P.bound }
    requires right { AreRight world.now.surface world.now.names
        (around world.now.surface.grid first) (P.weights picker.old) }
    requires settled { AreSettled world.now.surface world.now.names (option_to_list second)
        (P.weights picker.old) }
    ensures set { P.weights picker.new
        ≡ refreshed world.now.surface world.now.names
        (flat_map (around world.now.surface.grid) (option_to_list second)) (P.weights picker.old) }
    ensures weights { AreWeights world.now.surface (P.weights picker.new) }
    ensures sets { P.sets picker.new ≤ P.sets picker.old + length
        (filter (is_new world.now.surface.grid first)
        (flat_map (around world.now.surface.grid) (option_to_list second))) }
    ensures counted { P.sets picker.old ≤ P.sets picker.new }
{
    if let Some(second) = second {
        refresh_rest(world, picker, first, second);
    }
}

fn refresh_rest<L: Lattice, P: Picker>(world: &World<L>, picker: &mut P, first: Site, second: Site)
    requires first { IsInside world.now.surface.grid first }
    requires second { IsInside world.now.surface.grid second }
    requires weights { AreWeights world.now.surface (P.weights picker.old) }
    requires fits { most_total world.now.surface < P.bound }
    requires right { AreRight world.now.surface world.now.names
        (around world.now.surface.grid first) (P.weights picker.old) }
    requires settled { AreSettled world.now.surface world.now.names (second ∷ [])
        (P.weights picker.old) }
    ensures set { P.weights picker.new
        ≡ refreshed world.now.surface world.now.names (around world.now.surface.grid second)
        (P.weights picker.old) }
    ensures weights { AreWeights world.now.surface (P.weights picker.new) }
    ensures sets { P.sets picker.new ≤ P.sets picker.old + length
        (filter (is_new world.now.surface.grid first) (around world.now.surface.grid second)) }
    ensures counted { P.sets picker.old ≤ P.sets picker.new }
{
    refresh_new(world, picker, first, Some(second), second);
    for direction in 0..world.grid().degree() {
        refresh_new_some(
            world,
            picker,
            first,
            world.grid().neighbour(second, direction),
        );
    }
}

fn refresh_new_some<L: Lattice, P: Picker>(
    world: &World<L>,
    picker: &mut P,
    first: Site,
    site: Option<Site>,
)
    requires first { IsInside world.now.surface.grid first }
    requires site { IfSome site (IsInside world.now.surface.grid) }
    requires weights { AreWeights world.now.surface (P.weights picker.old) }
    requires fits { most_total world.now.surface < P.bound }
    requires right { AreRight world.now.surface world.now.names
        (around world.now.surface.grid first) (P.weights picker.old) }
    requires settled { AreSettled world.now.surface world.now.names [] (P.weights picker.old) }
    ensures set { P.weights picker.new
        ≡ refreshed world.now.surface world.now.names (option_to_list site) (P.weights picker.old) }
    ensures weights { AreWeights world.now.surface (P.weights picker.new) }
    ensures right { AreRight world.now.surface world.now.names (around world.now.surface.grid first)
        (P.weights picker.new) }
    ensures settled { AreSettled world.now.surface world.now.names [] (P.weights picker.new) }
    ensures sets { P.sets picker.new ≤ P.sets picker.old + length
        (filter (is_new world.now.surface.grid first) (option_to_list site)) }
    ensures counted { P.sets picker.old ≤ P.sets picker.new }
{
    if let Some(site) = site {
        refresh_new(world, picker, first, None, site);
    }
}

fn refresh_new<L: Lattice, P: Picker>(
    world: &World<L>,
    picker: &mut P,
    first: Site,
    changed: Option<Site>,
    site: Site,
)
    requires first { IsInside world.now.surface.grid first }
    requires site { IsInside world.now.surface.grid site }
    requires weights { AreWeights world.now.surface (P.weights picker.old) }
    requires fits { most_total world.now.surface < P.bound }
    requires right { AreRight world.now.surface world.now.names
        (around world.now.surface.grid first) (P.weights picker.old) }
    requires settled { AreSettled world.now.surface world.now.names (option_to_list changed)
        (P.weights picker.old) }
    ensures set { P.weights picker.new
        ≡ slice_set (P.weights picker.old) (place world.now.surface.grid site)
        (weight_of world.now.surface world.now.names site) }
    ensures weights { AreWeights world.now.surface (P.weights picker.new) }
    ensures right { AreRight world.now.surface world.now.names (around world.now.surface.grid first)
        (P.weights picker.new) }
    ensures settled { AreSettled world.now.surface world.now.names (option_to_list changed)
        (P.weights picker.new) }
    ensures sets { P.sets picker.new ≤ P.sets picker.old + length
        (filter (is_new world.now.surface.grid first) (site ∷ [])) }
    ensures counted { P.sets picker.old ≤ P.sets picker.new }
{
    if is_new(world.grid(), first, site) {
        refresh_unsettled(world, picker, changed, site);
    }
}

// Whether a site is neither the first one nor a neighbour of it.
fn is_new<L: Lattice>(grid: &L, first: Site, site: Site) -> bool
    requires first { IsInside (L.grid grid.now) first }
    requires site { IsInside (L.grid grid.now) site }
    ensures { result ≡ is_new (L.grid grid.now) first site }
{
    site != first && !grid.is_adjacent(first, site)
}
