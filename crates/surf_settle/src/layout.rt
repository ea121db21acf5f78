//! Layouts, whose type keeps the local law.
ghost use Rattle.std.specs.Prelude.{◌≡◌, ◌*◌, ◌^◌, ◌<◌, ◌≤◌, Some, length, slice_get};
ghost use Rattle.surf_lattice.specs.Grids.{IsInside};
ghost use Rattle.surf_settle.specs.Law.{IsLawful, grid_of, kind_of};
ghost use Rattle.surf_settle.specs.Plans.{IsLayout, plan};
ghost use Rattle.surf_settle.specs.Settling.{SettlesAlways, events_of};

use crate::kind_byte::KindByte;
use std::marker::Model;
use surf_lattice::Site;
use surf_tiles::{Kind, Netlist, changes};

/// A netlist on a surface: at most 27,027,000 sites by their kinds, and the sites of the inputs and
/// the outputs. Every run of its surface settles to what the netlist computes.
#[derive(Drop)]
pub struct Layout {
    netlist: Netlist,
    width: u32,
    height: u32,
    kinds: Vec<KindByte>,
    inputs: Vec<Site>,
    outputs: Vec<Site>,
}

impl Model for Layout {
    ghost use Rattle.surf_settle.specs.Law.{Plan};
    ghost use Rattle.surf_settle.specs.Plans.{IsLayout, plan};

    ghost Value = { Plan };

    ghost view = { λ l.
        plan l.netlist l.width l.height l.kinds.items l.inputs.items l.outputs.items };

    ghost invariant = { λ l.
        IsLayout (plan l.netlist l.width l.height l.kinds.items l.inputs.items l.outputs.items) };
}

impl Layout {
    /// A layout of these kinds of sites, in row-major order, which keep the local law of this
    /// netlist. Takes no memory.
    pub fn assemble(
        netlist: Netlist,
        width: u32,
        height: u32,
        kinds: Vec<KindByte>,
        inputs: Vec<Site>,
        outputs: Vec<Site>,
    ) -> Layout
        requires { IsLayout (plan netlist width height kinds.items inputs.items outputs.items) }
        ensures { result ≡ plan netlist width height kinds.items inputs.items outputs.items }
    {
        Layout {
            netlist,
            width,
            height,
            kinds,
            inputs,
            outputs,
        }
    }

    /// The netlist. Takes no memory, as all that follows.
    pub fn netlist(&self) -> &Netlist
        ensures { result.now ≡ self.now.netlist }
    {
        &self.netlist
    }

    /// How many sites a row has.
    pub fn width(&self) -> u32
        ensures is { result ≡ self.now.width }
        ensures layout { IsLayout self.now }
    {
        self.width
    }

    /// How many rows there are.
    pub fn height(&self) -> u32
        ensures is { result ≡ self.now.height }
        ensures layout { IsLayout self.now }
    {
        self.height
    }

    /// The kinds of the sites, in row-major order.
    pub fn kinds(&self) -> &[KindByte]
        ensures is { result.now ≡ self.now.kinds }
        ensures layout { IsLayout self.now }
    {
        &self.kinds
    }

    /// The kind of a site.
    pub fn kind(&self, site: Site) -> Kind
        requires { IsInside (grid_of self.now) site }
        ensures { result ≡ kind_of self.now site }
    {
        let place = site.y as usize * self.width as usize + site.x as usize;
        self.kinds[place].kind()
    }

    /// How many inputs there are.
    pub fn inputs(&self) -> u32
        ensures is { result ≡ length self.now.inputs }
        ensures all { result ≡ self.now.netlist.inputs }
    {
        self.netlist.inputs
    }

    /// The site of an input.
    pub fn input(&self, i: u32) -> Site
        requires { i < length self.now.inputs }
        ensures { slice_get self.now.inputs i ≡ Some result }
    {
        self.inputs[i as usize]
    }

    /// How many outputs there are.
    pub fn outputs(&self) -> u32
        ensures is { result ≡ length self.now.outputs }
        ensures all { result ≡ length self.now.netlist.outputs }
    {
        self.outputs.len() as u32
    }

    /// The site of an output.
    pub fn output(&self, i: u32) -> Site
        requires { i < length self.now.outputs }
        ensures { slice_get self.now.outputs i ≡ Some result }
    {
        self.outputs[i as usize]
    }

    /// The number of events of every run that can't go on, whichever bits the inputs are set to. No
    /// run has more. In each the filled slots hold the values of their nets, and at its end so do
    /// the outputs, and all runs of one list of bits leave one configuration.
    pub fn events(&self) -> u64
        ensures number { result ≡ events_of self.now }
        ensures settles { SettlesAlways self.now }
    {
        let mut total: u64 = 0;
        for kind in &self.kinds {
            total += u64::from(changes(kind.kind()));
        }
        total
    }
}
