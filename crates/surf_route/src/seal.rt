//! Drawings that become layouts.
ghost use Rattle.std.specs.Prelude.{◌≡◌, IfErr, IfOk, OnOk};
ghost use Rattle.surf_place.specs.Placed.{IsPlaced, placement_of};
ghost use Rattle.surf_route.specs.Sealed.{sealed_of};

use crate::ends::{input_sites, output_sites};
use crate::kinds::all_kinds;
use std::alloc::Global;
use surf_base::NoMemory;
use surf_lattice::Site;
use surf_place::{Drawing, Routed};
use surf_settle::{KindByte, Layout};

/// A drawing that has its tiles, and that can be given its sites.
pub trait Seal: Sized {
    /// The layout of the drawing's netlist, with the sites of its tiles. On `NoMemory` the drawing
    /// comes back as it was.
    fn seal(self, alloc: Global) -> Result<Layout, (Self, NoMemory)>;
}

#[derive(Drop)]
struct SitesOf {
    kinds: Vec<KindByte>,
    inputs: Vec<Site>,
    outputs: Vec<Site>,
}

fn all_sites(alloc: Global, drawing: &Drawing<Routed>) -> Result<SitesOf, NoMemory>
    ensures placed { OnOk result (IsPlaced drawing.now) }
    ensures kinds { IfOk result (λ p. p.kinds.items ≡ (sealed_of drawing.now).kinds) }
    ensures inputs { IfOk result (λ p. p.inputs.items ≡ (sealed_of drawing.now).inputs) }
    ensures outputs { IfOk result (λ p. p.outputs.items ≡ (sealed_of drawing.now).outputs) }
{
    let netlist = drawing.netlist();
    let kinds = all_kinds(alloc, drawing)?;
    let inputs = input_sites(alloc, netlist.inputs())?;
    let outputs = output_sites(alloc, drawing, netlist.outputs())?;
    Ok(SitesOf {
        kinds,
        inputs,
        outputs,
    })
}

impl Seal for Drawing<Routed> {
    fn seal(self, alloc: Global) -> Result<Layout, (Self, NoMemory)>
        ensures sealed { IfOk result (λ l. l ≡ sealed_of self) }
        ensures back { IfErr result (λ e. e.0 ≡ self) }
    {
        match all_sites(alloc, &self) {
            Ok(sites) => {
                let width = 3 * self.columns();
                let height = 3 * self.rows();
                let netlist = self.into_netlist();
                let SitesOf {
                    kinds,
                    inputs,
                    outputs,
                } = sites;
                Ok(Layout::assemble(netlist, width, height, kinds, inputs, outputs))
            }
            Err(refused) => Err((self, refused)),
        }
    }
}
