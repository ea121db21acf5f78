//! Netlists that can be drawn.
ghost use Rattle.std.specs.Prelude.{◌≡◌, ◌≤◌, ◌<◌, length, IfOk, IfErr};
ghost use Rattle.surf_tiles.specs.Netlists.{nets_of};
ghost use Rattle.surf_place.specs.Drawing.{rows_of};
ghost use Rattle.surf_place.specs.Placed.{IsDrawable, IsPlaced};

use crate::drawing::Drawing;
use crate::placed::{Placed, place_nets};
use std::alloc::Global;
use std::marker::Model;
use surf_base::NoMemory;
use surf_tiles::Netlist;

/// The state of a drawing of which there is the netlist alone.
#[derive(Drop)]
pub struct Sketched {
    netlist: Netlist,
}

impl Model for Sketched {
    ghost use Rattle.surf_tiles.specs.Netlists.{NetlistOf};
    ghost use Rattle.surf_place.specs.Placed.{IsDrawable};

    ghost Value = { NetlistOf };

    ghost view = { λ s. s.netlist };

    ghost invariant = { λ s. IsDrawable s.netlist };
}

impl Drawing<Sketched> {
    /// A drawing of a netlist.
    pub fn new(netlist: Netlist) -> Drawing<Sketched>
        requires nets { nets_of netlist ≤ 1000 }
        requires outputs { 0 < length netlist.outputs }
        requires rows { length (rows_of netlist) ≤ 3000 }
        ensures { result ≡ netlist }
    {
        // the netlist tells that it is one
        let _inputs = netlist.inputs();
        Drawing {
            state: Sketched { netlist },
        }
    }

    /// Gives each net its rows and its column. On `NoMemory` the drawing comes back as it was.
    pub fn place(self, alloc: Global) -> Result<Drawing<Placed>, (Drawing<Sketched>, NoMemory)>
        ensures netlist { IfOk result (λ d. d.netlist ≡ self) }
        ensures placed { IfOk result IsPlaced }
        ensures back { IfErr result (λ e. e.0 ≡ self) }
    {
        let Drawing { state } = self;
        let Sketched { netlist } = state;
        match place_nets(alloc, netlist) {
            Ok(state) => Ok(Drawing { state }),
            Err((netlist, refused)) => Err((Drawing::new(netlist), refused)),
        }
    }
}
