//! Nets with their rows and columns.
ghost use Rattle.std.specs.Prelude.{◌≡◌, ◌<◌, length, map, IfOk, IfErr};
ghost use Rattle.std.specs.List.{range_with_len};
ghost use Rattle.surf_tiles.specs.Netlists.{nets_of, IsNetlist};
ghost use Rattle.surf_lanes.specs.Lanes.{IsPacked};
ghost use Rattle.surf_place.specs.Drawing.{rows_of, source_row, last_row};
ghost use Rattle.surf_place.specs.Placed.{IsDrawable, IsPlaced, placement_of, net_spans, spans_of, tiles_of};

use crate::drawing::Drawing;
use crate::filling::{Filling, fill};
use crate::routed::Routed;
use std::alloc::Global;
use std::marker::Model;
use surf_base::NoMemory;
use surf_lanes::{Lanes, Span, pack};
use surf_tiles::{Netlist, Tile};

/// The state of a drawing whose nets have rows and columns.
#[derive(Drop)]
pub struct Placed {
    netlist: Netlist,
    rows: u32,
    source: Vec<u32>,
    last: Vec<u32>,
    lanes: Lanes,
}

impl Model for Placed {
    ghost use Rattle.surf_place.specs.Placed.{PlacedOf, IsLaid};

    ghost Value = { PlacedOf };

    ghost view = { λ p. record { netlist = p.netlist; lanes = p.lanes } };

    ghost invariant = { λ p. IsLaid p.netlist p.rows p.source.items p.last.items p.lanes };
}

// The spans from the source rows to the last rows.
fn spans(alloc: Global, source: &[u32], last: &[u32]) -> Result<Vec<Span>, NoMemory>
    requires { length source.now ≡ length last.now }
    ensures { IfOk result (λ v. v.items ≡ spans_of source.now last.now) }
{
    let mut spans = Vec::with_capacity(alloc, source.len()).map_err(|_| NoMemory)?;
    let mut i = 0;
    while i < source.len() {
        let span = Span {
            from: source[i],
            to: last[i],
        };
        spans.push(span).map_err(|_| NoMemory)?;
        i += 1;
    }
    Ok(spans)
}

// The lanes of the nets of a netlist whose rows are known.
fn lanes_of(alloc: Global, netlist: &Netlist, rows: &Filling) -> Result<Lanes, NoMemory>
    requires drawable { IsDrawable netlist.now }
    requires sources { rows.now.source.items
        ≡ map (source_row netlist.now) (range_with_len 0 (nets_of netlist.now)) }
    requires lasts { rows.now.last.items
        ≡ map (last_row netlist.now) (range_with_len 0 (nets_of netlist.now)) }
    ensures { IfOk result (IsPacked (net_spans netlist.now)) }
{
    let spans = spans(alloc, &rows.source, &rows.last)?;
    pack(alloc, &spans)
}

// A netlist with the rows and the lanes of its nets. On `NoMemory` the netlist comes back.
pub(crate) fn place_nets(alloc: Global, netlist: Netlist) -> Result<Placed, (Netlist, NoMemory)>
    requires { IsDrawable netlist }
    ensures netlist { IfOk result (λ p. p.netlist ≡ netlist) }
    ensures placed { IfOk result IsPlaced }
    ensures back { IfErr result (λ e. e.0 ≡ netlist) }
{
    let Ok(rows) = fill(alloc, &netlist) else {
        return Err((netlist, NoMemory));
    };
    let Ok(lanes) = lanes_of(alloc, &netlist, &rows) else {
        return Err((netlist, NoMemory));
    };
    let Filling { source, last, row } = rows;
    Ok(Placed {
        netlist,
        rows: row,
        source,
        last,
        lanes,
    })
}

impl Placed {
    pub(crate) fn columns(&self) -> u32
        ensures { result ≡ (placement_of self.now).columns }
    {
        1 + self.lanes.count()
    }

    pub(crate) fn rows(&self) -> u32
        ensures { result ≡ length (rows_of self.now.netlist) }
    {
        self.rows
    }

    pub(crate) fn netlist(&self) -> &Netlist
        ensures is { result.now ≡ self.now.netlist }
        ensures placed { IsPlaced self.now }
    {
        &self.netlist
    }

    pub(crate) fn source_row(&self, net: u32) -> u32
        requires { net < nets_of self.now.netlist }
        ensures { result ≡ source_row self.now.netlist net }
    {
        self.source[net as usize]
    }

    pub(crate) fn last_row(&self, net: u32) -> u32
        requires { net < nets_of self.now.netlist }
        ensures { result ≡ last_row self.now.netlist net }
    {
        self.last[net as usize]
    }

    pub(crate) fn column(&self, net: u32) -> u32
        requires { net < nets_of self.now.netlist }
        ensures { result ≡ (placement_of self.now).column net }
    {
        self.lanes.lane(net as usize) + 1
    }

    pub(crate) fn into_netlist(self) -> Netlist
        ensures { result ≡ self.netlist }
    {
        let Placed {
            netlist,
            rows: _,
            source: _,
            last: _,
            lanes: _,
        } = self;
        netlist
    }
}

impl Drawing<Placed> {
    /// How many columns of tiles there are: one for the devices and one for each lane.
    pub fn columns(&self) -> u32
        ensures { result ≡ (placement_of self.now).columns }
    {
        self.state.columns()
    }

    /// How many rows of tiles there are.
    pub fn rows(&self) -> u32
        ensures { result ≡ length (rows_of self.now.netlist) }
    {
        self.state.rows()
    }

    /// The netlist.
    pub fn netlist(&self) -> &Netlist
        ensures is { result.now ≡ self.now.netlist }
        ensures placed { IsPlaced self.now }
    {
        self.state.netlist()
    }

    /// The row in which a net begins.
    pub fn source_row(&self, net: u32) -> u32
        requires { net < nets_of self.now.netlist }
        ensures { result ≡ source_row self.now.netlist net }
    {
        self.state.source_row(net)
    }

    /// The last row that a net has.
    pub fn last_row(&self, net: u32) -> u32
        requires { net < nets_of self.now.netlist }
        ensures { result ≡ last_row self.now.netlist net }
    {
        self.state.last_row(net)
    }

    /// The column of a net.
    pub fn column(&self, net: u32) -> u32
        requires { net < nets_of self.now.netlist }
        ensures { result ≡ (placement_of self.now).column net }
    {
        self.state.column(net)
    }

    /// The drawing with its tiles, row by row.
    pub fn with_tiles(self, tiles: Vec<Tile>) -> Drawing<Routed>
        requires { tiles.items ≡ tiles_of self.netlist (placement_of self) }
        ensures { result ≡ self }
    {
        let Drawing { state } = self;
        Drawing {
            state: Routed::of(state, tiles),
        }
    }
}
