//! Spans packed one after another.
ghost use Rattle.std.specs.Prelude.{◌≡◌, ℕ, ◌<◌, ◌≤◌, ◌^◌, [], length, IfOk, OnOk};
ghost use Rattle.surf_lanes.specs.Lanes.{AreApart, AreBelow, IsFirstFree, IsInOrder, IsPacked, IsPlaced, packing_of};

use crate::lanes::{Lanes, Span};
use std::alloc::Global;
use surf_base::NoMemory;

// The lanes of the spans so far, the last row in each lane, and the row in which the last of them
// was first needed.
#[derive(Drop)]
struct Packing {
    lane: Vec<u32>,
    last: Vec<u32>,
    row: u32,
}

// The first lane that is free from a row on, or their number.
fn first_free(last: &[u32], row: u32) -> usize
    ensures { IsFirstFree last.now row result }
{
    for (lane, end) in last.iter().enumerate() {
        if *end < row {
            return lane;
        }
    }
    last.len()
}

impl Packing {
    // Packs one span more.
    fn add(&mut self, span: Span) -> Result<(), NoMemory>
        requires { length self.old.last.items < 2 ^ 32 }
        ensures { OnOk result (IsPlaced (packing_of self.old) (packing_of self.new) span) }
    {
        let lane = first_free(&self.last, span.from);
        self.lane.push(lane as u32).map_err(|_| NoMemory)?;
        if lane < self.last.len() {
            self.last[lane] = span.to;
            return Ok(());
        }
        self.last.push(span.to).map_err(|_| NoMemory)?;
        self.row = span.from;
        Ok(())
    }
}

/// The lanes of spans, each the least that no earlier span sharing a row with it has. In time of
/// the number of spans by that of the lanes.
pub fn pack(alloc: Global, spans: &[Span]) -> Result<Lanes, NoMemory>
    requires few { length spans.now < 2 ^ 32 }
    requires order { IsInOrder spans.now }
    ensures packed { IfOk result (IsPacked spans.now) }
    ensures apart { IfOk result (AreApart spans.now) }
    ensures below { IfOk result (AreBelow spans.now) }
{
    let mut packing = Packing {
        lane: Vec::with_capacity(alloc, spans.len()).map_err(|_| NoMemory)?,
        last: Vec::new(alloc),
        row: 0,
    };
    for span in spans {
        packing.add(*span)?;
    }
    let Packing { lane, last, row } = packing;
    Ok(Lanes {
        lane,
        count: last.len() as u32,
        row,
    })
}
