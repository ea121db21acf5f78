//! Spans and lanes.
ghost use Rattle.std.specs.Prelude.{◌≡◌, ◌<◌, length};

use std::marker::Model;

/// Rows from the first to the last, both of which it has.
#[derive(Clone, Copy, Debug, PartialEq, Eq)]
pub struct Span {
    pub from: u32,
    pub to: u32,
}

/// The lane of each span, how many lanes there are, and the first row in which so many spans meet.
#[derive(Debug, Drop)]
pub struct Lanes {
    pub lane: Vec<u32>,
    pub count: u32,
    pub row: u32,
}

impl Model for Lanes {
    ghost use Rattle.surf_lanes.specs.Lanes.{LanesOf};

    ghost Value = { LanesOf };

    ghost view = { λ l. record { lane = l.lane.items; count = l.count; row = l.row } };
}

impl Lanes {
    ghost use Rattle.surf_lanes.specs.Lanes.{lane_at};

    /// The lane of a span.
    pub fn lane(&self, span: usize) -> u32
        requires { span < length self.now.lane }
        ensures { result ≡ lane_at self.now span }
    {
        self.lane[span]
    }

    /// How many lanes there are.
    pub fn count(&self) -> u32
        ensures { result ≡ self.now.count }
    {
        self.count
    }
}
