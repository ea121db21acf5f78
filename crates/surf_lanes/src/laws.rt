//! What the contract of `pack` leaves open: nothing.
ghost use Rattle.surf_lanes.specs.Lanes.{PackedIsOne};

/// Spans in order are packed in one way.
pub fn packing_law()
    ensures { PackedIsOne }
{}
