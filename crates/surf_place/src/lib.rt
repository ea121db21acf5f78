//! Netlists drawn by rows and columns.
//!
//! A `Drawing` goes through three states. `Sketched` is a netlist that can be drawn; `place` gives
//! each net its rows and packs them into columns; `with_tiles` takes the tiles. Its types keep
//! that there are at most as many columns as nets and one more, that each net has one of them but
//! the first, and that two nets in one column share no row. It stands on `surf_tiles` for netlists
//! and tiles and on `surf_lanes` for the packing.
#![tactic(auto)]

mod drawing;
mod filling;
mod placed;
mod routed;
mod sketched;

pub use drawing::Drawing;
pub use placed::Placed;
pub use routed::Routed;
pub use sketched::Sketched;
