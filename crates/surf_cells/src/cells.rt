// The cells of a surface, shown as pieces of text.
ghost use Rattle.std.specs.Prelude.{◌≡◌, ◌<◌, ℕ, List, Some, All, length, map, slice_get};
ghost use Rattle.std.specs.Fmt.{decimal};
ghost use Rattle.surf_base.specs.Pieces.{piece_text};
ghost use Rattle.surf_rules.specs.Names.{text_of};
ghost use Rattle.surf_cells.specs.Rows.{state_word};

use surf_base::Piece;
use surf_lattice::Lattice;
use surf_rules::Names;
use surf_world::World;

/// Cells in row-major order, each of which is shown as a piece.
pub trait Cells {
    /// The text of each cell.
    ghost texts: { Self → List (List ℕ) };

    /// Each cell has a text.
    ghost valid: { Self → Type 0 };

    fn piece(&self, place: usize) -> Piece<'_>
        requires valid { valid self.now }
        requires place { place < length (texts self.now) }
        ensures { slice_get (texts self.now) place ≡ Some (piece_text result) };
}

/// States, shown as decimals.
#[derive(Drop)]
pub struct States<'a> {
    pub states: &'a [u32],
}

impl Cells for States<'_> {
    ghost texts = { λ s. map decimal s.states.now };

    ghost valid = { λ _. Unit {0} };

    fn piece(&self, place: usize) -> Piece<'_> {
        Piece::Number(u64::from(self.states[place]))
    }
}

/// States of some sites, shown as decimals, and as `-` where there is none.
#[derive(Drop)]
pub struct Observed<'a> {
    pub states: &'a [Option<u32>],
}

impl Cells for Observed<'_> {
    ghost texts = { λ s. map state_word s.states.now };

    ghost valid = { λ _. Unit {0} };

    fn piece(&self, place: usize) -> Piece<'_> {
        match self.states[place] {
            Some(state) => Piece::Number(u64::from(state)),
            None => Piece::Text(b"-"),
        }
    }
}

/// The sites of a world, shown as the texts of their names.
#[derive(Drop)]
pub struct Named<'a, L: Lattice> {
    pub world: &'a World<L>,
    pub names: &'a Names,
}

impl<L: Lattice> Cells for Named<'_, L> {
    ghost texts = { λ n. map (text_of n.names.now) n.world.now.names };

    ghost valid = { λ n. All (λ k. k < length n.names.now) n.world.now.names };

    fn piece(&self, place: usize) -> Piece<'_> {
        Piece::Text(self.names.text(self.world.name_at(place)))
    }
}
