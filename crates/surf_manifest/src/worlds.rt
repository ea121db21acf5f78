// Manifests as worlds.
ghost use Rattle.std.specs.Prelude.{◌≡◌, IfOk};
ghost use Rattle.surf_manifest.specs.Numbered.{IsNumbered};

use crate::manifest::Manifest;
use std::alloc::Global;
use surf_base::NoMemory;
use surf_lattice::{Grid, Lattice};
use surf_rules::{Names, RuleBook};
use surf_world::World;

impl Manifest {
    /// The world of the manifest, and the names of its numbers. The manifest is given up on
    /// `NoMemory`.
    pub fn into_world(self, alloc: Global) -> Result<(World<Grid>, Names), NoMemory>
        ensures numbered { IfOk result (λ p. IsNumbered self.text.system p.0 p.1) }
        ensures names { IfOk result (λ p. p.1 ≡ self.names) }
    {
        let grid = self.grid();
        self.into_world_on(alloc, grid)
    }

    /// The same over a grid of another type, which is the manifest's.
    pub fn into_world_on<L: Lattice + Drop>(
        self,
        alloc: Global,
        grid: L,
    ) -> Result<(World<L>, Names), NoMemory>
        requires { L.grid grid ≡ self.text.system.surface.grid }
        ensures numbered { IfOk result (λ p. IsNumbered self.text.system p.0 p.1) }
        ensures names { IfOk result (λ p. p.1 ≡ self.names) }
    {
        // the manifest tells that it is well formed, and the names that they are distinct
        let _kind = self.kind();
        let _name_count = self.names.len();
        let book = RuleBook::new(alloc, self.rules)?;
        let world = World::new(alloc, grid, book, self.start)?;
        Ok((world, self.names))
    }
}
