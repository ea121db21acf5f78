// Manifests that are made and changed.
ghost use Rattle.std.specs.List.{list_all};
ghost use Rattle.std.specs.Prelude.{◌*◌, ◌-◌, ◌<◌, ◌^◌, ◌≡◌, ◌≤◌, All, IfOk, None, OnErr, OnOk, Some, [], length, map, slice_get, slice_set, true};
ghost use Rattle.surf_lattice.specs.AnyGrid.{grid_of};
ghost use Rattle.surf_lattice.specs.Grids.{IsInside, place};
ghost use Rattle.surf_manifest.specs.Drafts.{NamesBelow, RulesBelow, named_rule};
ghost use Rattle.surf_manifest_lines.specs.Item.{is_name};
ghost use Rattle.surf_manifest.specs.Numbered.{with_site};
ghost use Rattle.surf_rules.specs.Names.{text_of, with_text};

use crate::manifest::Manifest;
use std::alloc::Global;
use surf_base::NoMemory;
use surf_lattice::{Grid, GridKind, Lattice, Site};
use surf_rules::{Names, Rule};

fn kind(grid: &Grid) -> GridKind
    ensures { result ≡ (grid_of grid.now).kind }
{
    if grid.degree() == 4 {
        GridKind::Square
    } else {
        GridKind::Hex
    }
}

// The sides are joined exactly where the first site has a neighbour to the west.
fn is_joined(grid: &Grid) -> bool
    ensures { result ≡ (grid_of grid.now).wrap }
{
    let _width = grid.width();
    grid.neighbour(Site { x: 0, y: 0 }, 0).is_some()
}

impl Manifest {
    /// The manifest of these parts, with no options and no colormap. Takes no memory.
    pub fn assemble(
        alloc: Global,
        grid: Grid,
        names: Names,
        rules: Vec<Rule>,
        start: Vec<u32>,
    ) -> Manifest
        requires names { list_all is_name names ≡ true }
        requires rules { RulesBelow (length names) rules.items }
        requires rates { All (λ r. r.rate ≤ 1000000000000) rules.items }
        requires few_rules { length rules.items ≤ 1048576 }
        requires start { NamesBelow (length names) start.items }
        requires sites { length start.items ≡ (grid_of grid).width * (grid_of grid).height }
        requires few_sites { length start.items ≤ 33554432 }
        ensures { result ≡ record {
          text = record {
            system = record {
              surface = record { grid = grid_of grid; rules = map (named_rule names) rules.items };
              start = map (text_of names) start.items;
            };
            options = [];
            colormap = None;
          };
          names = names;
        } }
    {
        Manifest {
            kind: kind(&grid),
            wrap: is_joined(&grid),
            width: grid.width(),
            height: grid.height(),
            options: Vec::new(alloc),
            names,
            rules,
            start,
            colormap: None,
        }
    }

    /// Puts the name of this number at a site. Takes no memory.
    pub fn put(&mut self, site: Site, name: u32)
        requires inside { IsInside self.old.text.system.surface.grid site }
        requires name { name < length self.old.names }
        ensures { self.new ≡ with_site self.old (place self.old.text.system.surface.grid site)
            (text_of self.old.names name) }
    {
        let place = site.y as usize * self.width as usize + site.x as usize;
        self.start[place] = name;
    }

    /// The number of a name, which goes last where it is new. After `NoMemory` nothing has changed.
    pub fn intern(&mut self, bytes: &[u8]) -> Result<u32, NoMemory>
        requires name { is_name bytes.now ≡ true }
        requires room { length self.old.names < 2 ^ 32 - 1 }
        ensures found { IfOk result (λ k. slice_get self.new.names k ≡ Some bytes.now) }
        ensures within { IfOk result (λ k. k < length self.new.names) }
        ensures grown { OnOk result
            (self.new ≡ record self.old { names = with_text self.old.names bytes.now }) }
        ensures err { OnErr result (self.new ≡ self.old) }
    {
        self.names.intern(bytes)
    }
}
