// Manifests that were read.
ghost use Rattle.std.specs.Prelude.{◌≡◌, MatchOption, None, Some, length, map};
ghost use Rattle.surf_lattice.specs.AnyGrid.{grid_of};
ghost use Rattle.surf_manifest.specs.Drafts.{NamesBelow, RulesBelow, named_rule};
ghost use Rattle.surf_manifest.specs.WellFormed.{IsWellFormed};
ghost use Rattle.surf_rules.specs.Names.{text_of};

use std::marker::Model;
use surf_base::Text;
use surf_lattice::{Grid, GridKind};
use surf_manifest_lines::OptionLine;
use surf_rules::{Names, Rule};

/// A well-formed manifest: a system over the numbers of names, options that are kept as text, and
/// the lines of a colormap where there is one.
#[derive(Drop)]
pub struct Manifest {
    pub(crate) kind: GridKind,
    pub(crate) wrap: bool,
    pub(crate) width: u32,
    pub(crate) height: u32,
    pub(crate) options: Vec<OptionLine>,
    pub(crate) names: Names,
    pub(crate) rules: Vec<Rule>,
    pub(crate) start: Vec<u32>,
    pub(crate) colormap: Option<Vec<Text>>,
}

impl Model for Manifest {
    ghost use Rattle.surf_manifest.specs.Numbered.{NamedManifest};

    ghost Value = { NamedManifest };

    ghost use Rattle.surf_manifest.specs.Manifests.{IsManifest, manifest_by};

    ghost view = { manifest_by };

    ghost invariant = { IsManifest };
}

impl Manifest {
    /// The kind of the grid.
    pub fn kind(&self) -> GridKind
        ensures kind { result ≡ self.now.text.system.surface.grid.kind }
        ensures well_formed { IsWellFormed self.now.text }
    {
        self.kind
    }

    /// Whether the sides of the grid are joined.
    pub fn wrap(&self) -> bool
        ensures { result ≡ self.now.text.system.surface.grid.wrap }
    {
        self.wrap
    }

    /// The grid.
    pub fn grid(&self) -> Grid
        ensures grid { grid_of result ≡ self.now.text.system.surface.grid }
        ensures well_formed { IsWellFormed self.now.text }
    {
        Grid::new(self.kind, self.wrap, self.width, self.height).unwrap()
    }

    /// All options but `geometry` and `wrap`, in the order of the text.
    pub fn options(&self) -> &[OptionLine]
        ensures { result.now ≡ self.now.text.options }
    {
        &self.options
    }

    /// The names that the numbers stand for.
    pub fn names(&self) -> &Names
        ensures { result.now ≡ self.now.names }
    {
        &self.names
    }

    /// The rules, over numbers of the names.
    pub fn rules(&self) -> &[Rule]
        ensures named { map (named_rule self.now.names) result.now
            ≡ self.now.text.system.surface.rules }
        ensures below { RulesBelow (length self.now.names) result.now }
    {
        &self.rules
    }

    /// The number of the name of each site in row-major order.
    pub fn start(&self) -> &[u32]
        ensures named { map (text_of self.now.names) result.now ≡ self.now.text.system.start }
        ensures below { NamesBelow (length self.now.names) result.now }
    {
        &self.start
    }

    /// The lines of the colormap, where there is one.
    pub fn colormap(&self) -> Option<&[Text]>
        ensures { MatchOption result (self.now.text.colormap ≡ None)
            (λ r. self.now.text.colormap ≡ Some r.now) }
    {
        match &self.colormap {
            Some(lines) => Some(lines.as_slice()),
            None => None,
        }
    }
}
