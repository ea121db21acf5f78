// The canonical text of a manifest.
ghost use Rattle.std.specs.Option.{option_copied};
ghost use Rattle.std.specs.Prelude.{◌++◌, ◌∷◌, ◌≡◌, IfOk, IfSome, None, Ok, OnOk, [], codes, map};
ghost use Rattle.surf_text.specs.Bytes.{ended, rows_of, spaced};
ghost use Rattle.surf_manifest.specs.Grammar.{manifest_of};
ghost use Rattle.surf_manifest.specs.WellFormed.{IsWellFormed};
ghost use Rattle.surf_manifest_print.specs.Legends.{HasWords, IsLegend};
ghost use Rattle.surf_manifest_print.specs.Rows.{short_texts};
ghost use Rattle.surf_manifest_print.specs.Prints.{print_of, rule_block, state_block};

use crate::legend::Legend;
use crate::printer::Printer;
use crate::room::{legend_room, manifest_room};
use crate::shorts::{Short, shorts_of};
use std::alloc::Global;
use surf_base::NoMemory;
use surf_lattice::Lattice;
use surf_manifest::Manifest;

impl Printer {
    // Appends the block of the rules of a manifest.
    fn put_rules_of(&mut self, manifest: &Manifest) -> Result<(), NoMemory>
        ensures { OnOk result (self.new ≡ self.old ++ ended (rule_block manifest.now.text)) }
    {
        self.put_rule_block(manifest.names(), manifest.rules())
    }

    // Appends the block of the initial state of a manifest.
    fn put_state_of(&mut self, manifest: &Manifest, shorts: &[Short]) -> Result<(), NoMemory>
        requires { shorts.now ≡ short_texts manifest.now.names }
        ensures { OnOk result (self.new ≡ self.old ++ ended (state_block manifest.now.text)) }
    {
        let grid = manifest.grid();
        self.put_state_block(
            manifest.names(),
            shorts,
            manifest.start(),
            grid.width(),
            grid.height(),
        )
    }

    // Appends all lines of a manifest but those of a legend.
    fn put_manifest(&mut self, manifest: &Manifest, shorts: &[Short]) -> Result<(), NoMemory>
        requires { shorts.now ≡ short_texts manifest.now.names }
        ensures text { OnOk result (self.new ≡ self.old ++ print_of manifest.now.text None) }
        ensures well_formed { IsWellFormed manifest.now.text }
    {
        self.put_geometry(manifest.kind())?;
        self.put_wrap(manifest.wrap())?;
        self.put_options(manifest.options())?;
        self.put_rules_of(manifest)?;
        self.put_state_of(manifest, shorts)?;
        self.put_colormap(manifest.colormap())?;
        Ok(())
    }
}

/// The canonical text of a manifest, with the lines of a legend where one is given.
///
/// The names of a legend are tokens of bytes 33 to 126. The text is written once, into a buffer that
/// has room for it from the start.
pub fn print_manifest(
    alloc: Global,
    manifest: &Manifest,
    legend: Option<&Legend>,
) -> Result<Vec<u8>, NoMemory>
    requires { IfSome legend (λ l. HasWords l.now) }
    ensures text { IfOk result
        (λ v. v.items ≡ print_of manifest.now.text (option_copied legend.entry)) }
    ensures read { IfOk result (λ v. IsLegend (option_copied legend.entry)
        → manifest_of v.items ≡ Ok manifest.now.text) }
{
    let shorts = shorts_of(alloc, manifest.names())?;
    let room = manifest_room(manifest).saturating_add(legend_room(legend));
    let mut printer = Printer::with_room(alloc, room)?;
    printer.put_legend(legend)?;
    printer.put_manifest(manifest, &shorts)?;
    Ok(printer.into_bytes())
}
