// The lines of a colormap.
ghost use Rattle.std.specs.Option.{option_copied};
ghost use Rattle.std.specs.Prelude.{◌++◌, ◌≡◌, OnOk};
ghost use Rattle.surf_text.specs.Bytes.{ended};
ghost use Rattle.surf_manifest_print.specs.Prints.{colour_lines};

use crate::printer::Printer;
use surf_base::{NoMemory, Text};

impl Printer {
    // Appends texts, each on a line.
    fn put_lines(&mut self, lines: &[Text]) -> Result<(), NoMemory>
        ensures { OnOk result (self.new ≡ self.old ++ ended lines.now) }
    {
        for line in lines {
            self.put_line(line.bytes())?;
        }
        Ok(())
    }

    /// Appends the block of the colormap, where there is one.
    pub fn put_colormap(&mut self, colormap: Option<&[Text]>) -> Result<(), NoMemory>
        ensures { OnOk result (self.new ≡ self.old ++ ended (colour_lines (option_copied colormap.entry))) }
    {
        if let Some(lines) = colormap {
            self.put_line(b"!START_COLORMAP")?;
            self.put_lines(lines)?;
            self.put_line(b"!END_COLORMAP")?;
        }
        Ok(())
    }
}
