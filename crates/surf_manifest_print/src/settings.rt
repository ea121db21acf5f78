// The lines of options.
ghost use Rattle.std.specs.Prelude.{◌++◌, ◌∷◌, ◌≡◌, OnOk, [], map};
ghost use Rattle.surf_text.specs.Bytes.{ended};
ghost use Rattle.surf_manifest_print.specs.Prints.{geometry_text, option_text, wrap_text};

use crate::printer::Printer;
use surf_base::NoMemory;
use surf_lattice::GridKind;
use surf_manifest::OptionLine;

impl Printer {
    /// Appends the line of the geometry.
    pub fn put_geometry(&mut self, kind: GridKind) -> Result<(), NoMemory>
        ensures { OnOk result (self.new ≡ self.old ++ (geometry_text kind ++ 10 ∷ [])) }
    {
        match kind {
            GridKind::Square => self.put_line(b"geometry = square"),
            GridKind::Hex => self.put_line(b"geometry = hex"),
        }
    }

    /// Appends the line that says whether the sides are joined.
    pub fn put_wrap(&mut self, wrap: bool) -> Result<(), NoMemory>
        ensures { OnOk result (self.new ≡ self.old ++ (wrap_text wrap ++ 10 ∷ [])) }
    {
        if wrap {
            self.put_line(b"wrap = true")
        } else {
            self.put_line(b"wrap = false")
        }
    }

    // Appends the line of an option.
    fn put_option(&mut self, option: &OptionLine) -> Result<(), NoMemory>
        ensures { OnOk result (self.new ≡ self.old ++ (option_text option.now ++ 10 ∷ [])) }
    {
        self.put(option.key.bytes())?;
        let value = option.value.bytes();
        if value.is_empty() {
            return self.put_line(b" =");
        }
        self.put(b" = ")?;
        self.put_line(value)
    }

    /// Appends the lines of options, in their order.
    pub fn put_options(&mut self, options: &[OptionLine]) -> Result<(), NoMemory>
        ensures { OnOk result (self.new ≡ self.old ++ ended (map option_text options.now)) }
    {
        for option in options {
            self.put_option(option)?;
        }
        Ok(())
    }
}
