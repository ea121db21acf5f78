// The lines of a legend.
ghost use Rattle.std.specs.Option.{option_copied};
ghost use Rattle.std.specs.Prelude.{◌++◌, ◌∷◌, ◌≡◌, OnOk, Some, [], map};
ghost use Rattle.surf_text.specs.Bytes.{ended};
ghost use Rattle.surf_manifest_print.specs.Prints.{events_text, legend_lines, place_text, site_text};

use crate::legend::{Legend, Place};
use crate::printer::Printer;
use surf_base::NoMemory;
use surf_lattice::Site;

impl Printer {
    // Appends the two coordinates of a site.
    fn put_site(&mut self, site: Site) -> Result<(), NoMemory>
        ensures { OnOk result (self.new ≡ self.old ++ site_text site) }
    {
        self.put_number(u64::from(site.x))?;
        self.put(b" ")?;
        self.put_number(u64::from(site.y))
    }

    // Appends the line of a place, behind the word of its kind.
    fn put_place(&mut self, word: &[u8], place: &Place) -> Result<(), NoMemory>
        ensures { OnOk result (self.new ≡ self.old ++ (place_text word.now place.now ++ 10 ∷ [])) }
    {
        self.put(b"# surf ")?;
        self.put(word)?;
        self.put(b" ")?;
        self.put(place.name.bytes())?;
        self.put(b" ")?;
        self.put_site(place.site)?;
        self.put(b"\n")
    }

    // Appends the lines of places, in their order.
    fn put_places(&mut self, word: &[u8], places: &[Place]) -> Result<(), NoMemory>
        ensures { OnOk result (self.new ≡ self.old ++ ended (map (place_text word.now) places.now)) }
    {
        for place in places {
            self.put_place(word, place)?;
        }
        Ok(())
    }

    // Appends the line of the number of events.
    fn put_events(&mut self, events: u64) -> Result<(), NoMemory>
        ensures { OnOk result (self.new ≡ self.old ++ (events_text events ++ 10 ∷ [])) }
    {
        self.put(b"# surf events ")?;
        self.put_number(events)?;
        self.put(b"\n")
    }

    // Appends the lines of a legend.
    fn put_whole_legend(&mut self, legend: &Legend) -> Result<(), NoMemory>
        ensures { OnOk result (self.new ≡ self.old ++ ended (legend_lines (Some legend.now))) }
    {
        self.put_places(b"input", &legend.inputs)?;
        self.put_places(b"output", &legend.outputs)?;
        self.put_events(legend.events)?;
        Ok(())
    }

    /// Appends the lines of a legend, where there is one.
    pub fn put_legend(&mut self, legend: Option<&Legend>) -> Result<(), NoMemory>
        ensures { OnOk result (self.new ≡ self.old ++ ended (legend_lines (option_copied legend.entry))) }
    {
        match legend {
            Some(legend) => self.put_whole_legend(legend),
            None => Ok(()),
        }
    }
}
