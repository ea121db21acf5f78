// The legend of a text.
ghost use Rattle.std.specs.BTreeSet.{contains};
ghost use Rattle.std.specs.Prelude.{◌≡◌, ◌&&◌, ◌==◌, ◌||◌, ℕ, IfErr, IfOk, None, Ok, OnOk, Some, [], not};
ghost use Rattle.surf_manifest_print.specs.LegendReadings.{KnowsSites, LineRefuses, key_cmp, parts_of};
ghost use Rattle.surf_manifest_print.specs.Legends.{AreApart, HasWords, IsLegend};
ghost use Rattle.surf_manifest_print.specs.LegendTexts.{LegendRefuses, legend_from, legend_of, with_line};

use crate::legend::{Legend, Place};
use crate::legend_error::LegendError;
use crate::legend_line::{LegendLine, read_legend_line};
use std::alloc::Global;
use std::collections::BTreeSet;
use surf_base::NoMemory;
use surf_lattice::Site;
use surf_text::Lines;

// What the lines so far say. The set has the sites of the inputs, each by its row and column.
#[derive(Drop)]
pub struct LegendReading {
    inputs: Vec<Place>,
    outputs: Vec<Place>,
    events: Option<u64>,
    taken: BTreeSet<(u32, u32)>,
}

// Adds a site to a set, and answers whether it is new.
fn add_site(taken: &mut BTreeSet<(u32, u32)>, site: Site) -> Result<bool, NoMemory>
    ensures added { IfOk result (λ new. new ≡ not (contains key_cmp taken.old (site.y, site.x))) }
    ensures sites { OnOk result ((y x : ℕ) → contains key_cmp taken.new (y, x)
        ≡ (((site.y == y) && (site.x == x)) || contains key_cmp taken.old (y, x))) }
{
    match taken.insert((site.y, site.x)) {
        Ok(new) => Ok(new),
        Err(_) => Err(NoMemory),
    }
}

impl LegendReading {
    fn new(alloc: Global) -> LegendReading
        ensures empty { parts_of result ≡ record { inputs = []; outputs = []; events = None } }
        ensures sites { KnowsSites result }
    {
        LegendReading {
            inputs: Vec::new(alloc),
            outputs: Vec::new(alloc),
            events: None,
            taken: BTreeSet::new(alloc),
        }
    }

    // Takes what the line of this number says.
    fn take(&mut self, number: u64, line: LegendLine) -> Result<(), LegendError>
        requires { KnowsSites self.old }
        ensures said { OnOk result (with_line (parts_of self.old) line ≡ Some (parts_of self.new)) }
        ensures sites { OnOk result (KnowsSites self.new) }
        ensures refused { IfErr result (LineRefuses number (with_line (parts_of self.old) line)) }
    {
        match line {
            LegendLine::Other => Ok(()),
            LegendLine::Input(place) => self.take_input(number, place),
            LegendLine::Output(place) => self.take_output(place),
            LegendLine::Events(events) => self.take_events(number, events),
            LegendLine::Faulty => Err(LegendError::BadLegend(number)),
        }
    }

    fn take_input(&mut self, number: u64, place: Place) -> Result<(), LegendError>
        requires { KnowsSites self.old }
        ensures said { OnOk result
            (with_line (parts_of self.old) (LegendLine.Input place) ≡ Some (parts_of self.new)) }
        ensures sites { OnOk result (KnowsSites self.new) }
        ensures refused { IfErr result
            (LineRefuses number (with_line (parts_of self.old) (LegendLine.Input place))) }
    {
        match add_site(&mut self.taken, place.site) {
            Ok(true) => self.inputs.push(place).map_err(|_| LegendError::NoMemory),
            Ok(false) => Err(LegendError::BadLegend(number)),
            Err(_) => Err(LegendError::NoMemory),
        }
    }

    fn take_output(&mut self, place: Place) -> Result<(), LegendError>
        requires { KnowsSites self.old }
        ensures said { OnOk result
            (with_line (parts_of self.old) (LegendLine.Output place) ≡ Some (parts_of self.new)) }
        ensures sites { OnOk result (KnowsSites self.new) }
        ensures refused { IfErr result (λ f. f ≡ LegendError.NoMemory) }
    {
        self.outputs.push(place).map_err(|_| LegendError::NoMemory)
    }

    fn take_events(&mut self, number: u64, events: u64) -> Result<(), LegendError>
        requires { KnowsSites self.old }
        ensures said { OnOk result
            (with_line (parts_of self.old) (LegendLine.Events events) ≡ Some (parts_of self.new)) }
        ensures sites { OnOk result (KnowsSites self.new) }
        ensures refused { IfErr result
            (LineRefuses number (with_line (parts_of self.old) (LegendLine.Events events))) }
    {
        if self.events.is_some() {
            return Err(LegendError::BadLegend(number));
        }
        self.events = Some(events);
        Ok(())
    }

    // The legend, where the number of events was told.
    fn finish(self) -> Result<Legend, LegendError>
        ensures ok { IfOk result (λ l.
            legend_from self.inputs.items self.outputs.items self.events ≡ Ok l) }
        ensures refused { IfErr result
            (LegendRefuses (legend_from self.inputs.items self.outputs.items self.events)) }
    {
        match self.events {
            Some(events) => Ok(Legend {
                inputs: self.inputs,
                outputs: self.outputs,
                events,
            }),
            None => Err(LegendError::NoLegend),
        }
    }
}

fn read_lines(alloc: Global, bytes: &[u8]) -> Result<Legend, LegendError>
    ensures ok { IfOk result (λ l. legend_of bytes.now ≡ Ok l) }
    ensures refused { IfErr result (LegendRefuses (legend_of bytes.now)) }
{
    let mut reading = LegendReading::new(alloc);
    let mut lines = Lines::new(bytes, 0);
    while let Some(line) = lines.next() {
        let said = read_legend_line(alloc, line).map_err(|_| LegendError::NoMemory)?;
        reading.take(lines.number(), said)?;
    }
    reading.finish()
}

/// The legend of a text, or the text's first fault.
///
/// Every line whose first two tokens are `#` and `surf` has to be `# surf input NAME X Y`,
/// `# surf output NAME X Y` or `# surf events N`. No two inputs stand at one site. One pass over
/// the bytes.
pub fn read_legend(alloc: Global, bytes: &[u8]) -> Result<Legend, LegendError>
    ensures ok { IfOk result (λ l. legend_of bytes.now ≡ Ok l) }
    ensures refused { IfErr result (LegendRefuses (legend_of bytes.now)) }
    ensures form { IfOk result (λ l. IsLegend (Some l)) }
    ensures words { IfOk result HasWords }
    ensures apart { IfOk result (λ l. AreApart l.inputs) }
{
    read_lines(alloc, bytes)
}
