// The words of a refusal.
ghost use Rattle.std.specs.Prelude.{◌≡◌, ◌++◌};
ghost use Rattle.surf_status.specs.Notes.{block_words, blif_words, circuit_words, fault_words, legend_words, refusal_words, source_words, tail_text, trace_words};

use crate::Refusal;
use surf_auto::SourceError;
use surf_blif::BlifError;
use surf_logic::CircuitError;
use surf_manifest::{Block, ManifestError};
use surf_manifest_print::LegendError;
use surf_trace::TraceError;

/// What follows the words of a refusal, each part behind a blank.
#[derive(Clone, Copy, Debug)]
pub enum Tail<'a> {
    Nothing,
    Line(u64),
    Number(u128),
    Named(&'a [u8]),
    LineAndName(u64, &'a [u8]),
    Numbers(u64, u64),
}

fn words_of_block(block: Block) -> &'static [u8]
    ensures { result.now ≡ block_words block }
{
    match block {
        Block::Rules => b"missing-block rules",
        Block::State => b"missing-block state",
    }
}

fn words_of_fault(fault: &ManifestError) -> (&'static [u8], Tail<'static>)
    ensures { fault_words fault.now ≡ result.0.now ++ tail_text result.1 }
{
    match fault {
        ManifestError::BadLine(line) => (b"bad-line", Tail::Line(*line)),
        ManifestError::BadRule(line) => (b"bad-rule", Tail::Line(*line)),
        ManifestError::BadRate(line) => (b"bad-rate", Tail::Line(*line)),
        ManifestError::Ragged(line) => (b"ragged", Tail::Line(*line)),
        ManifestError::Include(line) => (b"include", Tail::Line(*line)),
        ManifestError::BlockTwice(line) => (b"block-twice", Tail::Line(*line)),
        ManifestError::BadOption(line) => (b"bad-option", Tail::Line(*line)),
        ManifestError::Unclosed(line) => (b"unclosed", Tail::Line(*line)),
        ManifestError::MissingBlock(block) => (words_of_block(*block), Tail::Nothing),
        ManifestError::NoSites => (b"no-sites", Tail::Nothing),
        ManifestError::TooManyRules(count) => (b"too-many-rules", Tail::Line(*count)),
        ManifestError::TooManySites(count) => (b"too-many-sites", Tail::Line(*count)),
        ManifestError::WrapSize => (b"wrap-size", Tail::Nothing),
        ManifestError::NoMemory => (b"no-memory", Tail::Nothing),
    }
}

fn words_of_legend(fault: &LegendError) -> (&'static [u8], Tail<'static>)
    ensures { legend_words fault.now ≡ result.0.now ++ tail_text result.1 }
{
    match fault {
        LegendError::BadLegend(line) => (b"bad-legend", Tail::Line(*line)),
        LegendError::NoLegend => (b"no-legend", Tail::Nothing),
        LegendError::NoMemory => (b"no-memory", Tail::Nothing),
    }
}

fn words_of_trace(fault: &TraceError) -> (&'static [u8], Tail<'static>)
    ensures { trace_words fault.now ≡ result.0.now ++ tail_text result.1 }
{
    match fault {
        TraceError::NoTrace => (b"no-trace", Tail::Nothing),
        TraceError::BadTrace(line) => (b"bad-trace", Tail::Line(*line)),
        TraceError::Unclosed(line) => (b"unclosed", Tail::Line(*line)),
        TraceError::NoMemory => (b"no-memory", Tail::Nothing),
    }
}

fn words_of_circuit(error: &CircuitError) -> (&'static [u8], Tail<'_>)
    ensures { circuit_words error.now ≡ result.0.now ++ tail_text result.1 }
{
    match error {
        CircuitError::DeclaredTwice(name) => (b"declared-twice", Tail::Named(name.bytes())),
        CircuitError::DrivenTwice(name) => (b"driven-twice", Tail::Named(name.bytes())),
        CircuitError::Undriven(name) => (b"undriven", Tail::Named(name.bytes())),
        CircuitError::NoOutputs => (b"no-outputs", Tail::Nothing),
        CircuitError::Cycle(name) => (b"cycle", Tail::Named(name.bytes())),
        CircuitError::NoMemory => (b"no-memory", Tail::Nothing),
    }
}

fn words_of_blif(error: &BlifError) -> (&'static [u8], Tail<'_>)
    ensures { blif_words error.now ≡ result.0.now ++ tail_text result.1 }
{
    match error {
        BlifError::Unsupported(line, name) => {
            (b"unsupported", Tail::LineAndName(*line, name.bytes()))
        }
        BlifError::BadLine(line) => (b"bad-line", Tail::Line(*line)),
        BlifError::BadCover(line) => (b"bad-cover", Tail::Line(*line)),
        BlifError::MixedCover(line) => (b"mixed-cover", Tail::Line(*line)),
        BlifError::Circuit(error) => words_of_circuit(error),
        BlifError::TooLarge(cost) => (b"circuit-too-large", Tail::Number(*cost)),
        BlifError::NoMemory => (b"no-memory", Tail::Nothing),
    }
}

fn words_of_source(error: &SourceError) -> (&'static [u8], Tail<'static>)
    ensures { source_words error.now ≡ result.0.now ++ tail_text result.1 }
{
    match error {
        SourceError::BadHeader(line) => (b"bad-header", Tail::Line(*line)),
        SourceError::RuleForm(line) => (b"rule-form", Tail::Line(*line)),
        SourceError::TorusSize(line) => (b"torus-size", Tail::Line(*line)),
        SourceError::EmptyGrid => (b"empty-grid", Tail::Nothing),
        SourceError::GridTooLarge(count) => (b"grid-too-large", Tail::Number(*count)),
        SourceError::BadItem(line) => (b"bad-item", Tail::Line(*line)),
        SourceError::OutOfBox(line) => (b"out-of-box", Tail::Line(*line)),
        SourceError::BadTable(line) => (b"bad-table", Tail::Line(*line)),
        SourceError::Unclosed => (b"unclosed", Tail::Nothing),
        SourceError::TooManyRules(count) => (b"too-many-rules", Tail::Number(*count)),
        SourceError::NoMemory => (b"no-memory", Tail::Nothing),
    }
}

/// The words of a refusal, and what follows them.
pub fn words_of_refusal(refusal: &Refusal) -> (&'static [u8], Tail<'_>)
    ensures { refusal_words refusal.now ≡ result.0.now ++ tail_text result.1 }
{
    match refusal {
        Refusal::Manifest(fault) => words_of_fault(fault),
        Refusal::Legend(fault) => words_of_legend(fault),
        Refusal::LegendSite(site) => {
            let (x, y) = (u64::from(site.x), u64::from(site.y));
            (b"legend-site", Tail::Numbers(x, y))
        }
        Refusal::Trace(fault) => words_of_trace(fault),
        Refusal::NotCells => (b"not-cells", Tail::Nothing),
        Refusal::Blif(error) => words_of_blif(error),
        Refusal::Bits { found, wanted } => (b"bits", Tail::Numbers(*found, *wanted)),
        Refusal::NotInput(site) => {
            let (x, y) = (u64::from(site.x), u64::from(site.y));
            (b"not-input", Tail::Numbers(x, y))
        }
        Refusal::Source(error) => words_of_source(error),
    }
}
