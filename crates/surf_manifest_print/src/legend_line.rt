// What one line says of a legend.
ghost use Rattle.std.specs.Prelude.{◌≡◌, IfNone, IfOk, IfSome, None, Some};
ghost use Rattle.surf_text.specs.Bytes.{tokens_of};
ghost use Rattle.surf_manifest_print.specs.LegendTexts.{events_line, input_line, legend_line, output_line, place_of, site_of, surf_line};

use crate::legend::Place;
use std::alloc::Global;
use surf_base::{NoMemory, Text, read_below, read_decimal};
use surf_lattice::Site;
use surf_text::{is_word, next_token};

/// Nothing of a legend, a place, the number of events, or what no line behind `# surf` may say.
#[derive(Debug, Drop)]
pub enum LegendLine {
    Other,
    Input(Place),
    Output(Place),
    Events(u64),
    Faulty,
}

fn read_site(x: &[u8], y: &[u8]) -> Option<Site>
    ensures { result ≡ site_of x.now y.now }
{
    match (read_below(1 << 32, x), read_below(1 << 32, y)) {
        (Some(x), Some(y)) => Some(Site { x, y }),
        _ => None,
    }
}

// The name and the site of the tokens NAME X Y.
fn named_site(line: &[u8]) -> Option<(&[u8], Site)>
    ensures none { IfNone result (place_of (tokens_of line.now) ≡ None) }
    ensures some { IfSome result (λ r.
        place_of (tokens_of line.now) ≡ Some (record { name = r.0.now; site = r.1 })) }
{
    let (name, rest) = next_token(line)?;
    let (x, rest) = next_token(rest)?;
    let (y, rest) = next_token(rest)?;
    if next_token(rest).is_some() || !is_word(name) {
        return None;
    }
    let site = read_site(x, y)?;
    Some((name, site))
}

fn read_place(alloc: Global, line: &[u8]) -> Result<Option<Place>, NoMemory>
    ensures { IfOk result (λ p. p ≡ place_of (tokens_of line.now)) }
{
    match named_site(line) {
        Some((name, site)) => {
            let name = name.to_vec(alloc).map_err(|_| NoMemory)?;
            Ok(Some(Place {
                name: Text::new(name),
                site,
            }))
        }
        None => Ok(None),
    }
}

fn read_events(line: &[u8]) -> LegendLine
    ensures { result ≡ events_line (tokens_of line.now) }
{
    let Some((number, rest)) = next_token(line) else {
        return LegendLine::Faulty;
    };
    match (read_decimal(number), next_token(rest)) {
        (Some(number), None) => LegendLine::Events(number),
        _ => LegendLine::Faulty,
    }
}

// What stands behind `# surf`, where a line begins so.
fn behind_surf(line: &[u8]) -> Option<&[u8]>
    ensures none { IfNone result (legend_line line.now ≡ LegendLine.Other) }
    ensures some { IfSome result (λ r. legend_line line.now ≡ surf_line (tokens_of r.now)) }
{
    let (hash, rest) = next_token(line)?;
    if hash != b"#".as_slice() {
        return None;
    }
    let (surf, rest) = next_token(rest)?;
    if surf != b"surf".as_slice() {
        return None;
    }
    Some(rest)
}

fn read_input(alloc: Global, line: &[u8]) -> Result<LegendLine, NoMemory>
    ensures { IfOk result (λ s. s ≡ input_line (place_of (tokens_of line.now))) }
{
    Ok(match read_place(alloc, line)? {
        Some(place) => LegendLine::Input(place),
        None => LegendLine::Faulty,
    })
}

fn read_output(alloc: Global, line: &[u8]) -> Result<LegendLine, NoMemory>
    ensures { IfOk result (λ s. s ≡ output_line (place_of (tokens_of line.now))) }
{
    Ok(match read_place(alloc, line)? {
        Some(place) => LegendLine::Output(place),
        None => LegendLine::Faulty,
    })
}

// What a line says by its tokens behind `# surf`.
fn read_surf_line(alloc: Global, line: &[u8]) -> Result<LegendLine, NoMemory>
    ensures { IfOk result (λ s. s ≡ surf_line (tokens_of line.now)) }
{
    let Some((word, rest)) = next_token(line) else {
        return Ok(LegendLine::Faulty);
    };
    if word == b"input".as_slice() {
        read_input(alloc, rest)
    } else if word == b"output".as_slice() {
        read_output(alloc, rest)
    } else if word == b"events".as_slice() {
        Ok(read_events(rest))
    } else {
        Ok(LegendLine::Faulty)
    }
}

/// What a line says of a legend.
pub(crate) fn read_legend_line(alloc: Global, line: &[u8]) -> Result<LegendLine, NoMemory>
    ensures { IfOk result (λ s. s ≡ legend_line line.now) }
{
    match behind_surf(line) {
        Some(rest) => read_surf_line(alloc, rest),
        None => Ok(LegendLine::Other),
    }
}
