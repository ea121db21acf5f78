// The lines up to the weights.
ghost use Rattle.std.specs.Prelude.{◌≡◌, ◌≤◌, IfErr, IfOk, Ok, length, true};
ghost use Rattle.surf_auto.specs.Locals.{is_degree};
ghost use Rattle.surf_auto.specs.Tables.{greatest};
ghost use Rattle.surf_table.specs.TableLines.{version_line, degree_line, states_line, edge_line, weights_line};
ghost use Rattle.surf_table.specs.TableTexts.{Refuses, read, read_head, rules_of, sums_of};
ghost use Rattle.surf_table.specs.Readings.{head_by};

use crate::lines::Lines;
use crate::numbers::read_numbers;
use crate::words::number_line;
use std::alloc::Global;
use surf_auto::SourceError;

const RULE_LIMIT: u128 = 1_048_576;

/// The degree, the edge state, and a weight for each state.
#[derive(Drop)]
pub(crate) struct Header {
    pub degree: u32,
    pub edge: u32,
    pub weights: Vec<u32>,
}

fn heaviest(weights: &[u32]) -> u32
    ensures { result ≡ greatest weights.now }
{
    let mut found = 0;
    for weight in weights {
        found = found.max(*weight);
    }
    found
}

/// The number of sums of weights, from 0 on.
pub(crate) fn sum_count(degree: u32, weights: &[u32]) -> u32
    requires known { is_degree degree ≡ true }
    requires light { greatest weights.now ≤ 255 }
    ensures { result ≡ sums_of degree weights.now }
{
    degree * heaviest(weights) + 1
}

// The number of rules of a compiled automaton, for which the next states don't matter.
fn rule_count(degree: u32, weights: &[u32]) -> u128
    requires known { is_degree degree ≡ true }
    requires few { length weights.now ≤ 256 }
    requires light { greatest weights.now ≤ 255 }
    ensures { result ≡ rules_of degree weights.now }
{
    let states = weights.len() as u128;
    let degree = u128::from(degree);
    // after r reads there are r times the greatest weight plus 1 sums
    let places = degree + degree * (degree - 1) / 2 * u128::from(heaviest(weights));
    let codes = states * states * places;
    3 * (degree + 1) * codes * (1 + codes + codes)
}

fn read_version(lines: &mut Lines<'_>) -> Result<(), SourceError>
    ensures ok { IfOk result (λ _. read version_line lines.old ≡ Ok (1, lines.new)) }
    ensures refused { IfErr result (λ f. Refuses (read version_line lines.old) f) }
{
    let Some(line) = lines.next() else {
        return Err(SourceError::Unclosed);
    };
    match number_line(b"automaton", line.words) {
        Some(version) if version == 1 => Ok(()),
        _ => Err(SourceError::BadTable(line.number)),
    }
}

fn read_degree(lines: &mut Lines<'_>) -> Result<u32, SourceError>
    ensures ok { IfOk result (λ d. read degree_line lines.old ≡ Ok (d, lines.new)) }
    ensures refused { IfErr result (λ f. Refuses (read degree_line lines.old) f) }
{
    let Some(line) = lines.next() else {
        return Err(SourceError::Unclosed);
    };
    match number_line(b"degree", line.words) {
        Some(degree) if degree == 4 || degree == 6 => Ok(degree as u32),
        _ => Err(SourceError::BadTable(line.number)),
    }
}

fn read_states(lines: &mut Lines<'_>) -> Result<u32, SourceError>
    ensures ok { IfOk result (λ n. read states_line lines.old ≡ Ok (n, lines.new)) }
    ensures refused { IfErr result (λ f. Refuses (read states_line lines.old) f) }
{
    let Some(line) = lines.next() else {
        return Err(SourceError::Unclosed);
    };
    match number_line(b"states", line.words) {
        Some(states) if 1 <= states && states <= 256 => Ok(states as u32),
        _ => Err(SourceError::BadTable(line.number)),
    }
}

fn read_edge(lines: &mut Lines<'_>, states: u32) -> Result<u32, SourceError>
    ensures ok { IfOk result (λ s. read (edge_line states) lines.old ≡ Ok (s, lines.new)) }
    ensures refused { IfErr result (λ f. Refuses (read (edge_line states) lines.old) f) }
{
    let Some(line) = lines.next() else {
        return Err(SourceError::Unclosed);
    };
    match number_line(b"edge", line.words) {
        Some(edge) if edge < u64::from(states) => Ok(edge as u32),
        _ => Err(SourceError::BadTable(line.number)),
    }
}

fn read_weights(alloc: Global, lines: &mut Lines<'_>, states: u32) -> Result<Vec<u32>, SourceError>
    ensures ok { IfOk result
        (λ ws. read (weights_line states) lines.old ≡ Ok (ws.items, lines.new)) }
    ensures refused { IfErr result (λ f. Refuses (read (weights_line states) lines.old) f) }
{
    let mut weights = Vec::new(alloc);
    read_numbers(&mut weights, lines, b"weights", states, 256)?;
    Ok(weights)
}

/// The header, the lines up to the weights, which has at most 1,048,576 rules.
pub(crate) fn read_head(alloc: Global, lines: &mut Lines<'_>) -> Result<Header, SourceError>
    ensures ok { IfOk result (λ h. read_head lines.old ≡ Ok (head_by h, lines.new)) }
    ensures refused { IfErr result (λ f. Refuses (read_head lines.old) f) }
{
    read_version(lines)?;
    let degree = read_degree(lines)?;
    let states = read_states(lines)?;
    let edge = read_edge(lines, states)?;
    let weights = read_weights(alloc, lines, states)?;
    let rules = rule_count(degree, &weights);
    if rules > RULE_LIMIT {
        return Err(SourceError::TooManyRules(rules));
    }
    Ok(Header {
        degree,
        edge,
        weights,
    })
}
