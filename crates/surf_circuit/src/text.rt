// The surface of a layout as a text, row by row.
ghost use Rattle.std.specs.Prelude.{◌++◌, ◌<◌, ◌∷◌, ◌^◌, ◌≡◌, ◌≤◌, IfOk, OnOk, Some, [], map, take};
ghost use Rattle.surf_text.specs.Bytes.{ended, rows_of, spaced};
ghost use Rattle.surf_tiles.specs.Kinds.{name_of};
ghost use Rattle.surf_settle.specs.Indices.{all_kinds};
ghost use Rattle.surf_settle.specs.Plans.{IsLayout};
ghost use Rattle.surf_settle.specs.Settling.{blank_names};
ghost use Rattle.surf_manifest_print.specs.Prints.{print_of};
ghost use Rattle.surf_manifest_print.specs.Rows.{after_blanks, short_text};
ghost use Rattle.surf_circuit.specs.Surfaces.{layout_system, plain_manifest};

use std::alloc::Global;
use surf_base::NoMemory;
use surf_lattice::GridKind;
use surf_manifest_print::{Legend, PIECE, Printer, Short};
use surf_rules::Names;
use surf_settle::{KINDS, KindByte, Layout};
use surf_tiles::{circuit_rules, kind_name};

// A name has at most five bytes, and a blank or the line's end stands behind it.
const SITE: usize = 6;

// The rules and the legend.
const FRONT: usize = 65_536;

// The blank name of each kind, with a blank before it, by the kind's index.
fn kind_shorts(alloc: Global) -> Result<Vec<Short>, NoMemory>
    ensures { IfOk result (λ v. v.items ≡ map (λ k. short_text (name_of k)) all_kinds) }
{
    let mut shorts = Vec::with_capacity(alloc, KINDS.len()).map_err(|_| NoMemory)?;
    for kind in KINDS {
        let short = Short::new(kind_name(kind));
        shorts.push(short).map_err(|_| NoMemory)?;
    }
    Ok(shorts)
}

// Puts a blank and the name of a kind behind the bytes that wait.
#[inline(always)]
fn put_kind(
    printer: &mut Printer,
    shorts: &[Short],
    kind: &KindByte,
    piece: &mut [u8; PIECE],
    len: usize,
) -> Result<usize, NoMemory>
    requires shorts { shorts.now ≡ map (λ k. short_text (name_of k)) all_kinds }
    requires room { len ≤ 4096 }
    ensures text { IfOk result (λ n. printer.new ++ take n piece.new
        ≡ printer.old ++ (take len piece.old ++ (32 ∷ name_of kind.now))) }
    ensures most { IfOk result (λ n. n ≤ 4096) }
{
    printer.put_short(&shorts[kind.index()], piece, len)
}

// Appends the names of kinds, each with a blank before it.
fn put_others(
    printer: &mut Printer,
    shorts: &[Short],
    others: &[KindByte],
    piece: &mut [u8; PIECE],
) -> Result<(), NoMemory>
    requires { shorts.now ≡ map (λ k. short_text (name_of k)) all_kinds }
    ensures { OnOk result (printer.new ≡ printer.old ++ after_blanks (map name_of others.now)) }
{
    let mut len = 0usize;
    for kind in others {
        len = put_kind(printer, shorts, kind, piece, len)?;
    }
    printer.put(&piece[..len])
}

// Appends the names of kinds with one blank between them.
fn put_names(
    printer: &mut Printer,
    shorts: &[Short],
    row: &[KindByte],
    piece: &mut [u8; PIECE],
) -> Result<(), NoMemory>
    requires { shorts.now ≡ map (λ k. short_text (name_of k)) all_kinds }
    ensures { OnOk result (printer.new ≡ printer.old ++ spaced (map name_of row.now)) }
{
    match row.split_first() {
        Some((first, others)) => {
            printer.put(kind_name(first.kind()))?;
            put_others(printer, shorts, others, piece)
        }
        None => Ok(()),
    }
}

// Appends the line of a row.
fn put_row(
    printer: &mut Printer,
    shorts: &[Short],
    row: &[KindByte],
    piece: &mut [u8; PIECE],
) -> Result<(), NoMemory>
    requires { shorts.now ≡ map (λ k. short_text (name_of k)) all_kinds }
    ensures { OnOk result (printer.new ≡ printer.old ++ (spaced (map name_of row.now) ++ 10 ∷ [])) }
{
    put_names(printer, shorts, row, piece)?;
    printer.put(b"\n")
}

// Appends the lines of the rows.
fn put_rows(printer: &mut Printer, shorts: &[Short], layout: &Layout) -> Result<(), NoMemory>
    requires { shorts.now ≡ map (λ k. short_text (name_of k)) all_kinds }
    ensures { let L = layout.now in
        OnOk result (printer.new ≡ printer.old
        ++ ended (map spaced (rows_of L.width L.height (blank_names L)))) }
{
    let width = layout.width() as usize;
    let mut piece = [0u8; PIECE];
    let mut rest = layout.kinds();
    for _y in 0..layout.height() {
        let (row, after) = rest.split_at(width);
        put_row(printer, shorts, row, &mut piece)?;
        rest = after;
    }
    Ok(())
}

/// The text of the surface of a layout: the rules of circuits and the blank name of each site's
/// kind, with a legend.
pub(crate) fn print_layout(
    alloc: Global,
    layout: &Layout,
    legend: &Legend,
) -> Result<Vec<u8>, NoMemory>
    ensures text { IfOk result (λ v.
        v.items ≡ print_of (plain_manifest (layout_system layout.now)) (Some legend.now)) }
    ensures layout { OnOk result (IsLayout layout.now
        × ((layout.now.width < 2 ^ 32) × (layout.now.height < 2 ^ 32))) }
{
    let mut names = Names::new(alloc);
    let rules = circuit_rules(alloc, &mut names)?;
    let shorts = kind_shorts(alloc)?;
    let mut printer = Printer::with_room(alloc, SITE * layout.kinds().len() + FRONT)?;
    printer.put_legend(Some(legend))?;
    printer.put_geometry(GridKind::Square)?;
    printer.put_wrap(false)?;
    printer.put_rule_block(&names, &rules)?;
    printer.put_line(b"!START_INIT_STATE")?;
    put_rows(&mut printer, &shorts, layout)?;
    printer.put_line(b"!END_INIT_STATE")?;
    Ok(printer.into_bytes())
}
