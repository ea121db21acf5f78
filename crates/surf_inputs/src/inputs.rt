// Bits at the inputs of a surface.
ghost use Rattle.std.specs.Prelude.{◌-◌, ◌<◌, ◌^◌, ◌≡◌, ◌↔◌, ◌⊎◌, IfErr, IfNone, IfOk, IfSome, IsTrue, None, OnErr, OnOk, Some, false, length, slice_get, true};
ghost use Rattle.surf_inputs.specs.Inputs.{SetRefuses, bit_name, first_set, is_unset, set_fault, with_bit_names, with_bits, with_inputs, with_system};
ghost use Rattle.surf_lattice.specs.Grids.{IsInside, place};
ghost use Rattle.surf_manifest_lines.specs.Item.{is_name};
ghost use Rattle.surf_manifest.specs.Numbered.{with_start};
ghost use Rattle.surf_rules.specs.Names.{text_of, with_text};

use std::alloc::Global;
use surf_lattice::{Lattice, Site};
use surf_manifest::Manifest;
use surf_manifest_print::{Legend, Place};
use thiserror::Error;

/// Why the inputs of a surface can't be set.
#[derive(Debug, Drop, Error)]
pub enum SetError {
    /// There are so many bits, and so many inputs.
    #[error("found {found} bits for {wanted} inputs")]
    Length { found: u64, wanted: u64 },
    /// This is the first site in the legend's order that is outside or doesn't hold `?`.
    #[error("NotInput")]
    NotInput(Site),
    #[error("out of memory")]
    NoMemory,
}

// The number of the name at a site that is inside.
fn name_at(manifest: &Manifest, site: Site) -> u32
    requires { IsInside manifest.now.text.system.surface.grid site }
    ensures below { result < length manifest.now.names }
    ensures name { let S = manifest.now.text.system in
        slice_get S.start (place S.surface.grid site) ≡ Some (text_of manifest.now.names result) }
{
    let grid = manifest.grid();
    manifest.start()[site.y as usize * grid.width() as usize + site.x as usize]
}

fn is_inside(manifest: &Manifest, site: Site) -> bool
    ensures { IsTrue result ↔ IsInside manifest.now.text.system.surface.grid site }
{
    let grid = manifest.grid();
    site.x < grid.width() && site.y < grid.height()
}

// Whether a site is inside and holds `?`.
fn is_unset(manifest: &Manifest, site: Site) -> bool
    ensures { result ≡ is_unset manifest.now.text.system site }
{
    is_inside(manifest, site) && manifest.names().text(name_at(manifest, site)) == b"?".as_slice()
}

// The site of the first place that is no unset input.
fn first_set(manifest: &Manifest, inputs: &[Place]) -> Option<Site>
    ensures none { IfNone result (first_set manifest.now.text.system inputs.now ≡ None) }
    ensures some { IfSome result (λ s.
        first_set manifest.now.text.system inputs.now ≡ Some (SetError.NotInput s)) }
{
    for place in inputs {
        if !is_unset(manifest, place.site) {
            return Some(place.site);
        }
    }
    None
}

// Puts the names of bits at the sites of places, which are inside.
fn put_bits(manifest: &mut Manifest, inputs: &[Place], bits: &[bool], zero: u32, one: u32)
    requires inside { first_set manifest.old.text.system inputs.now ≡ None }
    requires zero { slice_get manifest.old.names zero ≡ Some (bit_name false) }
    requires one { slice_get manifest.old.names one ≡ Some (bit_name true) }
    requires same { length bits.now ≡ length inputs.now }
    ensures { let S = manifest.old.text.system in
        manifest.new ≡ with_start manifest.old (with_bits S.surface.grid S.start inputs.now bits.now) }
{
    for (i, place) in inputs.iter().enumerate() {
        manifest.put(place.site, if bits[i] { one } else { zero });
    }
}

fn intern(manifest: &mut Manifest, bytes: &[u8]) -> Result<u32, SetError>
    requires name { is_name bytes.now ≡ true }
    requires room { length manifest.old.names < 2 ^ 32 - 1 }
    ensures found { IfOk result (λ k. slice_get manifest.new.names k ≡ Some bytes.now) }
    ensures grown { OnOk result
        (manifest.new ≡ record manifest.old { names = with_text manifest.old.names bytes.now }) }
    ensures err { OnErr result (manifest.new ≡ manifest.old) }
    ensures cause { IfErr result (λ e. e ≡ SetError.NoMemory) }
{
    manifest.intern(bytes).map_err(|_| SetError::NoMemory)
}

/// Puts `0` or `1` by the bits at the legend's inputs, in order.
///
/// The manifest has fewer than 2^32 - 2 names. `Length` exactly where there are not as many bits as
/// inputs; then `NotInput` exactly where an input's site is outside or doesn't hold `?`. After a
/// refusal every site holds what it held; after `NoMemory` the name `0` may have been added, and
/// after `Ok` the names `0` and `1` are there. The manifest takes what memory it needs by itself.
pub fn set_inputs(
    _alloc: Global,
    manifest: &mut Manifest,
    legend: &Legend,
    bits: &[bool],
) -> Result<(), SetError>
    requires room { length manifest.old.names < 2 ^ 32 - 2 }
    ensures set { OnOk result (manifest.new.text
        ≡ with_system manifest.old.text (with_inputs manifest.old.text.system legend.now bits.now)) }
    ensures sound { OnOk result (set_fault manifest.old.text.system legend.now bits.now ≡ None) }
    ensures refused { IfErr result
        (SetRefuses (set_fault manifest.old.text.system legend.now bits.now)) }
    ensures kept { OnErr result (manifest.new.text ≡ manifest.old.text) }
    ensures unchanged { IfErr result (λ e.
        (e ≡ SetError.NoMemory → ⊥) → manifest.new ≡ manifest.old) }
    ensures names { OnOk result (manifest.new.names ≡ with_bit_names manifest.old.names) }
    ensures left { OnErr result ((manifest.new ≡ manifest.old)
        ⊎ (manifest.new ≡ record manifest.old {
          names = with_text manifest.old.names (bit_name false);
        })) }
{
    let inputs = legend.inputs.as_slice();
    if bits.len() != inputs.len() {
        return Err(SetError::Length {
            found: bits.len() as u64,
            wanted: inputs.len() as u64,
        });
    }
    if let Some(site) = first_set(manifest, inputs) {
        return Err(SetError::NotInput(site));
    }
    let zero = intern(manifest, b"0")?;
    let one = intern(manifest, b"1")?;
    put_bits(manifest, inputs, bits, zero, one);
    Ok(())
}
