// The rule of a header, and the torus that may stand behind it.
ghost use Rattle.std.specs.Prelude.{◌≡◌, ◌<◌, suc, IfErr, IfOk, MatchOption, None, Some};
ghost use Rattle.surf_lattice.specs.Grids.{degree};
ghost use Rattle.surf_rle.specs.Said.{header_by, header_rule_by};
ghost use Rattle.surf_rle.specs.Tori.{header_rule_of, holds_box, is_side, sides_of, torus_fault};

use crate::header::Header;
use crate::rule::{RuleText, read_rule, text_behind};
use surf_auto::SourceError;
use surf_base::read_below;
use surf_lattice::GridKind;
use surf_text::cut;

/// The sides of a torus.
#[derive(Clone, Copy, Debug)]
pub struct Sides {
    pub width: u32,
    pub height: u32,
}

/// A rule, and the sides of its torus where it has one.
#[derive(Clone, Copy, Debug)]
pub struct HeaderRule<'a> {
    pub rule: RuleText<'a>,
    pub torus: Option<Sides>,
}

// The sides that a text spells with their T.
fn read_sides(text: &[u8]) -> Option<Sides>
    ensures { result ≡ sides_of text.now }
{
    let sides = text_behind(b'T', b't', text)?;
    let (first, second) = cut(sides, b',');
    let width = read_below(1 << 32, first)?;
    let height = read_below(1 << 32, second?)?;
    Some(Sides { width, height })
}

/// The rule that a header's text spells.
pub fn read_header_rule(text: &[u8]) -> Option<HeaderRule<'_>>
    ensures { MatchOption result (header_rule_of text.now ≡ None)
        (λ r. header_rule_of text.now ≡ Some (header_rule_by r)) }
{
    let (form, rest) = cut(text, b':');
    let rule = read_rule(form)?;
    let torus = match rest {
        Some(sides) => Some(read_sides(sides)?),
        None => None,
    };
    Some(HeaderRule { rule, torus })
}

// Whether a side is not 0, a multiple of the number of colours, and not below a side of the box.
fn is_side(colours: u32, least: u32, side: u32) -> bool
    requires { 0 < colours }
    ensures { result ≡ is_side colours least side }
{
    side > 0 && side % colours == 0 && least <= side
}

fn holds_box(kind: GridKind, header: &Header<'_>, sides: Sides) -> bool
    ensures { result ≡ holds_box kind (header_by header.now) sides }
{
    let colours = match kind {
        GridKind::Square => 5,
        GridKind::Hex => 7,
    };
    is_side(colours, header.width, sides.width) && is_side(colours, header.height, sides.height)
}

/// Refuses the sides of a torus that the header of a line has, where the colours of its grid do not
/// close on them or they do not hold the box.
pub fn check_torus(
    line: u64,
    kind: GridKind,
    header: &Header<'_>,
    torus: Option<Sides>,
) -> Result<(), SourceError>
    ensures ok { IfOk result (λ _. torus_fault line kind (header_by header.now) torus ≡ None) }
    ensures refused { IfErr result
        (λ f. torus_fault line kind (header_by header.now) torus ≡ Some f) }
{
    match torus {
        Some(sides) if !holds_box(kind, header, sides) => Err(SourceError::TorusSize(line)),
        _ => Ok(()),
    }
}
