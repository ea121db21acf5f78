// Steps from a site in a direction.
ghost use Rattle.std.specs.Prelude.{◌≡◌, ◌<◌, true, false, Some};
ghost use Rattle.surf_lattice.specs.Grids.{shift_x, shift_y, moved, site_from};
ghost use Rattle.surf_lattice.specs.Shifts.{shift_of};

use crate::Site;

// What a direction does to a coordinate.
#[derive(Clone, Copy)]
enum Shift {
    Back,
    Stay,
    Ahead,
}

// What a direction does to both coordinates.
fn shifts(direction: u32) -> (Shift, Shift)
    ensures x { shift_of result.0 ≡ shift_x direction }
    ensures y { shift_of result.1 ≡ shift_y direction }
{
    match direction {
        0 => (Shift::Back, Shift::Stay),
        1 => (Shift::Ahead, Shift::Stay),
        2 => (Shift::Stay, Shift::Back),
        3 => (Shift::Stay, Shift::Ahead),
        4 => (Shift::Back, Shift::Back),
        _ => (Shift::Ahead, Shift::Ahead),
    }
}

// A coordinate after a shift, if it stays on the side.
fn plain(shift: Shift, x: u32, side: u32) -> Option<u32>
    requires { x < side }
    ensures { result ≡ moved false side x (shift_of shift) }
{
    match shift {
        Shift::Back if x > 0 => Some(x - 1),
        Shift::Back => None,
        Shift::Stay => Some(x),
        Shift::Ahead if x + 1 < side => Some(x + 1),
        Shift::Ahead => None,
    }
}

// A coordinate after a shift on a side whose ends are joined.
fn joined(shift: Shift, x: u32, side: u32) -> u32
    requires { x < side }
    ensures { moved true side x (shift_of shift) ≡ Some result }
{
    match shift {
        Shift::Back if x == 0 => side - 1,
        Shift::Back => x - 1,
        Shift::Stay => x,
        Shift::Ahead if x + 1 == side => 0,
        Shift::Ahead => x + 1,
    }
}

/// The neighbour in a direction where the sides are not joined.
pub fn plain_neighbour(width: u32, height: u32, site: Site, direction: u32) -> Option<Site>
    requires x { site.x < width }
    requires y { site.y < height }
    ensures { result ≡ site_from (moved false width site.x (shift_x direction))
        (moved false height site.y (shift_y direction)) }
{
    let (across, down) = shifts(direction);
    let x = plain(across, site.x, width)?;
    let y = plain(down, site.y, height)?;
    Some(Site { x, y })
}

/// The neighbour in a direction where the sides are joined.
pub fn joined_neighbour(width: u32, height: u32, site: Site, direction: u32) -> Site
    requires x { site.x < width }
    requires y { site.y < height }
    ensures { site_from (moved true width site.x (shift_x direction))
        (moved true height site.y (shift_y direction)) ≡ Some result }
{
    let (across, down) = shifts(direction);
    Site {
        x: joined(across, site.x, width),
        y: joined(down, site.y, height),
    }
}
