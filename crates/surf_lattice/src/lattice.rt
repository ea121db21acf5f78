// The trait of grids.
ghost use Rattle.std.specs.Prelude.{◌≡◌, ◌<◌, ◌+◌, ◌++◌, [], IsTrue, ◌↔◌, length};
ghost use Rattle.std.specs.Option.{option_to_list};
ghost use Rattle.surf_lattice.specs.Grids.{Grid, IsGrid, IsInside, Adjacent, degree, neighbour, neighbours, colours, colour, is_coloured};

use crate::Site;
use smallvec::SmallVec;
use std::alloc::Global;

/// A grid of sites. No call takes memory.
pub trait Lattice {
    /// The grid that it is.
    ghost grid: { Self → Grid };

    /// The number of columns.
    fn width(&self) -> u32
        ensures side { result ≡ (grid self.now).width }
        ensures sides { IsGrid (grid self.now) };

    /// The number of rows.
    fn height(&self) -> u32
        ensures side { result ≡ (grid self.now).height }
        ensures sides { IsGrid (grid self.now) };

    /// The number of directions: 4 on square grids, 6 on hexagonal ones.
    fn degree(&self) -> u32
        ensures { result ≡ degree (grid self.now).kind };

    /// The neighbour in a direction, if there is one.
    fn neighbour(&self, site: Site, direction: u32) -> Option<Site>
        requires inside { IsInside (grid self.now) site }
        requires direction { direction < degree (grid self.now).kind }
        ensures { result ≡ neighbour (grid self.now) site direction };

    /// Whether the colours of near sites differ: always where the sides are not joined, and else
    /// where both are multiples of the number of colours.
    fn is_coloured(&self) -> bool
        ensures { result ≡ is_coloured (grid self.now) };

    /// Whether the second site is a neighbour of the first.
    fn is_adjacent(&self, first: Site, second: Site) -> bool
        requires first { IsInside (grid self.now) first }
        requires second { IsInside (grid self.now) second }
        ensures { IsTrue result ↔ Adjacent (grid self.now) first second }
    {
        for direction in 0..self.degree() {
            if self.neighbour(first, direction) == Some(second) {
                return true;
            }
        }
        false
    }

    /// The neighbours that exist, in the order of directions. A site outside has none.
    fn neighbours(&self, alloc: Global, site: Site) -> SmallVec<Site, 6, Global>
        ensures inside { IsInside (grid self.now) site → result.items
            ≡ neighbours (grid self.now) site }
        ensures outside { (IsInside (grid self.now) site → ⊥) → result.items ≡ [] }
    {
        let mut found = SmallVec::new(alloc);
        if site.x >= self.width() || site.y >= self.height() {
            return found;
        }
        for direction in 0..self.degree() {
            push_some(&mut found, self.neighbour(site, direction));
        }
        found
    }

    /// The number of colours, one more than the directions.
    fn colours(&self) -> u32
        ensures { result ≡ colours (grid self.now) }
    {
        self.degree() + 1
    }

    /// The colour of a site, inside or not, below the number of colours.
    fn colour(&self, site: Site) -> u32
        ensures { result ≡ colour (grid self.now) site }
    {
        let sum = u64::from(site.x) + 2 * u64::from(site.y);
        (sum % u64::from(self.colours())) as u32
    }
}

// Adds a site, where there is one. The room is inline, so that no memory is taken.
fn push_some(found: &mut SmallVec<Site, 6, Global>, site: Option<Site>)
    requires room { length found.old.items < 6 }
    requires inline { found.old.capacity ≡ 6 }
    ensures items { found.new.items ≡ found.old.items ++ option_to_list site }
    ensures inline { found.new.capacity ≡ 6 }
{
    if let Some(site) = site {
        found.push_reserved(site);
    }
}
