// Worlds: a grid, its rules and what each site holds.
ghost use Rattle.std.specs.Prelude.{◌≡◌, ◌↔◌, ◌≤◌, ◌<◌, ◌*◌, IsTrue, IfOk, Some, length, map, slice_get};
ghost use Rattle.surf_lattice.specs.Grids.{IsInside, place, site_at, sites};
ghost use Rattle.surf_world.specs.Systems.{Holds, FitsSecond, Enabled, after};
ghost use Rattle.surf_world.specs.Worlds.{rule_of};

use crate::Event;
use std::alloc::Global;
use std::marker::Model;
use surf_base::NoMemory;
use surf_lattice::{Lattice, Site};
use surf_rules::RuleBook;

/// A grid, its rules, and the number of the name that each site holds: at most 33,554,432 sites.
/// No call but `new` takes memory.
#[derive(Drop)]
pub struct World<L: Lattice> {
    grid: L,
    book: RuleBook,
    names: Vec<u32>,
}

impl<L: Lattice> Model for World<L> {
    ghost use Rattle.std.specs.Prelude.{◌≡◌, ◌*◌, ◌≤◌, map, length};
    ghost use Rattle.surf_world.specs.Worlds.{Placed, rule_of};

    ghost Value = { Placed };

    ghost view = { λ w.
        record {
          surface = record { grid = L.grid w.grid; rules = map rule_of w.book };
          names = w.names.items;
        } };

    ghost invariant = { λ w.
        (length w.names.items ≡ (L.grid w.grid).width * (L.grid w.grid).height)
        × (length w.names.items ≤ 33554432) × (length w.book ≤ 1048576) };
}

impl<L: Lattice> World<L> {
    /// The world of a grid and rules, with one number of a name for each site in row-major
    /// order. The arguments are given up on `NoMemory`.
    pub fn new(
        alloc: Global,
        grid: L,
        book: RuleBook,
        start: Vec<u32>,
    ) -> Result<World<L>, NoMemory>
        requires sites { length start.items ≡ (L.grid grid).width * (L.grid grid).height }
        requires site_count { length start.items ≤ 33554432 }
        ensures { IfOk result (λ w. w
            ≡ record {
              surface = record { grid = L.grid grid; rules = map rule_of book };
              names = start.items;
            }) }
    {
        let _alloc = alloc;
        // the book tells how many rules it has at most
        let _rule_count = book.len();
        Ok(World {
            grid,
            book,
            names: start,
        })
    }

    /// The grid.
    pub fn grid(&self) -> &L
        ensures { L.grid result.now ≡ self.now.surface.grid }
    {
        &self.grid
    }

    /// The rules.
    pub fn book(&self) -> &RuleBook
        ensures rules { map rule_of result.now ≡ self.now.surface.rules }
        ensures few { length result.now ≤ 1048576 }
    {
        &self.book
    }

    /// How many sites there are.
    pub fn site_count(&self) -> usize
        ensures names { result ≡ length self.now.names }
        ensures sides { result ≡ self.now.surface.grid.width * self.now.surface.grid.height }
        ensures bound { result ≤ 33554432 }
    {
        self.names.len()
    }

    /// The place of a site in row-major order.
    pub fn place(&self, site: Site) -> usize
        requires { IsInside self.now.surface.grid site }
        ensures place { result ≡ place self.now.surface.grid site }
        ensures within { result < length self.now.names }
    {
        site.y as usize * self.grid.width() as usize + site.x as usize
    }

    /// The site at a place in row-major order.
    pub fn site_at(&self, place: usize) -> Site
        requires { place < self.now.surface.grid.width * self.now.surface.grid.height }
        ensures site { result ≡ site_at self.now.surface.grid place }
        ensures inside { IsInside self.now.surface.grid result }
        ensures listed { slice_get (sites self.now.surface.grid) place ≡ Some result }
    {
        let width = self.grid.width() as usize;
        Site {
            x: (place % width) as u32,
            y: (place / width) as u32,
        }
    }

    /// The name at a site.
    pub fn at(&self, site: Site) -> u32
        requires { IsInside self.now.surface.grid site }
        ensures { slice_get self.now.names (place self.now.surface.grid site) ≡ Some result }
    {
        let place = self.place(site);
        self.names[place]
    }

    /// The name at a place in row-major order.
    pub fn name_at(&self, place: usize) -> u32
        requires { place < length self.now.names }
        ensures { slice_get self.now.names place ≡ Some result }
    {
        self.names[place]
    }

    // Whether a site is one of the grid.
    pub(crate) fn contains(&self, site: Site) -> bool
        ensures { IsTrue result ↔ IsInside self.now.surface.grid site }
    {
        site.x < self.grid.width() && site.y < self.grid.height()
    }

    fn holds(&self, site: Site, name: u32) -> bool
        ensures { IsTrue result ↔ Holds self.now.surface.grid self.now.names site name }
    {
        self.contains(site) && self.at(site) == name
    }

    fn fits_second(&self, first: Site, right: Option<u32>, second: Option<Site>) -> bool
        requires { IsInside self.now.surface.grid first }
        ensures { IsTrue result
            ↔ FitsSecond self.now.surface.grid self.now.names first right second }
    {
        match (right, second) {
            (None, None) => true,
            (Some(name), Some(site)) => {
                self.holds(site, name) && self.grid.is_adjacent(first, site)
            }
            _ => false,
        }
    }

    /// Whether the event may happen: its rule is there and has a rate above 0, its sites are
    /// inside, as many as the rule asks for and neighbours, and they hold the left side in order.
    pub fn is_enabled(&self, event: &Event) -> bool
        ensures { IsTrue result ↔ Enabled self.now.surface self.now.names event.now }
    {
        if event.rule >= self.book.len() {
            return false;
        }
        let rule = self.book.rule(event.rule);
        rule.rate > 0
            && self.holds(event.first, rule.left)
            && self.fits_second(event.first, rule.right, event.second)
    }

    /// Changes the sites of an event to the right side of its rule, and no other.
    pub fn apply(&mut self, event: &Event)
        requires { Enabled self.old.surface self.old.names event.now }
        ensures { self.new
            ≡ record self.old { names = after self.old.surface self.old.names event.now } }
    {
        let rule = *self.book.rule(event.rule);
        let first = self.place(event.first);
        match (rule.right_after, event.second) {
            (Some(right), Some(second)) => {
                let second = self.place(second);
                self.names[first] = rule.left_after;
                self.names[second] = right;
            }
            _ => self.names[first] = rule.left_after,
        }
    }
}
