// The weights of sites: the sums of the rates of the events that begin there.
ghost use Rattle.std.specs.Prelude.{◌≡◌, ◌↔◌, ◌≤◌, ◌<◌, ◌*◌, ◌+◌, ℕ, IsTrue, Some, None, flat_map, length, nat_eq, slice_get, sum_by};
ghost use Rattle.surf_lattice.specs.declared.site.Site.{Site};
ghost use Rattle.surf_lattice.specs.Grids.{IsInside, Adjacent, degree, directions, neighbour, place};
ghost use Rattle.surf_world.specs.Choices.{enabled_test, events_on, events_toward};
ghost use Rattle.surf_world.specs.Picks.{rate_of, weight_of};
ghost use Rattle.surf_world.specs.Inner.{IsInner};

use crate::World;
use surf_lattice::{Lattice, Site};

impl<L: Lattice> World<L> {
    /// The sum of the rates of the enabled events whose first site is this one, in millionths. No
    /// event begins at a site outside.
    pub fn weight_at(&self, site: Site) -> u128
        ensures sum { result ≡ weight_of self.now.surface self.now.names site }
        ensures outside { (IsInside self.now.surface.grid site → ⊥) → result ≡ 0 }
        ensures bound { result ≤ 7 * (1048576 * 1000000000000) }
    {
        if !self.contains(site) {
            return 0;
        }
        u128::from(self.alone_weight(site) + self.pairs_weight(site))
    }

    /// The sum of the rates of the events at this site alone.
    pub(crate) fn alone_weight(&self, site: Site) -> u64
        requires { IsInside self.now.surface.grid site }
        ensures sum { result ≡ sum_by (rate_of self.now.surface)
            (events_on (enabled_test nat_eq self.now.surface self.now.names)
            (length self.now.surface.rules) site None) }
        ensures bound { result ≤ 1048576 * 1000000000000 }
    {
        let book = self.book();
        // the book tells how many rules it has at most, and of which rates
        let _rule_count = book.len();
        book.alone_sum(self.at(site))
    }

    /// The sum of the rates of the events from a site of one name to a site of another.
    pub(crate) fn pair_weight(&self, name: u32, other: u32) -> u64
        ensures sum { (p : Site) (q : Site) → Adjacent self.now.surface.grid p q
            → slice_get self.now.names (place self.now.surface.grid p) ≡ Some name
            → slice_get self.now.names (place self.now.surface.grid q) ≡ Some other
            → result ≡ sum_by (rate_of self.now.surface)
            (events_on (enabled_test nat_eq self.now.surface self.now.names)
            (length self.now.surface.rules) p (Some q)) }
        ensures bound { result ≤ 1048576 * 1000000000000 }
    {
        let book = self.book();
        let _rule_count = book.len();
        book.pair_sum(name, other)
    }

    // The sum of the rates of the events of two sites that begin here: 0 where no pair begins
    // with the name.
    fn pairs_weight(&self, site: Site) -> u64
        requires { IsInside self.now.surface.grid site }
        ensures sum { result ≡ sum_by (rate_of self.now.surface)
            (flat_map (λ i. events_toward (enabled_test nat_eq self.now.surface self.now.names)
            (length self.now.surface.rules) site (neighbour self.now.surface.grid site i))
            (directions self.now.surface.grid)) }
        ensures bound { result ≤ 6 * (1048576 * 1000000000000) }
    {
        if !self.book().is_paired(self.at(site)) {
            return 0;
        }
        if self.is_inner(site) {
            return self.inner_weight(site);
        }
        self.border_weight(site)
    }

    // The same sum, direction by direction.
    fn border_weight(&self, site: Site) -> u64
        requires { IsInside self.now.surface.grid site }
        ensures sum { result ≡ sum_by (rate_of self.now.surface)
            (flat_map (λ i. events_toward (enabled_test nat_eq self.now.surface self.now.names)
            (length self.now.surface.rules) site (neighbour self.now.surface.grid site i))
            (directions self.now.surface.grid)) }
        ensures bound { result ≤ 6 * (1048576 * 1000000000000) }
    {
        let mut sum = 0;
        for direction in 0..self.grid().degree() {
            sum += self.weight_toward(site, direction);
        }
        sum
    }

    fn weight_toward(&self, site: Site, direction: u32) -> u64
        requires site { IsInside self.now.surface.grid site }
        requires direction { direction < degree self.now.surface.grid.kind }
        ensures sum { result ≡ sum_by (rate_of self.now.surface)
            (events_toward (enabled_test nat_eq self.now.surface self.now.names)
            (length self.now.surface.rules) site (neighbour self.now.surface.grid site direction)) }
        ensures bound { result ≤ 1048576 * 1000000000000 }
    {
        match self.grid().neighbour(site, direction) {
            Some(second) => self.pair_weight(self.at(site), self.at(second)),
            None => 0,
        }
    }

    // Whether a site is at no border, so that its neighbours stand one place or one row away.
    fn is_inner(&self, site: Site) -> bool
        ensures { IsTrue result ↔ IsInner self.now.surface.grid site }
    {
        site.x > 0
            && site.y > 0
            && site.x < self.grid().width() - 1
            && site.y < self.grid().height() - 1
    }

    // The same sum at a site that is at no border, by the places of its neighbours.
    fn inner_weight(&self, site: Site) -> u64
        requires { IsInner self.now.surface.grid site }
        ensures sum { result ≡ sum_by (rate_of self.now.surface)
            (flat_map (λ i. events_toward (enabled_test nat_eq self.now.surface self.now.names)
            (length self.now.surface.rules) site (neighbour self.now.surface.grid site i))
            (directions self.now.surface.grid)) }
        ensures bound { result ≤ 6 * (1048576 * 1000000000000) }
    {
        // the places of all neighbours are among those of the sites
        let _site_count = self.site_count();
        let place = self.place(site);
        let width = self.grid().width() as usize;
        let name = self.name_at(place);
        let west = self.pair_weight(name, self.name_at(place - 1));
        let east = self.pair_weight(name, self.name_at(place + 1));
        let north = self.pair_weight(name, self.name_at(place - width));
        let south = self.pair_weight(name, self.name_at(place + width));
        if self.grid().degree() == 4 {
            return west + east + north + south;
        }
        let north_west = self.pair_weight(name, self.name_at(place - width - 1));
        let south_east = self.pair_weight(name, self.name_at(place + width + 1));
        west + east + north + south + north_west + south_east
    }
}
