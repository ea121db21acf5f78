// The events that may happen, by their first site and rate.
ghost use Rattle.std.specs.Prelude.{◌≡◌, ◌↔◌, ◌≤◌, ◌<◌, ◌*◌, IsTrue, Some, None, Ok, Err, [], All, length, map, sum_by, nat_eq};
ghost use Rattle.surf_lattice.specs.Grids.{IsInside, Adjacent, degree, neighbour};
ghost use Rattle.surf_world.specs.Systems.{Stuck};
ghost use Rattle.surf_world.specs.Choices.{enabled_test, event_of, events_on, events_toward, choices_at};
ghost use Rattle.surf_world.specs.Picks.{rate_at, rate_of, pick, weight_of, Picked};

use crate::{Event, World};
use surf_lattice::{Lattice, Site};

impl<L: Lattice> World<L> {
    // The rules that are enabled at this site alone.
    fn rules_at(&self, site: Site) -> &[u32]
        requires { IsInside self.now.surface.grid site }
        ensures events { events_on (enabled_test nat_eq self.now.surface self.now.names)
            (length self.now.surface.rules) site None ≡ map (event_of site None) result.now }
        ensures known { All (λ k. k < length self.now.surface.rules) result.now }
        ensures few { length result.now ≤ 1048576 }
    {
        self.book().alone(self.at(site))
    }

    // The rules that are enabled at these two sites in this order.
    fn rules_between(&self, first: Site, second: Site) -> &[u32]
        requires { Adjacent self.now.surface.grid first second }
        ensures events { events_on (enabled_test nat_eq self.now.surface self.now.names)
            (length self.now.surface.rules) first (Some second)
            ≡ map (event_of first (Some second)) result.now }
        ensures known { All (λ k. k < length self.now.surface.rules) result.now }
        ensures few { length result.now ≤ 1048576 }
    {
        self.book().pair(self.at(first), self.at(second))
    }

    // The first event of these rules, at these sites, at which the running sum of rates exceeds
    // r, or what is left of r behind them.
    fn nth_of(
        &self,
        numbers: &[u32],
        first: Site,
        second: Option<Site>,
        r: u128,
    ) -> Result<Event, u128>
        requires { All (λ k. k < length self.now.surface.rules) numbers.now }
        ensures { Picked (rate_of self.now.surface)
            (map (event_of first second) numbers.now) r result }
    {
        let book = self.book();
        let mut rest = r;
        for number in numbers {
            let rate = u128::from(book.rule(*number).rate);
            if rest < rate {
                return Ok(Event {
                    rule: *number,
                    first,
                    second,
                });
            }
            rest -= rate;
        }
        Err(rest)
    }

    // The event at this site alone that a number chooses, or what is left of the number.
    fn nth_alone(&self, site: Site, r: u128) -> Result<Event, u128>
        requires { IsInside self.now.surface.grid site }
        ensures { Picked (rate_of self.now.surface)
            (events_on (enabled_test nat_eq self.now.surface self.now.names)
            (length self.now.surface.rules) site None) r result }
    {
        let sum = u128::from(self.alone_weight(site));
        if r >= sum {
            return Err(r - sum);
        }
        self.nth_of(self.rules_at(site), site, None, r)
    }

    // The event of these two sites in this order that a number chooses, or what is left of it.
    fn nth_between(&self, first: Site, second: Site, r: u128) -> Result<Event, u128>
        requires { Adjacent self.now.surface.grid first second }
        ensures { Picked (rate_of self.now.surface)
            (events_on (enabled_test nat_eq self.now.surface self.now.names)
            (length self.now.surface.rules) first (Some second)) r result }
    {
        let sum = u128::from(self.pair_weight(self.at(first), self.at(second)));
        if r >= sum {
            return Err(r - sum);
        }
        self.nth_of(self.rules_between(first, second), first, Some(second), r)
    }

    fn nth_toward(&self, site: Site, direction: u32, r: u128) -> Result<Event, u128>
        requires site { IsInside self.now.surface.grid site }
        requires direction { direction < degree self.now.surface.grid.kind }
        ensures { Picked (rate_of self.now.surface)
            (events_toward (enabled_test nat_eq self.now.surface self.now.names)
            (length self.now.surface.rules) site
            (neighbour self.now.surface.grid site direction)) r result }
    {
        match self.grid().neighbour(site, direction) {
            Some(second) => self.nth_between(site, second, r),
            None => Err(r),
        }
    }

    /// The choice of this site at which the running sum of rates first exceeds a number:
    /// rules at the site alone come first, and then the directions in order. Where the number is
    /// below the site's weight, an event begins there, and so the site is inside.
    pub fn nth_at(&self, site: Site, r: u128) -> Event
        requires { r < weight_of self.now.surface self.now.names site }
        ensures { pick (rate_of self.now.surface)
            (choices_at nat_eq self.now.surface self.now.names site) r ≡ Some result }
    {
        let mut rest = match self.nth_alone(site, r) {
            Ok(event) => return event,
            Err(rest) => rest,
        };
        for direction in 0..self.grid().degree() {
            match self.nth_toward(site, direction, rest) {
                Ok(event) => return event,
                Err(left) => rest = left,
            }
        }
        unreachable!()
    }

    fn is_idle_toward(&self, site: Site, direction: u32) -> bool
        requires site { IsInside self.now.surface.grid site }
        requires direction { direction < degree self.now.surface.grid.kind }
        ensures { IsTrue result
            ↔ (events_toward (enabled_test nat_eq self.now.surface self.now.names)
            (length self.now.surface.rules) site (neighbour self.now.surface.grid site direction)
            ≡ []) }
    {
        match self.grid().neighbour(site, direction) {
            Some(second) => self.rules_between(site, second).is_empty(),
            None => true,
        }
    }

    // Whether no enabled event begins at this site.
    fn is_idle(&self, site: Site) -> bool
        requires { IsInside self.now.surface.grid site }
        ensures { IsTrue result ↔ (choices_at nat_eq self.now.surface self.now.names site ≡ []) }
    {
        if !self.rules_at(site).is_empty() {
            return false;
        }
        for direction in 0..self.grid().degree() {
            if !self.is_idle_toward(site, direction) {
                return false;
            }
        }
        true
    }

    /// Whether no event is enabled.
    pub fn is_stuck(&self) -> bool
        ensures { IsTrue result ↔ Stuck self.now.surface self.now.names }
    {
        for place in 0..self.site_count() {
            if !self.is_idle(self.site_at(place)) {
                return false;
            }
        }
        true
    }
}
