// Events: one use of a rule.
use surf_lattice::Site;

/// One use of a rule: its number, and the one or two sites that it is used at, in order.
#[derive(Clone, Copy, Debug, PartialEq, Eq)]
pub struct Event {
    pub rule: u32,
    pub first: Site,
    pub second: Option<Site>,
}
