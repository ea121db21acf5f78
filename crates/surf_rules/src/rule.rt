// Rules over the numbers of names.
ghost use Rattle.std.specs.Prelude.{◌≡◌, is_some};

/// A rule over the numbers of names: `left -> left_after` at one site, or
/// `left + right -> left_after + right_after` at two neighbouring ones.
/// The rate is in millionths.
#[derive(Clone, Copy, Debug, PartialEq, Eq)]
pub struct Rule {
    pub rate: u64,
    pub left: u32,
    pub right: Option<u32>,
    pub left_after: u32,
    pub right_after: Option<u32>,
    pub ghost paired: { is_some right ≡ is_some right_after },
}
