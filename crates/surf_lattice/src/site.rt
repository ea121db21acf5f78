/// A site of a grid: `x` counts to the right and `y` downwards, both from 0.
#[derive(Clone, Copy, Debug, Default, PartialEq, Eq)]
pub struct Site {
    pub x: u32,
    pub y: u32,
}

/// Whether a site has four neighbours or six.
#[derive(Clone, Copy, Debug, PartialEq, Eq)]
pub enum GridKind {
    Square,
    Hex,
}
