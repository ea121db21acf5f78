// The numbers of all names of a colony.

/// The numbers of the names in their order: the frame by colour, then the cells by generation,
/// colour and code.
#[derive(Drop)]
pub struct Table {
    pub numbers: Vec<u32>,
    /// Where the cells of each generation begin.
    pub starts: Vec<usize>,
}
