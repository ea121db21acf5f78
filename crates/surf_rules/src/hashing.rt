// What names are hashed with: a state that each byte of their text decides.
ghost use Rattle.std.specs.Prelude.{◌≡◌};
ghost use Rattle.surf_rules.specs.Hashing.{start_of};

use std::hash::{BuildHasher, DefaultHasher, FoldHasher, Hasher};

/// The state at which the hash of each name of a text begins.
#[derive(Clone, Copy)]
pub(crate) struct NameKey {
    start: FoldHasher,
}

impl NameKey {
    /// The state for the names of a text.
    pub(crate) fn new(source: &[u8]) -> NameKey
        ensures { result.start ≡ start_of source.now }
    {
        let mut digest = DefaultHasher::new();
        digest.write(source);
        let mut start = FoldHasher::default();
        start.write_u64(digest.finish());
        NameKey { start }
    }
}

impl BuildHasher for NameKey {
    type Hasher = FoldHasher;

    ghost build_hasher = { λ k. k.start };

    #[inline(always)]
    fn build_hasher(&self) -> FoldHasher {
        self.start
    }
}
