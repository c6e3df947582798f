//! The seed of the hashers of a document's maps.
ghost use Rattle.std.specs.Prelude.{◌≡◌};
ghost use Rattle.keep_index_store.specs.Seeds.{seed_after, seed_of};

use std::hash::{BuildHasher, DefaultHasher, FoldHasher, Hasher};

/// Makes the hashers of the maps of one document. Each begins with a seed that all of the document's text goes into, so
/// keys that collide under one seed do not collide in another document.
#[derive(Clone, Copy)]
pub struct Seed {
    start: FoldHasher,
}

impl Seed {
    /// The seed that a text gives: its SipHash-1-3.
    pub fn of(text: &str) -> Seed
        ensures { result ≡ seed_of text.now }
    {
        let none = Seed {
            start: FoldHasher::default(),
        };
        none.after(text)
    }

    /// The seed that a text gives in which these lines are new, where this one is that of the text before: this one,
    /// and the SipHash-1-3 of the lines.
    pub fn after(self, lines: &str) -> Seed
        ensures { result ≡ seed_after self lines.now }
    {
        let mut hash = DefaultHasher::new();
        hash.write(lines.as_bytes());
        let mut start = self.start;
        start.write_u64(hash.finish());
        Seed { start }
    }
}

impl BuildHasher for Seed {
    type Hasher = FoldHasher;

    ghost build_hasher = { λ seed. seed.start };

    fn build_hasher(&self) -> FoldHasher {
        self.start
    }
}
