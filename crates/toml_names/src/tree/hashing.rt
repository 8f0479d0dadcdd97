//! How names are hashed: names that collide are found only by who knows the key (docs/DECISIONS.md, Shapes).
use std::hash::{BuildHasher, DefaultHasher, Hasher};

/// SipHash with a key of its own: the key is hashed before each name.
#[derive(Clone, Copy)]
pub struct NameHashing {
    key: u64,
}

impl NameHashing {
    /// Hashing with the key.
    pub(crate) fn keyed(key: u64) -> NameHashing {
        NameHashing { key }
    }
}

impl BuildHasher for NameHashing {
    ghost use Rattle.std.specs.Hash as fed;
    ghost use Rattle.std.specs.Hash.DefaultHasher as sip;
    ghost use Rattle.std.specs.Prelude.{fold};

    type Hasher = DefaultHasher;

    ghost build_hasher = { λ s. fold sip.write sip.initial (fed.u64 s.key) };

    fn build_hasher(&self) -> DefaultHasher {
        let mut hasher = DefaultHasher::new();
        hasher.write_u64(self.key);
        hasher
    }
}
