//! The text of a key as it is stored.
ghost use Rattle.std.specs.Prelude.{◌≡◌, ◌≤◌, [], IfOk, IsOk, bytes_eq, length};
ghost use Rattle.std.specs.Cmp.{partial_equiv_from_equiv};
ghost use Rattle.std.specs.Cmp.Lexicographic.{bytes_decides, nat_list_eq_equiv};
ghost use Rattle.std.specs.Hash as fed;
ghost use Rattle.std.proofs.Common.{ap};

use arrayvec::ArrayString;
use indexmap::Equivalent;
use std::alloc::{AllocError, Global};
use std::hash::{Hash, Hasher};
use std::marker::Model;

/// How many bytes a key has at most that is stored in place: few keys that people write are longer.
const MOST_IN_PLACE: usize = 16;

/// The two forms of a key's text.
#[derive(Drop)]
pub enum Form {
    /// In place.
    Short(ArrayString<MOST_IN_PLACE>),
    /// In memory of its own.
    Long(String),
}

/// A key, decoded. It takes memory only if it is long.
#[derive(Drop)]
pub struct StoredKey {
    form: Form,
}

impl Model for StoredKey {
    ghost use Rattle.std.specs.Prelude.{ℕ, List};
    ghost use Rattle.keep_index_store.specs.StoredKeys.{text_in};

    ghost Value = { List ℕ };

    ghost view = { λ key. text_in key.form };
}

impl StoredKey {
    /// The empty key. It takes no memory.
    pub fn empty() -> StoredKey
        ensures { result ≡ [] }
    {
        StoredKey {
            form: Form::Short(ArrayString::new()),
        }
    }

    /// Stores a text. The only error is out of memory, and a short text takes none.
    pub fn of(alloc: Global, text: &str) -> Result<StoredKey, AllocError>
        ensures stored { IfOk result (λ key. key ≡ text.now) }
        ensures short { length text.now ≤ 16 → IsOk result }
    {
        let form = match ArrayString::from(text) {
            Ok(short) => Form::Short(short),
            Err(_) => Form::Long(String::from_str(alloc, text)?),
        };
        Ok(StoredKey { form })
    }

    /// The text.
    pub fn as_str(&self) -> &str
        ensures { result.now ≡ self.now }
    {
        match &self.form {
            Form::Short(text) => text.as_str(),
            Form::Long(text) => text.as_str(),
        }
    }
}

impl PartialEq for StoredKey {
    ghost eq = { bytes_eq };

    ghost laws = { partial_equiv_from_equiv nat_list_eq_equiv };

    fn eq(&self, other: &Self) -> bool {
        self.as_str() == other.as_str()
    }
}

impl Eq for StoredKey {
    ghost laws = { nat_list_eq_equiv };
}

impl Hash for StoredKey {
    ghost hash_input = { fed.str };

    ghost respects_eq = { λ x y h. ap fed.str ((bytes_decides x y).0 h) };

    fn hash<H: Hasher>(&self, state: &mut H) {
        self.as_str().hash(state);
    }
}

/// A text stands for the key that it is.
impl Equivalent<StoredKey> for &str {
    ghost equivalent = { λ q key. bytes_eq q.now key };

    ghost respects_hash = { λ q key h. ap fed.str ((bytes_decides q.now key).0 h) };

    ghost respects_eq = { λ q x y. nat_list_eq_equiv.congr q.now x y };

    fn equivalent(&self, key: &StoredKey) -> bool {
        *self == key.as_str()
    }
}
