//! Typedef names that are known before a file's tokens are read.
ghost use Rattle.std.specs.Prelude.{◌≡◌, [], OnOk, OnErr};
ghost use Rattle.ck_grammar.specs.Words.{is_one_of};
ghost use Rattle.ck_readers.specs.NameSet.{with_name};

use ck_base::OutOfMemory;
use indexmap::IndexSet;
use std::alloc::Global;
use std::marker::Model;

/// Typedef names (C99 6.7.7). They are seen as the list of their bytes, each once, in the order in which they were
/// added.
#[derive(Drop)]
pub struct TypeNames {
    known: IndexSet<Vec<u8>>,
}

impl Model for TypeNames {
    ghost use Rattle.std.specs.Prelude.{List, ℕ, map};

    ghost Value = { List (List ℕ) };

    ghost view = { λ t. map (λ name. name.items) t.known.keys };
}

impl TypeNames {
    /// No names.
    pub fn new(alloc: Global) -> TypeNames
        ensures { result ≡ [] }
    {
        TypeNames {
            known: IndexSet::new(alloc),
        }
    }

    /// Adds a name; one that is there stays where it is. Where memory runs out the names are as they were.
    pub fn add(&mut self, alloc: Global, name: &str) -> Result<(), OutOfMemory>
        ensures added { OnOk result (self.new ≡ with_name self.old name.now) }
        ensures kept { OnErr result (self.new ≡ self.old) }
    {
        let bytes = Vec::from_slice(alloc, name.as_bytes())?;
        self.known.insert_full(bytes)?;
        Ok(())
    }

    /// Whether a name is among them.
    pub fn contains(&self, name: &[u8]) -> bool
        ensures { result ≡ is_one_of self.now name.now }
    {
        self.known.contains(name)
    }
}
