//! The names of a project, each with its number in order of first sight.
ghost use Rattle.std.specs.Prelude.{◌≡◌, ◌<◌, [], length, map, IfOk, IfSome, string_bytes};
ghost use Rattle.ck_tables.specs.NameList as spec;

use crate::facts::NameId;
use ck_base::OutOfMemory;
use indexmap::IndexSet;
use std::alloc::Global;
use std::marker::Model;

/// The names of a project. They are seen as the list of their bytes by their numbers.
#[derive(Drop)]
pub struct Names {
    known: IndexSet<String>,
}

impl Model for Names {
    ghost use Rattle.std.specs.Prelude.{List, ℕ, map, string_bytes};
    ghost use Rattle.ck_tables.specs.NameList.{AreDistinct};

    ghost Value = { List (List ℕ) };

    ghost view = { λ t. map string_bytes t.known.keys };

    ghost invariant = { λ t. AreDistinct (map string_bytes t.known.keys) };
}

impl Names {
    /// No names.
    #[tactic(auto, using(crate::proofs::NameLemmas::distinct_none))]
    pub fn new(alloc: Global) -> Names
        ensures { result ≡ [] }
    {
        Names {
            known: IndexSet::new(alloc),
        }
    }

    /// The number of a name, which is added where it is new. Names with the same bytes have the same number, and others
    /// have others.
    pub fn number(&mut self, alloc: Global, text: &str) -> Result<NameId, OutOfMemory>
        ensures kept { spec.Extends self.old self.new }
        ensures name { IfOk result (λ id. spec.IsName self.new id.0 text.now) }
        ensures distinct { spec.AreDistinct self.new }
    {
        let number = match find(&self.known, text) {
            Some(number) => number,
            None => add(&mut self.known, String::from_str(alloc, text)?)?,
        };
        match u32::try_from(number) {
            Ok(number) => Ok(NameId(number)),
            Err(_) => Err(OutOfMemory),
        }
    }

    /// A name by its number.
    pub fn name(&self, id: NameId) -> &str
        requires { id.0 < length self.now }
        ensures name { spec.IsName self.now id.0 result.now }
        ensures distinct { spec.AreDistinct self.now }
    {
        match self.known.get_index(id.0 as usize) {
            Some(name) => name.as_str(),
            None => "",
        }
    }
}

/// The number of a name, where it is known.
#[tactic(auto, using(crate::proofs::NameLemmas::found_name))]
fn find(known: &IndexSet<String>, text: &str) -> Option<usize>
    ensures { IfSome result (λ i. spec.IsName (map string_bytes known.now.keys) i text.now) }
{
    match known.get_full(text) {
        Some((number, _)) => Some(number),
        None => None,
    }
}

/// The number of a name, which goes last where it is new.
#[tactic(auto, using(crate::proofs::NameLemmas::stored_name))]
fn add(known: &mut IndexSet<String>, name: String) -> Result<usize, OutOfMemory>
    requires { spec.AreDistinct (map string_bytes known.old.keys) }
    ensures kept { spec.Extends (map string_bytes known.old.keys) (map string_bytes known.new.keys) }
    ensures name { IfOk result (λ i. spec.IsName (map string_bytes known.new.keys) i (string_bytes name)) }
    ensures distinct { spec.AreDistinct (map string_bytes known.new.keys) }
{
    let (number, _) = known.insert_full(name)?;
    Ok(number)
}
