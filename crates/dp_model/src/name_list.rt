//! One list of names.
ghost use Rattle.std.specs.Prelude.{◌≡◌, [], ◌<◌, ◌^◌, ◌↔◌, IsTrue, IsNone, not, length, slice_get, IfOk};
ghost use Rattle.std.specs.Prelude.{OnOk, OnErr};
ghost use Rattle.std.specs.Option.{option_copied};
ghost use Rattle.dp_base.specs.Names.{is_name};
ghost use Rattle.dp_model.specs.Names.{IsNameList, has_name, place_of, with_name};

use dp_base::Memory;
use indexmap::IndexSet;
use std::alloc::Global;

/// Names in the order in which they were added, each of them once, and at most 2^26 of them.
/// Contracts see the list of their bytes.
#[derive(Drop)]
pub struct NameList {
    names: IndexSet<String>,
}

impl std::marker::Model for NameList {
    ghost use Rattle.std.specs.Prelude.{ℕ, List, map, string_bytes};
    ghost use Rattle.dp_model.specs.Names.{IsNameList};

    ghost Value = { List (List ℕ) };

    ghost view = { λ l. map string_bytes l.names.keys };

    ghost invariant = { λ l. IsNameList (map string_bytes l.names.keys) };
}

impl NameList {
    /// A list without names. It takes no memory.
    pub fn new(alloc: Global) -> NameList
        ensures { result ≡ [] }
    {
        NameList {
            names: IndexSet::new(alloc),
        }
    }

    /// What holds of every list of names. It does nothing.
    #[inline]
    pub fn invariant(&self)
        ensures { IsNameList self.now }
    {
        let _ = &self.names;
    }

    /// How many names it has.
    pub fn len(&self) -> u32
        ensures { result ≡ length self.now }
    {
        self.names.len() as u32
    }

    /// Appends a name, and answers whether it is new: a name that the list has stays as it is.
    /// After want of memory nothing is changed.
    pub fn add(&mut self, alloc: Global, name: &str) -> Result<bool, Memory>
        requires name { IsTrue (is_name name.now) }
        requires room { length self.old < 2 ^ 26 }
        ensures is_new { IfOk result (λ is_new. is_new ≡ not (has_name self.old name.now)) }
        ensures added { OnOk result (self.new ≡ with_name self.old name.now) }
        ensures err { OnErr result (self.new ≡ self.old) }
        ensures kept { IsNameList self.new }
    {
        let names = &mut self.names;
        let name = String::from_str(alloc, name)?;
        let is_new = names.insert(name)?;
        Ok(is_new)
    }

    /// The name at a place, or none where the list has no names.
    pub fn get(&self, place: u32) -> Option<&str>
        requires { 0 < length self.now → place < length self.now }
        ensures name { option_copied result ≡ slice_get self.now place }
        ensures none { IsNone result ↔ (self.now ≡ []) }
    {
        let name = self.names.get_index(place as usize)?;
        Some(name.as_str())
    }

    /// The place of a name.
    pub fn find(&self, name: &str) -> Option<u32>
        ensures { result ≡ place_of self.now name.now }
    {
        let place = self.names.get_index_of(name)?;
        Some(place as u32)
    }
}
