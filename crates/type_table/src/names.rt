//! What stands under names.
ghost use Rattle.std.specs.Prelude.{◌≡◌, [], ◌∷◌, ◌++◌, length, slice_get, OnOk, OnErr, IfErr, None};
ghost use Rattle.std.specs.Option.{option_copied, option_map};
ghost use Rattle.type_table.specs.Names.{lookup, and_first};
ghost use Rattle.fixed_point.specs.Wanting.{out_of_memory};
ghost use Rattle.type_table.specs.declared.fault.TypeFault.TheVariants.{Memory as memory};

use crate::fault::TypeFault;
use indexmap::IndexMap;
use std::alloc::Global;
use std::marker::Model;

/// What stands under each name, in the order of its entry. No name is entered twice.
#[derive(Drop)]
pub struct ByName<T> {
    all: IndexMap<Vec<u8>, T>,
}

impl<T> Model for ByName<T> {
    ghost use Rattle.std.specs.Prelude.{List, ℕ, map};

    ghost Value = { List (List ℕ × T) };

    ghost view = { λ it. map (λ e. (e.0.items, e.1)) it.all.entries };
}

impl<T> ByName<T> {
    /// Nothing.
    pub fn new(alloc: Global) -> ByName<T>
        ensures { result ≡ [] }
    {
        ByName {
            all: IndexMap::new(alloc),
        }
    }

    /// What stands under this name.
    pub fn get(&self, name: &[u8]) -> Option<&T>
        ensures { option_copied result ≡ lookup name.now self.now }
    {
        self.all.get(name)
    }

    /// How many names have something.
    pub(crate) fn len(&self) -> usize
        ensures { result ≡ length self.now }
    {
        self.all.len()
    }

    /// The name that was entered after so many others, and what stands under it.
    pub(crate) fn at(&self, index: usize) -> Option<(&[u8], &T)>
        ensures { option_map (λ e. (e.0.now, e.1.now)) result ≡ slice_get self.now index }
    {
        match self.all.get_index(index) {
            Some((name, it)) => Some((name.as_slice(), it)),
            None => None,
        }
    }
}

impl<T: Drop> ByName<T> {
    /// Enters this under a name that has nothing yet.
    pub fn add_new(&mut self, alloc: Global, name: &[u8], it: T) -> Result<(), TypeFault>
        requires free { lookup name.now self.old ≡ None }
        ensures added { OnOk result (self.new ≡ self.old ++ (name.now, it) ∷ []) }
        ensures kept { OnErr result (self.new ≡ self.old) }
        ensures memory { IfErr result (λ why. why ≡ memory out_of_memory) }
    {
        let name = name.to_vec(alloc)?;
        self.all.insert(name, it)?;
        Ok(())
    }

    /// Enters this under a name, where it has nothing yet.
    pub fn add(&mut self, alloc: Global, name: &[u8], it: T) -> Result<(), TypeFault>
        ensures added { OnOk result (self.new ≡ and_first name.now it self.old) }
        ensures kept { OnErr result (self.new ≡ self.old) }
        ensures memory { IfErr result (λ why. why ≡ memory out_of_memory) }
    {
        if self.get(name).is_some() {
            return Ok(());
        }
        self.add_new(alloc, name, it)
    }
}
