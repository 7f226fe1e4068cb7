//! The classes that have members, by the names of those.
ghost use Rattle.std.specs.Prelude.{◌≡◌, OnOk, OnErr, IfErr, None};
ghost use Rattle.type_table.specs.MemberIndex.{owners_of, with_owner, no_owners, AreKept};
ghost use Rattle.type_table.specs.Names.{lookup};
ghost use Rattle.fixed_point.specs.Wanting.{out_of_memory};
ghost use Rattle.type_table.specs.declared.fault.TypeFault.TheVariants.{Memory as memory};

use crate::fault::TypeFault;
use crate::lists::Lists;
use crate::names::ByName;
use std::alloc::Global;

/// By each name of a member the classes that have one of this name.
#[derive(Drop)]
pub(crate) struct MemberIndex {
    /// The number of the list for each name.
    names: ByName<usize>,
    lists: Lists,
}

impl MemberIndex {
    /// None, for no name.
    pub(crate) fn new(alloc: Global) -> MemberIndex
        ensures { result ≡ no_owners }
    {
        MemberIndex {
            names: ByName::new(alloc),
            lists: Lists::new(alloc),
        }
    }

    /// The classes that have a member of this name.
    pub(crate) fn of(&self, name: &[u8]) -> &[u32]
        ensures { result.now ≡ owners_of self.now name.now }
    {
        let Some(list) = self.names.get(name) else {
            return &[];
        };
        match self.lists.get(*list) {
            Some(owners) => owners,
            None => &[],
        }
    }

    /// The first class that has a member of this name.
    fn add_first(&mut self, alloc: Global, name: &[u8], class: u32) -> Result<(), TypeFault>
        requires free { lookup name.now self.old.names ≡ None }
        ensures added { OnOk result (self.new ≡ with_owner self.old name.now class) }
        ensures kept { OnErr result (AreKept self.old self.new) }
        ensures memory { IfErr result (λ why. why ≡ memory out_of_memory) }
    {
        let list = self.lists.len();
        self.lists.push_one(alloc, class)?;
        self.names.add_new(alloc, name, list)
    }

    /// A class more that has a member of this name. Where there is no memory, those that had one
    /// are there still.
    pub(crate) fn add(&mut self, alloc: Global, name: &[u8], class: u32) -> Result<(), TypeFault>
        ensures added { OnOk result (self.new ≡ with_owner self.old name.now class) }
        ensures kept { OnErr result (AreKept self.old self.new) }
        ensures memory { IfErr result (λ why. why ≡ memory out_of_memory) }
    {
        let list = match self.names.get(name) {
            Some(list) => *list,
            None => return self.add_first(alloc, name, class),
        };
        Ok(self.lists.add(list, class)?)
    }
}
