//! The classes in order, each found by its number, and the classes that have a member of one name.
ghost use Rattle.std.specs.Prelude.{◌≡◌, ◌<◌, ◌≤◌, [], ◌∷◌, ◌++◌, length, slice_get, slice_set, Some, OnOk, OnErr, IfOk, IfErr, IfSome};
ghost use Rattle.std.specs.Option.{option_copied};
ghost use Rattle.type_table.specs.Table.{or_no_class, and_own, named_class};
ghost use Rattle.type_table.specs.ClassList.{class_at, with_class_at};
ghost use Rattle.type_table.specs.Names.{lookup, and_first};
ghost use Rattle.type_table.specs.MemberIndex.{AreAllWith};
ghost use Rattle.type_table.specs.NameMarks.{new_slot};
ghost use Rattle.ck_base.specs.declared.limits.TheConstants.{MAX_FILE_TOKENS};
ghost use Rattle.fixed_point.specs.Wanting.{out_of_memory};
ghost use Rattle.type_table.specs.declared.fault.TypeFault.TheVariants.{Memory as memory};

use crate::class::{Class, Dispatch, Head, Own};
use crate::count::Count;
use crate::fault::TypeFault;
use crate::member_index::MemberIndex;
use crate::name_marks::{NameMarks, hash_of};
use ck_base::Text;
use ck_values::Kind;
use fixed_point::Memory;
use std::alloc::Global;
use std::marker::Model;

/// The classes in order. Which of them have a member of one name is found at once, and mostly also
/// that one has none.
#[derive(Drop)]
pub struct Classes {
    all: Vec<Class>,
    owners: MemberIndex,
    /// The classes are marked here under the names of their members.
    members: NameMarks,
    /// And here under those of the functions for which they add a slot.
    slots: NameMarks,
}

impl Model for Classes {
    ghost use Rattle.std.specs.Prelude.{List};
    ghost use Rattle.type_table.specs.declared.class.Class.{Class};

    ghost Value = { List Class };

    ghost use Rattle.type_table.specs.NameMarks.{AreKnown};

    ghost view = { λ it. it.all.items };

    ghost invariant = { λ it. AreKnown it.all.items it.owners it.members it.slots };
}

impl Own {
    /// How many slots of its class stand before the one that it adds, where it adds one.
    fn new_slot(&self) -> Option<u32>
        ensures is { result ≡ new_slot (Some self.now) }
        ensures few { IfSome result (λ slots. slots ≤ MAX_FILE_TOKENS) }
    {
        match self {
            Own::Fun {
                fun: _,
                dispatch: Dispatch::NewSlot(before),
            } => Some(before.get()),
            _ => None,
        }
    }
}

impl Class {
    /// One member more.
    fn add_own(&mut self, alloc: Global, name: &[u8], own: Own) -> Result<(), TypeFault>
        ensures added { OnOk result (self.new ≡ and_own self.old name.now own) }
        ensures kept { OnErr result (self.new ≡ self.old) }
        ensures memory { IfErr result (λ why. why ≡ memory out_of_memory) }
    {
        self.members.add(alloc, name, own)
    }
}

impl Classes {
    /// No class.
    pub(crate) fn new(alloc: Global) -> Result<Classes, Memory>
        ensures { IfOk result (λ classes. classes ≡ []) }
    {
        Ok(Classes {
            all: Vec::new(alloc),
            owners: MemberIndex::new(alloc),
            members: NameMarks::new(alloc)?,
            slots: NameMarks::new(alloc)?,
        })
    }

    /// How many classes there are.
    pub fn len(&self) -> usize
        ensures { result ≡ length self.now }
    {
        self.all.len()
    }

    /// A class by its number.
    pub(crate) fn get(&self, class: usize) -> Option<&Class>
        ensures { option_copied result ≡ slice_get self.now class }
    {
        self.all.get(class)
    }

    /// What a class declares under this name itself.
    pub(crate) fn own(&self, class: u32, name: &[u8]) -> Option<&Own>
        ensures { option_copied result ≡ lookup name.now (class_at self.now class).members }
    {
        if !self.members.has(hash_of(name), class) {
            return None;
        }
        self.all.get(class as usize)?.members.get(name)
    }

    /// How many slots of a class stand before the one that it adds for its function of this name,
    /// where it adds one.
    pub(crate) fn new_slot(&self, class: u32, name: &[u8]) -> Option<u32>
        ensures is { result ≡ new_slot (lookup name.now (class_at self.now class).members) }
        ensures few { IfSome result (λ slots. slots ≤ MAX_FILE_TOKENS) }
    {
        if !self.slots.has(hash_of(name), class) {
            return None;
        }
        self.own(class, name)?.new_slot()
    }

    /// The classes that have a member of this name, and maybe more.
    pub(crate) fn owners(&self, name: &[u8]) -> &[u32]
        ensures { AreAllWith self.now name.now result.now }
    {
        self.owners.of(name)
    }

    /// A class more, of which only its name is known.
    pub fn add(
        &mut self,
        alloc: Global,
        file: u32,
        is_public: bool,
        name: Text,
    ) -> Result<(), Memory>
        ensures { OnOk result (self.new ≡ self.old ++ named_class file is_public name ∷ []) }
    {
        self.all.push(Class::named(alloc, file, is_public, name))?;
        Ok(())
    }

    /// The types of a class's function by its name.
    #[tactic(auto, using(crate::proofs::Changes::set_past))]
    pub fn add_head(
        &mut self,
        alloc: Global,
        class: u32,
        name: &[u8],
        head: Option<Head>,
    ) -> Result<(), TypeFault>
        ensures added { OnOk result
            (self.new
            ≡ with_class_at self.old class
            (record (class_at self.old class)
            { heads = and_first name.now head (class_at self.old class).heads })) }
        ensures memory { IfErr result (λ why. why ≡ memory out_of_memory) }
    {
        if class as usize >= self.all.len() {
            return Ok(());
        }
        self.all[class as usize].heads.add(alloc, name, head)
    }

    /// A field of a class itself.
    #[tactic(auto, using(crate::proofs::Changes::set_past))]
    pub fn add_field(&mut self, class: u32, kind: Kind) -> Result<(), TypeFault>
        requires few { length (class_at self.old class).fields < MAX_FILE_TOKENS }
        ensures added { OnOk result
            (self.new
            ≡ with_class_at self.old class
            (record (class_at self.old class)
            { fields = (class_at self.old class).fields ++ kind ∷ [] })) }
        ensures memory { IfErr result (λ why. why ≡ memory out_of_memory) }
    {
        if class as usize >= self.all.len() {
            return Ok(());
        }
        self.all[class as usize].fields.push(kind)
    }

    /// One member more of a class.
    #[tactic(auto, using(crate::proofs::Changes::set_past))]
    pub fn add_own(
        &mut self,
        alloc: Global,
        class: u32,
        name: &[u8],
        own: Own,
    ) -> Result<(), TypeFault>
        ensures added { OnOk result
            (self.new
            ≡ with_class_at self.old class (and_own (class_at self.old class) name.now own)) }
        ensures memory { IfErr result (λ why. why ≡ memory out_of_memory) }
    {
        if class as usize >= self.len() {
            return Ok(());
        }
        self.owners.add(alloc, name, class)?;
        let hash = hash_of(name);
        self.members.mark(hash, class, true);
        self.slots.mark(hash, class, own.new_slot().is_some());
        self.all[class as usize].add_own(alloc, name, own)
    }

    /// A class adds so many virtual slots.
    #[tactic(auto, using(crate::proofs::Changes::set_past))]
    pub fn set_slots(&mut self, class: u32, slots: Count)
        ensures { self.new
            ≡ with_class_at self.old class (record (class_at self.old class) { slots = slots }) }
    {
        if (class as usize) < self.all.len() {
            self.all[class as usize].slots = slots;
        }
    }

    /// A class has this function of the statements in its braces.
    #[tactic(auto, using(crate::proofs::Changes::set_past))]
    pub fn set_body(&mut self, class: u32, fun: u32)
        ensures { self.new
            ≡ with_class_at self.old class
            (record (class_at self.old class) { body = Some fun }) }
    {
        if (class as usize) < self.all.len() {
            self.all[class as usize].body = Some(fun);
        }
    }

    /// A class has this constructor of its own.
    #[tactic(auto, using(crate::proofs::Changes::set_past))]
    pub fn set_constructor(&mut self, class: u32, fun: u32)
        ensures { self.new
            ≡ with_class_at self.old class
            (record (class_at self.old class) { constructor = Some fun }) }
    {
        if (class as usize) < self.all.len() {
            self.all[class as usize].constructor = Some(fun);
        }
    }
}
