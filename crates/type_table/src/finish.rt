//! What the table hands on once all files are entered.
ghost use Rattle.std.specs.Prelude.{◌≡◌, ◌<◌, ◌^◌, length, map, IfOk, OnOk};
ghost use Rattle.ck_typed.specs.Standing.{given};
ghost use Rattle.type_table.specs.Table.{class_of};
ghost use Rattle.type_table.specs.Finished.{finished_class, finished_classes};
ghost use Rattle.type_table.specs.Layouts.{AreFound};

use crate::fault::number;
use crate::layout::{Layout, Layouts};
use crate::table::Table;
use ck_base::{List, Text};
use ck_values::{Elem, Kind};
use fixed_point::Memory;
use std::alloc::Global;
use std::mem;
use type_rules::is_below;

/// What the table hands on: all classes, and the types of the file variables and static members.
#[derive(Drop)]
pub struct Entered {
    pub classes: List<ck_typed::Class>,
    pub statics: List<Kind>,
}

/// The type of a static variable: one that nothing has settled is an int.
fn given(kind: Kind) -> Kind
    ensures { result ≡ given kind }
{
    match kind {
        Kind::Void => Kind::One(Elem::Int),
        _ => kind,
    }
}

impl Table {
    /// The name of a class.
    fn name(&self, alloc: Global, class: u32) -> Result<Text, Memory>
        ensures { IfOk result (λ name. name ≡ (class_of self.now class).name) }
    {
        match self.classes.get(class as usize) {
            Some(class) => class.name.try_clone(alloc),
            None => Text::from_bytes(alloc, &[]),
        }
    }

    /// The function of the statements in a class's braces.
    fn body(&self, class: u32) -> Option<u32>
        ensures { result ≡ (class_of self.now class).body }
    {
        self.classes.get(class as usize)?.body
    }

    /// A class as the typed program has it.
    fn finished_class(
        &self,
        alloc: Global,
        found: &mut Layouts,
        class: u32,
    ) -> Result<ck_typed::Class, Memory>
        requires found { AreFound self.now found.old }
        ensures class { IfOk result (λ it. it ≡ finished_class self.now class) }
        ensures found { OnOk result (AreFound self.now found.new) }
    {
        let Layout { fields, virtuals } = self.layout(alloc, found, self.whole_line(class))?;
        Ok(ck_typed::Class {
            name: self.name(alloc, class)?,
            parent: self.parent(class),
            fields,
            virtuals,
            body: self.body(class),
            event: is_below(self.parents(), class, 1),
        })
    }

    /// All classes in order, as the typed program has them. This takes memory, so that `finish`
    /// takes none.
    pub fn finished_classes(&self, alloc: Global) -> Result<List<ck_typed::Class>, Memory>
        requires few { length self.now.classes < 2 ^ 32 }
        ensures { IfOk result (λ classes. classes ≡ finished_classes self.now) }
    {
        let mut found = Layouts::none(alloc, self.classes.len())?;
        let mut classes = Vec::new(alloc);
        for class in 0..number(self.classes.len()) {
            classes.push(self.finished_class(alloc, &mut found, class)?)?;
        }
        Ok(List::from_vec(classes))
    }

    /// The types of the file variables and static members, taken out of the table.
    fn take_statics(&mut self) -> List<Kind>
        ensures { result ≡ map given self.old.statics }
    {
        let alloc = *self.statics.allocator();
        let mut statics = mem::replace(&mut self.statics, Vec::new(alloc));
        for i in 0..statics.len() {
            statics[i] = given(statics[i]);
        }
        List::from_vec(statics)
    }

    /// Hands on what was entered: these classes, which are those of the table, and the types of the
    /// file variables and static members. It takes no memory.
    pub fn finish(mut self, classes: List<ck_typed::Class>) -> Entered
        ensures classes { result.classes ≡ classes }
        ensures statics { result.statics ≡ map given self.statics }
    {
        Entered {
            classes,
            statics: self.take_statics(),
        }
    }
}
