//! The table of names.
ghost use Rattle.std.specs.Prelude.{◌≡◌, ◌<◌, [], ◌∷◌, length, slice_get, IfOk};
ghost use Rattle.std.specs.Option.{option_copied};
ghost use Rattle.type_table.specs.Names.{as_class, lookup, built_in as built_in_of};
ghost use Rattle.type_table.specs.Table.{new_table, file_of, class_of, fun_of, parent as parent_of, seen_from, class_named, fun_named, variable_named, static_at, with_settled};

use crate::built_ins::{BuiltInName, built_in};
use crate::class::{FileNames, Head};
use crate::class_list::Classes;
use crate::line::parent_by;
use crate::names::ByName;
use crate::parent_list::Parents;
use ck_base::Text;
use ck_values::{Elem, Kind};
use fixed_point::Memory;
use std::alloc::Global;
use std::marker::Model;

/// A file variable or a static member.
#[derive(Clone, Copy, PartialEq, Eq)]
pub struct Variable {
    /// Its number among all of them, in text order.
    pub index: u32,
    pub kind: Kind,
}

/// What a member's name stands for.
#[derive(Clone, Copy, PartialEq, Eq)]
pub enum Member {
    /// A field by its number among those of an object.
    Field { index: u32, kind: Kind },
    /// A static member by its number among all file variables and static members.
    Static { index: u32, kind: Kind },
    /// A declaration with `auto`, which can't stand in a class.
    Auto,
    /// A function by its number, with its virtual slot where it isn't static.
    Fun { fun: u32, slot: Option<u32> },
}

/// What the files entered so far declare. Each name is found by its hash.
///
/// The fields are public, for the crate that enters files. What has to stay so of a field is kept by
/// its own type, and nothing else has to stay so of a table.
#[derive(Drop)]
pub struct Table {
    pub classes: Classes,
    /// The parent of each class; `Object` has itself.
    pub parents: Parents,
    /// The public classes of all files.
    pub publics: ByName<u32>,
    pub funs: Vec<Head>,
    /// The types of the file variables and static members; that of a variable with `auto` is void
    /// until it is settled.
    pub statics: Vec<Kind>,
    pub files: Vec<FileNames>,
}

impl Model for Table {
    ghost use Rattle.type_table.specs.Table.{Table as Declared};

    ghost Value = { Declared };

    ghost view = { λ t. record {
      classes = t.classes;
      parents = t.parents;
      publics = t.publics;
      funs = t.funs.items;
      statics = t.statics.items;
      files = t.files.items;
    } };
}

/// The class that a built-in name is.
fn built_in_class(name: &[u8]) -> Option<u32>
    ensures { result ≡ as_class (built_in_of name.now) }
{
    match built_in(name) {
        Some(BuiltInName::Elem(Elem::Class(class))) => Some(class),
        _ => None,
    }
}

/// The built-in classes: `Object` and `Event`.
fn built_in_classes(alloc: Global) -> Result<Box<Classes>, Memory>
    ensures { IfOk result (λ classes. classes.value ≡ new_table.classes) }
{
    let mut classes = Box::new(alloc, Classes::new(alloc)?)?;
    classes.add(alloc, 0, false, Text::from_bytes(alloc, b"Object")?)?;
    classes.add(alloc, 0, false, Text::from_bytes(alloc, b"Event")?)?;
    Ok(classes)
}

/// Their parents.
fn built_in_parents(alloc: Global) -> Result<Parents, Memory>
    ensures { IfOk result (λ parents. parents ≡ new_table.parents) }
{
    let mut parents = Parents::new(alloc);
    parents.push(0)?;
    parents.push(0)?;
    Ok(parents)
}

impl Table {
    /// The table before any file: `Object` and `Event`.
    pub fn new(alloc: Global) -> Result<Table, Memory>
        ensures { IfOk result (λ table. table ≡ new_table) }
    {
        let parents = built_in_parents(alloc)?;
        let classes = built_in_classes(alloc)?;
        Ok(Table {
            classes: Box::into_inner(classes),
            parents,
            publics: ByName::new(alloc),
            funs: Vec::new(alloc),
            statics: Vec::new(alloc),
            files: Vec::new(alloc),
        })
    }

    /// The class of this name that a file declares.
    pub fn own_class(&self, file: u32, name: &[u8]) -> Option<u32>
        ensures { result ≡ lookup name.now (file_of self.now file).classes }
    {
        match self.files.get(file as usize) {
            Some(names) => names.classes.get(name).copied(),
            None => None,
        }
    }

    /// The public class of this name that stands in an earlier file.
    fn public_class(&self, file: u32, name: &[u8]) -> Option<u32>
        ensures { result ≡ seen_from self.now file (lookup name.now self.now.publics) }
    {
        let class = *self.publics.get(name)?;
        if self.class_file(class) < file {
            Some(class)
        } else {
            None
        }
    }

    /// The class of this name that a file sees.
    pub fn class(&self, file: u32, name: &Text) -> Option<u32>
        ensures { result ≡ class_named self.now file name.now }
    {
        let name = name.bytes();
        if let Some(class) = self.own_class(file, name) {
            return Some(class);
        }
        if let Some(class) = self.public_class(file, name) {
            return Some(class);
        }
        built_in_class(name)
    }

    /// The function of this name that a file declares.
    pub fn fun(&self, file: u32, name: &Text) -> Option<u32>
        ensures { result ≡ fun_named self.now file name.now }
    {
        match self.files.get(file as usize) {
            Some(names) => names.funs.get(name.bytes()).copied(),
            None => None,
        }
    }

    /// The file variable of this name. The type of one with `auto` is void until it is settled.
    pub fn variable(&self, file: u32, name: &Text) -> Option<Variable>
        ensures { result ≡ variable_named self.now file name.now }
    {
        let names = self.files.get(file as usize)?;
        let index = *names.variables.get(name.bytes())?;
        Some(self.static_at(index))
    }

    /// A file variable or a static member by its number.
    fn static_at(&self, index: u32) -> Variable
        ensures { result ≡ static_at self.now index }
    {
        let kind = match self.statics.get(index as usize) {
            Some(kind) => *kind,
            None => Kind::Void,
        };
        Variable { index, kind }
    }

    /// A variable with `auto` gets its type. It takes no memory.
    #[tactic(auto, using(crate::proofs::Changes::set_past))]
    pub fn settle(&mut self, index: u32, kind: Kind)
        ensures { self.new ≡ with_settled self.old ((index, kind) ∷ []) }
    {
        if (index as usize) < self.statics.len() {
            self.statics[index as usize] = kind;
        }
    }

    /// Variables with `auto` get their types, one after another. It takes no memory.
    pub fn settle_all(&mut self, settled: &[(u32, Kind)])
        ensures { self.new ≡ with_settled self.old settled.now }
    {
        for (index, kind) in settled {
            self.settle(*index, *kind);
        }
    }

    /// The parent of a class; `Object` has itself.
    pub fn parent(&self, class: u32) -> u32
        ensures { result ≡ parent_of self.now class }
    {
        parent_by(self.parents(), class)
    }

    /// The parents of all classes in order.
    pub fn parents(&self) -> &[u32]
        ensures { result.now ≡ self.now.parents }
    {
        self.parents.as_slice()
    }

    /// Whether a class is public.
    pub fn is_public(&self, class: u32) -> bool
        ensures { result ≡ (class_of self.now class).is_public }
    {
        match self.classes.get(class as usize) {
            Some(class) => class.is_public,
            None => false,
        }
    }

    /// The file of a class.
    pub fn class_file(&self, class: u32) -> u32
        ensures { result ≡ (class_of self.now class).file }
    {
        match self.classes.get(class as usize) {
            Some(class) => class.file,
            None => 0,
        }
    }

    /// The types of a function's parameters, without `this`; none where no function has the number.
    pub fn params(&self, fun: u32) -> &[Kind]
        ensures { result.now ≡ (fun_of self.now fun).params }
    {
        match self.funs.get(fun as usize) {
            Some(head) => head.params.items(),
            None => &[],
        }
    }

    /// The type of a function's result; void where no function has the number.
    pub fn result(&self, fun: u32) -> Kind
        ensures { result ≡ (fun_of self.now fun).result }
    {
        match self.funs.get(fun as usize) {
            Some(head) => head.result,
            None => Kind::Void,
        }
    }

    /// Whether a function is static, as also where no function has the number.
    pub fn is_static(&self, fun: u32) -> bool
        ensures { result ≡ (fun_of self.now fun).is_static }
    {
        match self.funs.get(fun as usize) {
            Some(head) => head.is_static,
            None => true,
        }
    }

    /// The function of a file's statements.
    pub fn main_of(&self, file: u32) -> u32
        ensures { result ≡ (file_of self.now file).main }
    {
        match self.files.get(file as usize) {
            Some(names) => names.main,
            None => 0,
        }
    }
}
