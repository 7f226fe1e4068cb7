//! What one class and one file declare.
ghost use Rattle.std.specs.Prelude.{◌≡◌};
ghost use Rattle.type_table.specs.Table.{plain_head, named_class};

use crate::count::{Count, Fields};
use crate::names::ByName;
use crate::table::Variable;
use ck_base::{List, Text};
use ck_values::Kind;
use std::alloc::Global;

/// How a member function is called.
#[derive(Drop)]
pub enum Dispatch {
    /// By its number: it is static.
    Static,
    /// By a virtual slot that its class adds: so many of its class stand before it.
    NewSlot(Count),
    /// By the slot of the function that it overrides.
    Override,
}

/// What a class declares itself.
#[derive(Drop)]
pub enum Own {
    /// A field: so many of its class stand before it.
    Field { position: Count, kind: Kind },
    /// A static member.
    Static(Variable),
    /// A declaration with `auto`, which can't stand there: only its name is taken.
    Auto,
    /// A function by its number.
    Fun { fun: u32, dispatch: Dispatch },
}

/// The types of a function.
#[derive(Drop)]
pub struct Head {
    /// Those of its parameters, without `this`.
    pub params: List<Kind>,
    pub result: Kind,
    pub is_static: bool,
}

/// A class.
#[derive(Drop)]
pub(crate) struct Class {
    pub name: Text,
    pub file: u32,
    pub is_public: bool,
    /// The types of its functions as its text has them, where they are right.
    pub heads: ByName<Option<Head>>,
    /// What of it was entered.
    pub members: ByName<Own>,
    /// The types of its own fields.
    pub fields: Fields,
    /// How many virtual slots it adds.
    pub slots: Count,
    /// The function of the statements in its braces.
    pub body: Option<u32>,
    /// Its own constructor.
    pub constructor: Option<u32>,
}

/// What the top level of a file declares.
#[derive(Drop)]
pub struct FileNames {
    /// The function of its statements.
    pub main: u32,
    pub classes: ByName<u32>,
    pub funs: ByName<u32>,
    /// The file variables, each by its number among all of them and the static members.
    pub variables: ByName<u32>,
}

impl Head {
    /// The types of a function that takes nothing and gives nothing.
    pub fn plain(alloc: Global, is_static: bool) -> Head
        ensures { result ≡ plain_head is_static }
    {
        Head {
            params: List::from_vec(Vec::new(alloc)),
            result: Kind::Void,
            is_static,
        }
    }
}

impl Class {
    /// A class of which only its name is known.
    pub(crate) fn named(alloc: Global, file: u32, is_public: bool, name: Text) -> Class
        ensures { result ≡ named_class file is_public name }
    {
        Class {
            name,
            file,
            is_public,
            heads: ByName::new(alloc),
            members: ByName::new(alloc),
            fields: Fields::new(alloc),
            slots: Count::zero(),
            body: None,
            constructor: None,
        }
    }
}
