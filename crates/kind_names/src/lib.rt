//! The names of types, as the language spells them.
//!
//! [`add_kind`] appends the name of a type to a line and [`elem_name`] gives that of one value's type:
//! exactly the names of `ck_store`'s definition. Those of unit generators stand in the table of
//! `ugen_names`. The machine prints with them, and the listing of a code is written with them.
#![tactic(auto)]

ghost use Rattle.std.specs.Prelude.{◌≡◌, ◌++◌, OnOk, OnErr};
ghost use Rattle.ck_store.specs.Prints.{kind_name, elem_name};

use ck_typed::Class;
use ck_values::{Elem, Kind};
use fixed_point::Memory;
use ugen_names::unit_name;

/// Appends the name of a type, where the classes are these. For want of memory `into` stays as it
/// was.
pub fn add_kind(classes: &[Class], kind: Kind, into: &mut Vec<u8>) -> Result<(), Memory>
    ensures ok { OnOk result (into.new.items ≡ into.old.items ++ kind_name classes.now kind) }
    ensures err { OnErr result (into.new.items ≡ into.old.items) }
{
    let (elem, brackets) = match kind {
        Kind::Void => (b"void".as_slice(), b"".as_slice()),
        Kind::Null => (b"null".as_slice(), b"".as_slice()),
        Kind::One(elem) => (elem_name(classes, elem), b"".as_slice()),
        Kind::Row(elem) => (elem_name(classes, elem), b"[]".as_slice()),
        Kind::Grid(elem) => (elem_name(classes, elem), b"[][]".as_slice()),
    };
    let before = into.len();
    into.extend_from_slice(elem)?;
    if let Err(error) = into.extend_from_slice(brackets) {
        into.truncate(before);
        return Err(Memory::from(error));
    }
    Ok(())
}

/// The name of the type of one value; a class that isn't there has none.
pub fn elem_name(classes: &[Class], elem: Elem) -> &[u8]
    ensures { result.now ≡ elem_name classes.now elem }
{
    match elem {
        Elem::Int => b"int",
        Elem::Float => b"float",
        Elem::Dur => b"dur",
        Elem::Time => b"time",
        Elem::Text => b"string",
        Elem::Shred => b"Shred",
        Elem::Class(class) => match classes.get(class as usize) {
            Some(class) => class.name.bytes(),
            None => b"",
        },
        Elem::Unit(kind) => unit_name(kind),
    }
}
