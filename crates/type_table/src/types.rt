//! What written types stand for.
ghost use Rattle.std.specs.Prelude.{◌≡◌};
ghost use Rattle.ck_syntax.specs.Tree.{no_brackets};
ghost use Rattle.ck_syntax.specs.View.{brackets_of};
ghost use Rattle.type_table.specs.Names.{built_in as built_in_of};
ghost use Rattle.type_table.specs.Table.{class_named};
ghost use Rattle.type_table.specs.Types.{named_by, built_in_type, class_type, is_unknown, is_plain, kind_of, value_kind, result_kind, declared_kind, made_kind, count, all_empty, all_sized, is_shred, has_none, takes_at, can_be_made, is_even, has_form, may_be_static};

use crate::built_ins::{BuiltInName, built_in};
use crate::table::Table;
use ck_base::Text;
use ck_syntax::{Base, Bracket, DeclHead};
use ck_values::{Elem, Kind};
use type_rules::is_reference;
use ugen_names::UgenKind;

/// What the first word of a written type stands for.
#[derive(Clone, Copy, PartialEq, Eq)]
pub enum Named {
    /// Nothing that is visible.
    Unknown,
    /// What is built in but no type: `Math`, `Std`, `Machine`.
    NoType,
    /// `void`.
    Void,
    /// A type.
    Elem(Elem),
}

/// What a built-in name is as a type.
fn built_in_type(name: &[u8]) -> Named
    ensures { result ≡ built_in_type (built_in_of name.now) }
{
    match built_in(name) {
        Some(BuiltInName::Elem(elem)) => Named::Elem(elem),
        Some(BuiltInName::Module(_)) => Named::NoType,
        None => Named::Unknown,
    }
}

impl Table {
    /// What a name stands for as a type.
    fn class_type(&self, file: u32, name: &Text) -> Named
        ensures { result ≡ class_type name.now (class_named self.now file name.now) }
    {
        match self.class(file, name) {
            Some(class) => Named::Elem(Elem::Class(class)),
            None => built_in_type(name.bytes()),
        }
    }

    /// What a type's first word stands for in a file.
    pub fn named(&self, file: u32, base: &Base) -> Named
        ensures { result ≡ named_by self.now file base.now }
    {
        match base {
            Base::Int => Named::Elem(Elem::Int),
            Base::Float => Named::Elem(Elem::Float),
            Base::Dur => Named::Elem(Elem::Dur),
            Base::Time => Named::Elem(Elem::Time),
            Base::String => Named::Elem(Elem::Text),
            Base::Void => Named::Void,
            Base::Class(name) => self.class_type(file, name),
        }
    }
}

impl Named {
    /// Whether it is nothing that is visible.
    pub fn is_unknown(self) -> bool
        ensures { result ≡ is_unknown self }
    {
        matches!(self, Named::Unknown)
    }
}

/// Whether it is `int`, `float`, `dur`, `time`, `string` or `Shred`.
pub fn is_plain(elem: Elem) -> bool
    ensures { result ≡ is_plain elem }
{
    !is_reference(elem)
}

/// A value of this type, or an array with so many pairs of brackets; two are for plain types.
fn kind_of(elem: Elem, brackets: usize) -> Option<Kind>
    ensures { result ≡ kind_of elem brackets }
{
    match brackets {
        0 => Some(Kind::One(elem)),
        1 => Some(Kind::Row(elem)),
        2 if is_plain(elem) => Some(Kind::Grid(elem)),
        _ => None,
    }
}

/// The type of a parameter or a variable, where it is one.
pub fn value_kind(named: Named, brackets: usize) -> Option<Kind>
    ensures { result ≡ value_kind named brackets }
{
    match named {
        Named::Elem(elem) => kind_of(elem, brackets),
        _ => None,
    }
}

/// The type of a result, where it is one.
pub fn result_kind(named: Named, brackets: usize) -> Option<Kind>
    ensures { result ≡ result_kind named brackets }
{
    match named {
        Named::Void if brackets == 0 => Some(Kind::Void),
        _ => value_kind(named, brackets),
    }
}

/// Whether there are no brackets.
fn are_none(brackets: &[Bracket]) -> bool
    ensures { result ≡ has_none (brackets_of no_brackets brackets.now) }
{
    brackets.is_empty()
}

/// How many pairs of brackets there are.
fn count(brackets: &[Bracket]) -> usize
    ensures { result ≡ count (brackets_of no_brackets brackets.now) }
{
    brackets.len()
}

/// Whether no pair of brackets has a size.
fn are_all_empty(brackets: &[Bracket]) -> bool
    ensures { result ≡ all_empty (brackets_of no_brackets brackets.now) }
{
    for bracket in brackets {
        match bracket {
            Bracket::Empty => {}
            Bracket::Size(_) => return false,
        }
    }
    true
}

/// Whether each pair of brackets has a size.
fn are_all_sized(brackets: &[Bracket]) -> bool
    ensures { result ≡ all_sized (brackets_of no_brackets brackets.now) }
{
    for bracket in brackets {
        match bracket {
            Bracket::Empty => return false,
            Bracket::Size(_) => {}
        }
    }
    true
}

/// Whether either each pair of brackets has a size or none has.
fn are_even(brackets: &[Bracket]) -> bool
    ensures { result ≡ is_even (brackets_of no_brackets brackets.now) }
{
    are_all_empty(brackets) || are_all_sized(brackets)
}

/// Whether it is `Shred`.
fn is_shred(elem: Elem) -> bool
    ensures { result ≡ is_shred elem }
{
    matches!(elem, Elem::Shred)
}

/// Whether `@` may stand here: it is for references, arrays and `Shred`.
fn takes_at(elem: Elem, brackets: &[Bracket]) -> bool
    ensures { result ≡ takes_at elem (brackets_of no_brackets brackets.now) }
{
    !are_none(brackets) || is_reference(elem) || is_shred(elem)
}

/// Whether the declaration makes no object of type `UGen`.
fn can_be_made(elem: Elem, brackets: &[Bracket]) -> bool
    ensures { result ≡ can_be_made elem (brackets_of no_brackets brackets.now) }
{
    match elem {
        Elem::Unit(UgenKind::UGen) => !are_none(brackets) && are_all_empty(brackets),
        _ => true,
    }
}

/// Whether the declaration has the form of one.
fn has_form(head: &DeclHead, elem: Elem, brackets: &[Bracket]) -> bool
    ensures { result ≡ has_form head.now elem (brackets_of no_brackets brackets.now) }
{
    if !are_even(brackets) {
        return false;
    }
    if head.is_reference {
        takes_at(elem, brackets)
    } else {
        can_be_made(elem, brackets)
    }
}

/// The type that a declaration gives its name, where it has the form of one.
pub fn declared_kind(head: &DeclHead, named: Named, brackets: &[Bracket]) -> Option<Kind>
    ensures { result ≡ declared_kind head.now named (brackets_of no_brackets brackets.now) }
{
    match named {
        Named::Elem(elem) if has_form(head, elem, brackets) => kind_of(elem, count(brackets)),
        _ => None,
    }
}

/// The type of an object that a declaration makes with arguments, where it is one.
pub fn made_kind(named: Named) -> Option<Kind>
    ensures { result ≡ made_kind named }
{
    match named {
        Named::Elem(elem) if is_reference(elem) && can_be_made(elem, &[]) => {
            Some(Kind::One(elem))
        }
        _ => None,
    }
}

/// Whether a static member may have this type: a plain one, or another one with `@`.
pub fn may_be_static(head: &DeclHead, kind: Kind) -> bool
    ensures { result ≡ may_be_static head.now kind }
{
    match kind {
        Kind::One(elem) => is_plain(elem) || head.is_reference,
        _ => head.is_reference,
    }
}
