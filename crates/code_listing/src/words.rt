//! The words of an instruction: its name and its arguments.

ghost use Rattle.std.specs.Prelude.{◌≡◌};
ghost use Rattle.code_listing.specs.Listing.{words_of};
ghost use Rattle.code_listing.specs.Words.{words_meant};

use crate::names::{native_name, operator_name, unary_name};
use ck_code::Instr;
use ck_typed::Class;
use ck_values::Kind;
use kind_names::elem_name;
use ugen_names::{parameter_name, unit_name};

/// An argument of an instruction.
#[derive(Clone, Copy)]
pub(crate) enum Argument<'a> {
    /// The number of a local, a function and the like.
    Number(u32),
    /// How many there are, or which place or string it is.
    Count(usize),
    /// An int, a raw float, or samples.
    Signed(i64),
    /// A name.
    Word(&'a [u8]),
}

/// The name of an instruction and its arguments.
#[derive(Clone, Copy)]
pub(crate) enum Words<'a> {
    Alone(&'static [u8]),
    One(&'static [u8], Argument<'a>),
    Two(&'static [u8], Argument<'a>, Argument<'a>),
    /// The count of these kinds, and then each.
    Kinds(&'static [u8], &'a [Kind]),
}

/// The words of an instruction, where the classes are these.
pub(crate) fn words_of<'a>(classes: &'a [Class], instr: &'a Instr) -> Words<'a>
    ensures { words_meant classes.now result ≡ words_of classes.now instr.now }
{
    use Argument::{Count, Number, Signed, Word};
    use Words::{Alone, One, Two};
    match instr {
        Instr::Int(n) => One(b"Int", Signed(*n)),
        Instr::Float(x) => One(b"Float", Signed(x.raw())),
        Instr::Dur(n) => One(b"Dur", Signed(*n)),
        Instr::Time(n) => One(b"Time", Signed(*n)),
        Instr::Text(k) => One(b"Text", Count(*k)),
        Instr::Null => Alone(b"Null"),
        Instr::NoShred => Alone(b"NoShred"),
        Instr::Now => Alone(b"Now"),
        Instr::Me => Alone(b"Me"),
        Instr::Dac => Alone(b"Dac"),
        Instr::Hole => Alone(b"Hole"),
        Instr::Local(i) => One(b"Local", Number(*i)),
        Instr::Static(i) => One(b"Static", Number(*i)),
        Instr::SetLocal(i) => One(b"SetLocal", Number(*i)),
        Instr::SetStatic(i) => One(b"SetStatic", Number(*i)),
        Instr::OpLocal(i, o) => Two(b"OpLocal", Number(*i), Word(operator_name(*o))),
        Instr::OpStatic(i, o) => Two(b"OpStatic", Number(*i), Word(operator_name(*o))),
        Instr::Field(i) => One(b"Field", Number(*i)),
        Instr::SetField(i) => One(b"SetField", Number(*i)),
        Instr::OpField(i, o) => Two(b"OpField", Number(*i), Word(operator_name(*o))),
        Instr::Item => Alone(b"Item"),
        Instr::SetItem => Alone(b"SetItem"),
        Instr::OpItem(o) => One(b"OpItem", Word(operator_name(*o))),
        Instr::Dup => Alone(b"Dup"),
        Instr::Drop => Alone(b"Drop"),
        Instr::Swap => Alone(b"Swap"),
        Instr::Op1(o) => One(b"Op1", Word(unary_name(*o))),
        Instr::Op2(o) => One(b"Op2", Word(operator_name(*o))),
        Instr::UnitInt(n, d) => Two(b"UnitInt", Signed(*n), Signed(*d)),
        Instr::UnitFix(n, d) => Two(b"UnitFix", Signed(*n), Signed(*d)),
        Instr::Jump(t) => One(b"Jump", Count(*t)),
        Instr::JumpZero(t) => One(b"JumpZero", Count(*t)),
        Instr::Turn => Alone(b"Turn"),
        Instr::Call(f) => One(b"Call", Number(*f)),
        Instr::Virtual(slot, n) => Two(b"Virtual", Number(*slot), Count(*n)),
        Instr::Native(call) => One(b"Native", Word(native_name(*call))),
        Instr::Return => Alone(b"Return"),
        Instr::New(c) => One(b"New", Number(*c)),
        Instr::Ugen(kind) => One(b"Ugen", Word(unit_name(*kind))),
        Instr::Row(e) => One(b"Row", Word(elem_name(classes, *e))),
        Instr::Grid(e) => One(b"Grid", Word(elem_name(classes, *e))),
        Instr::Lit(e, n) => Two(b"Lit", Word(elem_name(classes, *e)), Count(*n)),
        Instr::LitGrid(e, n) => Two(b"LitGrid", Word(elem_name(classes, *e)), Count(*n)),
        Instr::Each(t) => One(b"Each", Count(*t)),
        Instr::Fill => Alone(b"Fill"),
        Instr::Append => Alone(b"Append"),
        Instr::Spork(f) => One(b"Spork", Number(*f)),
        Instr::SporkVirtual(slot, n) => Two(b"SporkVirtual", Number(*slot), Count(*n)),
        Instr::WaitDur => Alone(b"WaitDur"),
        Instr::WaitTime => Alone(b"WaitTime"),
        Instr::WaitEvent => Alone(b"WaitEvent"),
        Instr::Yield => Alone(b"Yield"),
        Instr::Exit => Alone(b"Exit"),
        Instr::Print(kinds) => Words::Kinds(b"Print", kinds.items()),
        Instr::Connect => Alone(b"Connect"),
        Instr::Disconnect => Alone(b"Disconnect"),
        Instr::Param(p) => One(b"Param", Word(parameter_name(*p))),
        Instr::SetParam(p) => One(b"SetParam", Word(parameter_name(*p))),
    }
}
