//! The built-in calls.
ghost use Rattle.std.specs.Prelude.{◌≡◌, map};
ghost use Rattle.std.specs.Option.{option_map};
ghost use Rattle.type_rules.specs.Calls.{calls, is_called, takes, call_of, has_call};
ghost use Rattle.type_rules.specs.CallRows.{row_meant, built_in};

use crate::calls::Holder as On;
use ck_typed::Native::{
    self, Abs, Broadcast, CharAt, Clear, Fabs, KeyOff, KeyOffWhere, KeyOn, KeyOnWhere, Length,
    Random2, Random2f, Remove, SetAdsr, ShredId, Signal, Size, Srandom, Substring,
};
use ck_values::Elem::{Dur, Float, Int, Text};
use ck_values::Kind::{One, Void};
use ck_values::{Elem, Kind};

/// What a built-in call is made on.
#[derive(Clone, Copy, PartialEq, Eq)]
pub enum Holder {
    /// A Shred.
    Shred,
    /// An Event.
    Event,
    /// An array.
    Array,
    /// A string.
    Text,
    /// An Envelope or an ADSR.
    Envelope,
    /// An ADSR.
    Adsr,
    /// The name `Std`.
    Std,
    /// The name `Math`.
    Math,
    /// The name `Machine`.
    Machine,
}

/// A built-in call.
#[derive(Clone, Copy)]
pub struct BuiltIn {
    pub native: Native,
    /// The types of its arguments.
    pub params: &'static [Elem],
    /// What it gives.
    pub gives: Kind,
}

/// A row of the table: what it is made on, its name, its arguments, the call, and what it gives.
type Row = (Holder, &'static [u8], &'static [Elem], Native, Kind);

/// One row for each call. The definition is this table.
static CALLS: &[Row] = &[
    (On::Shred, b"id", &[], ShredId, One(Int)),
    (On::Event, b"signal", &[], Signal, Void),
    (On::Event, b"broadcast", &[], Broadcast, Void),
    (On::Machine, b"remove", &[Int], Remove, One(Int)),
    (On::Array, b"size", &[], Size, One(Int)),
    (On::Array, b"clear", &[], Clear, Void),
    (On::Text, b"length", &[], Length, One(Int)),
    (On::Text, b"charAt", &[Int], CharAt, One(Int)),
    (On::Text, b"substring", &[Int, Int], Substring, One(Text)),
    (On::Std, b"abs", &[Int], Abs, One(Int)),
    (On::Std, b"fabs", &[Float], Fabs, One(Float)),
    (On::Math, b"random2", &[Int, Int], Random2, One(Int)),
    (On::Math, b"random2f", &[Float, Float], Random2f, One(Float)),
    (On::Math, b"srandom", &[Int], Srandom, Void),
    (On::Envelope, b"keyOn", &[], KeyOn, Void),
    (On::Envelope, b"keyOff", &[], KeyOff, Void),
    (On::Envelope, b"keyOn", &[Int], KeyOnWhere, Void),
    (On::Envelope, b"keyOff", &[Int], KeyOffWhere, Void),
    (On::Adsr, b"set", &[Dur, Dur, Float, Dur], SetAdsr, Void),
];

fn rows() -> &'static [Row]
    ensures { map row_meant result.now ≡ calls }
{
    CALLS
}

/// Whether this row is of a call with this name.
fn is_called(row: &Row, holder: Holder, name: &[u8]) -> bool
    ensures { result ≡ is_called holder name.now (row_meant row.now) }
{
    row.0 == holder && row.1 == name
}

/// Whether it takes so many arguments besides.
fn takes(row: &Row, holder: Holder, name: &[u8], count: usize) -> bool
    ensures { result ≡ takes holder name.now count (row_meant row.now) }
{
    is_called(row, holder, name) && row.2.len() == count
}

/// Whether a call of this name is built in.
pub fn has_call(holder: Holder, name: &[u8]) -> bool
    ensures { result ≡ has_call holder name.now }
{
    for row in rows() {
        if is_called(row, holder, name) {
            return true;
        }
    }
    false
}

/// The built-in call of this name that takes so many arguments.
pub fn call(holder: Holder, name: &[u8], count: usize) -> Option<BuiltIn>
    ensures { option_map built_in result ≡ call_of holder name.now count }
{
    for row in rows() {
        if takes(row, holder, name, count) {
            let (_, _, params, native, gives) = *row;
            return Some(BuiltIn {
                native,
                params,
                gives,
            });
        }
    }
    None
}
