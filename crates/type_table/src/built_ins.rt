//! The names that every program has.
ghost use Rattle.std.specs.Prelude.{◌≡◌, map};
ghost use Rattle.type_table.specs.Names.{built_in_names, built_in};
ghost use Rattle.type_table.specs.NameRows.{row_meant};

use ck_values::Elem::{self, Class, Shred, Unit};
use type_rules::Holder;
use ugen_names::unit_named;

/// What a built-in name stands for.
#[derive(Clone, Copy, PartialEq, Eq)]
pub enum BuiltInName {
    /// A type.
    Elem(Elem),
    /// What calls are made on by its name: `Math`, `Std`, `Machine`.
    Module(Holder),
}

/// A row of the table: a name, and what it stands for.
type Row = (&'static [u8], BuiltInName);

/// One row for each name that is none of a kind of unit generators.
static ROWS: &[Row] = &[
    (b"Object", BuiltInName::Elem(Class(0))),
    (b"Event", BuiltInName::Elem(Class(1))),
    (b"Shred", BuiltInName::Elem(Shred)),
    (b"Math", BuiltInName::Module(Holder::Math)),
    (b"Std", BuiltInName::Module(Holder::Std)),
    (b"Machine", BuiltInName::Module(Holder::Machine)),
];

fn rows() -> &'static [Row]
    ensures { map row_meant result.now ≡ built_in_names }
{
    ROWS
}

/// What this name stands for in every program.
pub fn built_in(name: &[u8]) -> Option<BuiltInName>
    ensures { result ≡ built_in name.now }
{
    for row in rows() {
        if name == row.0 {
            return Some(row.1);
        }
    }
    Some(BuiltInName::Elem(Unit(unit_named(name)?)))
}
