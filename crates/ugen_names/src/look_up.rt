//! What stands in the table.
ghost use Rattle.std.specs.Prelude.{◌≡◌, map, find};
ghost use Rattle.std.specs.Option.{option_map};
ghost use Rattle.ugen_names.specs.Rows.{row_meant};
ghost use Rattle.ugen_names.specs.Table.{rows, common, is_of, is_named, unit_named, unit_name};
ghost use Rattle.ugen_names.specs.Table.{parameter_meant, own_parameters, is_called, parameter_named};

use crate::param::parameter_name;
use crate::table::{COMMON, Parameter, Row, UGENS, UgenKind};

fn rows() -> &'static [Row]
    ensures { map row_meant result.now ≡ rows }
{
    UGENS
}

fn common() -> &'static [Parameter]
    ensures { map parameter_meant result.now ≡ common }
{
    COMMON
}

/// Whether this row is of a kind.
fn is_of(row: &Row, kind: UgenKind) -> bool
    ensures { result ≡ is_of kind (row_meant row.now) }
{
    row.0 == kind
}

/// Whether the kind of this row has this name.
fn is_named(row: &Row, name: &[u8]) -> bool
    ensures { result ≡ is_named name.now (row_meant row.now) }
{
    row.1 == name
}

/// Whether a parameter has this name.
fn is_called(parameter: &Parameter, name: &[u8]) -> bool
    ensures { result ≡ is_called name.now (parameter_meant parameter.now) }
{
    parameter_name(parameter.0) == name
}

/// The kind of unit generators whose type has this name.
pub fn unit_named(name: &[u8]) -> Option<UgenKind>
    ensures { result ≡ unit_named name.now }
{
    for row in rows() {
        if is_named(row, name) {
            return Some(row.0);
        }
    }
    None
}

/// The name of a kind as a type; one that is no type has the name of what every one fits, `UGen`.
pub fn unit_name(kind: UgenKind) -> &'static [u8]
    ensures { result.now ≡ unit_name kind }
{
    for row in rows() {
        if is_of(row, kind) {
            return row.1;
        }
    }
    b"UGen"
}

/// The parameters that a kind has beside those of every kind.
fn own_parameters(kind: UgenKind) -> &'static [Parameter]
    ensures { map parameter_meant result.now ≡ own_parameters kind }
{
    for row in rows() {
        if is_of(row, kind) {
            return row.2;
        }
    }
    &[]
}

/// The first of these that has this name.
fn named_among(parameters: &[Parameter], name: &[u8]) -> Option<Parameter>
    ensures { option_map parameter_meant result
        ≡ find (is_called name.now) (map parameter_meant parameters.now) }
{
    for parameter in parameters {
        if is_called(parameter, name) {
            return Some(*parameter);
        }
    }
    None
}

/// The parameter of this name that unit generators of this kind have.
pub fn parameter_named(kind: UgenKind, name: &[u8]) -> Option<Parameter>
    ensures { option_map parameter_meant result ≡ parameter_named kind name.now }
{
    if let Some(parameter) = named_among(common(), name) {
        return Some(parameter);
    }
    named_among(own_parameters(kind), name)
}
