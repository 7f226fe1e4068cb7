//! The parameters of unit generators.
ghost use Rattle.std.specs.Prelude.{◌≡◌};
ghost use Rattle.std.specs.Option.{option_map};
ghost use Rattle.type_rules.specs.Parameters.{parameter_of};
ghost use Rattle.type_rules.specs.ParameterRows.{settable};

use ck_values::Elem;
use ugen_names::{Param, UgenKind, parameter_named};

/// A parameter of a unit generator.
#[derive(Clone, Copy, PartialEq, Eq)]
pub struct Parameter {
    pub param: Param,
    /// The type of its values.
    pub elem: Elem,
    /// Whether it can't be set.
    pub is_read_only: bool,
}

/// The parameter of this name that unit generators of this kind have.
pub fn param(kind: UgenKind, name: &[u8]) -> Option<Parameter>
    ensures { option_map settable result ≡ parameter_of kind name.now }
{
    let (param, values, _, is_read_only) = parameter_named(kind, name)?;
    Some(Parameter {
        param,
        elem: Elem::of_param(values),
        is_read_only,
    })
}
