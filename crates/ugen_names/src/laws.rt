//! Laws of the table: each is the contract of a function that does nothing.
ghost use Rattle.std.specs.Prelude.{◌≡◌, IsTrue, Some};
ghost use Rattle.ugen_names.specs.declared.table.UgenKind.{UgenKind};
ghost use Rattle.ugen_names.specs.Table.{has_row, unit_name, unit_named, parameters};
ghost use Rattle.ugen_names.specs.Table.{are_distinct};

/// The name of each type stands for it: no two kinds share one.
pub fn each_name_is_of_one_kind()
    ensures { (kind : UgenKind) → IsTrue (has_row kind) → unit_named (unit_name kind) ≡ Some kind }
{}

/// No kind has a parameter twice.
pub fn parameters_are_distinct()
    ensures { (kind : UgenKind) → IsTrue (are_distinct (parameters kind)) }
{}
