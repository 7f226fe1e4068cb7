//! Laws of the tables: each is the contract of a function that does nothing. The definitions are the
//! rows of the code, so a row is told here once more, by its name.
ghost use Rattle.std.specs.Prelude.{◌≡◌, map, codes, IfSome};
ghost use Rattle.ck_values.specs.declared.operator.Op2.{Op2};
ghost use Rattle.ck_syntax.specs.declared.operator.BinaryOp.{BinaryOp};
ghost use Rattle.ck_typed.specs.declared.native.Native.{Native};
ghost use Rattle.type_rules.specs.Operators.{rows, compared_references, compared_shreds};
ghost use Rattle.type_rules.specs.OperatorNames as operator;
ghost use Rattle.ck_values.specs.OperatorNames.{operator_name};
ghost use Rattle.type_rules.specs.OperatorNames.{signed};
ghost use Rattle.type_rules.specs.Calls.{calls};
ghost use Rattle.type_rules.specs.CallNames as call;
ghost use Rattle.type_rules.specs.CallNames.{call_name};

/// The code of each row of the operators is named by the sign and the types of its row.
pub fn operators_are_named_by_their_signs()
    ensures { map operator.code_name rows ≡ map operator.row_name rows }
{}

/// Each code that takes no references and no shreds has one row.
pub fn operators_have_a_row_each()
    ensures { (code : Op2) → operator.rows_with code ≡ operator.rows_due code }
{}

/// `==` and `!=` of references, whose letter is `r`, and of shreds, whose letter is `h`, have the
/// codes with these names.
pub fn comparisons_are_named_by_their_signs()
    ensures references { (o : BinaryOp) → IfSome (compared_references o)
        (λ it. operator_name it.code ≡ signed o (codes "r") (codes "r")) }
    ensures shreds { (o : BinaryOp) → IfSome (compared_shreds o)
        (λ it. operator_name it.code ≡ signed o (codes "h") (codes "h")) }
{}

/// Each row of the built-in calls is of the call that its holder, its name and its types name.
pub fn calls_are_named_by_their_rows()
    ensures { map (λ row. call_name row.native) calls ≡ map call.row_name calls }
{}

/// Each built-in call has one row.
pub fn calls_have_a_row_each()
    ensures { (native : Native) → call.rows_with native ≡ 1 }
{}
