//! The code of statements.
ghost use Rattle.std.specs.Prelude.{ℕ, ◌≡◌, ◌+◌, pos, [], ◌∷◌, ◌++◌, OnOk, vec_len};
ghost use Rattle.ck_values.specs.declared.operator.Op2.TheVariants.{SubIntInt, GtIntInt};
ghost use Rattle.ck_code.specs.declared.instr.Instr.TheVariants.{Int, Dup, Jump, Op2 as TakeTwo, Print};
ghost use Rattle.ck_scheme.specs.Scheme.{at, test_end, test_code, stmt_end, stmt_code, block_end, block_code};
ghost use Rattle.ck_typed.specs.Tree.{If, Loop, LoopLast, For, ForEver, Repeat};
ghost use Rattle.ck_typed.specs.View.{view_expr, view_stmt, stmts_of};
ghost use Rattle.emit_code.specs.Exits.{exits_of, all_exits_of};
ghost use Rattle.emit_code.specs.Rounds.{round_code};

use crate::expr::{emit_all, emit_expr};
use crate::jumps::{Held, hold, write, write_exits};
use crate::tables::Tables;
use ck_base::List;
use ck_code::{Instr, Step};
use ck_typed::{Class, TypedExpr, TypedStmt};
use ck_values::{Kind, Op1, Op2, Place};
use code_pieces::{put, put_three, put_two};
use code_texts::Texts;
use fixed_point::Memory;

/// A value of each kind is printed.
fn put_print(code: &mut Vec<Step>, kinds: &[Kind], place: Place) -> Result<(), Memory>
    ensures code { OnOk result (code.new.items ≡ code.old.items
        ++ at (Print kinds.now) place ∷ []) }
    ensures len { OnOk result (vec_len code.new ≡ vec_len code.old + 1) }
{
    let kinds = kinds.to_vec(*code.allocator())?;
    put(code, Instr::Print(List::from_vec(kinds)), place)
}

/// Whether the count on top is above 0; it stays beneath.
fn put_more(code: &mut Vec<Step>, place: Place) -> Result<(), Memory>
    ensures code { OnOk result (code.new.items ≡ code.old.items
        ++ at Dup place ∷ at (Int (pos 0)) place ∷ at (TakeTwo GtIntInt) place ∷ []) }
    ensures len { OnOk result (vec_len code.new ≡ vec_len code.old + 1 + 1 + 1) }
{
    let more = Instr::Op2(Op2::GtIntInt);
    put_three(code, Instr::Dup, Instr::Int(0), more, place)
}

/// The count on top is lowered.
fn put_fewer(code: &mut Vec<Step>, place: Place) -> Result<(), Memory>
    ensures code { OnOk result (code.new.items ≡ code.old.items
        ++ at (Int (pos 1)) place ∷ at (TakeTwo SubIntInt) place ∷ []) }
    ensures len { OnOk result (vec_len code.new ≡ vec_len code.old + 1 + 1) }
{
    put_two(code, Instr::Int(1), Instr::Op2(Op2::SubIntInt), place)
}

/// The jump of a break or of a continue, which is held.
fn put_exit(
    code: &mut Vec<Step>,
    held: &mut Vec<Held>,
    leaves: bool,
    place: Place,
) -> Result<(), Memory>
    ensures code { OnOk result (code.new.items ≡ code.old.items ++ at (Jump 0) place ∷ []) }
    ensures held { OnOk result (held.new.items ≡ held.old.items
        ++ record { at = vec_len code.old; leaves = leaves; place = place } ∷ []) }
    ensures len { OnOk result (vec_len code.new ≡ vec_len code.old + 1) }
{
    let at = hold(code, place)?;
    held.push(Held { at, leaves, place })?;
    Ok(())
}

/// A loop's test, denied where the loop goes on until it holds.
fn emit_test(
    code: &mut Vec<Step>,
    test: &TypedExpr,
    until: bool,
    place: Place,
    tables: &Tables,
) -> Result<(), Memory>
    ensures code { OnOk result (code.new.items ≡ code.old.items
        ++ test_code tables.now.classes.now tables.now.texts.now until (vec_len code.old) (view_expr test.now) place) }
    ensures len { OnOk result
        (vec_len code.new ≡ test_end tables.now.classes.now until (vec_len code.old) (view_expr test.now)) }
{
    emit_expr(code, test, tables)?;
    if until {
        put(code, Instr::Op1(Op1::NotInt), place)?;
    }
    Ok(())
}

/// The code of a function's body, put after the code before it. A break or a continue outside of
/// loops, of which a body that is well formed has none, goes to the first instruction.
pub fn emit_body(
    code: &mut Vec<Step>,
    body: &TypedStmt,
    classes: &[Class],
    texts: &Texts,
) -> Result<(), Memory>
    ensures { OnOk result (code.new.items ≡ code.old.items
        ++ stmt_code classes.now texts.now 0 0 (vec_len code.old) (view_stmt body.now)) }
{
    let mut outside = Vec::new(*code.allocator());
    let tables = Tables { classes, texts };
    emit_stmt(code, &mut outside, body, &tables)
}

/// The code of a statement, put after the code before it. The jumps of its breaks and continues are
/// held: the loop around it writes them.
#[cycle(stmts)]
#[tactic(auto, using(crate::proofs::Rows::stmt_rows))]
fn emit_stmt(
    code: &mut Vec<Step>,
    held: &mut Vec<Held>,
    t: &TypedStmt,
    tables: &Tables,
) -> Result<(), Memory>
    ensures code { OnOk result (code.new.items ≡ code.old.items
        ++ stmt_code tables.now.classes.now tables.now.texts.now 0 0 (vec_len code.old) (view_stmt t.now)) }
    ensures held { OnOk result (held.new.items ≡ held.old.items
        ++ exits_of tables.now.classes.now (vec_len code.old) (view_stmt t.now)) }
    ensures len { OnOk result
        (vec_len code.new ≡ stmt_end tables.now.classes.now (vec_len code.old) (view_stmt t.now)) }
{
    match t {
        TypedStmt::Expr { value, place } => {
            emit_expr(code, value, tables)?;
            put(code, Instr::Drop, *place)
        }
        TypedStmt::Block { statements } => { emit_block(code, held, statements.items(), tables) }
        TypedStmt::Print {
            items,
            kinds,
            place,
        } => {
            emit_all(code, items.items(), tables)?;
            put_print(code, kinds.items(), *place)
        }
        TypedStmt::If {
            test,
            then,
            otherwise,
            place,
        } => emit_if(code, held, test, then, otherwise, *place, tables),
        TypedStmt::Loop {
            until,
            test,
            body,
            place,
        } => emit_while(code, test, *until, body, *place, tables),
        TypedStmt::LoopLast {
            until,
            body,
            test,
            place,
        } => emit_do(code, body, test, *until, *place, tables),
        TypedStmt::For {
            start,
            test,
            step,
            body,
            place,
        } => emit_for(code, held, start, test, step, body, *place, tables),
        TypedStmt::ForEver {
            start,
            step,
            body,
            place,
        } => emit_for_ever(code, held, start, step, body, *place, tables),
        TypedStmt::Repeat { count, body, place } => {
            emit_repeat(code, count, body, *place, tables)
        }
        // Nor is a loop over the items of an array run yet.
        TypedStmt::ForEach { .. } => Ok(()),
        TypedStmt::Break { place } => put_exit(code, held, true, *place),
        TypedStmt::Continue { place } => put_exit(code, held, false, *place),
        TypedStmt::Return { value, place } => {
            emit_expr(code, value, tables)?;
            put(code, Instr::Return, *place)
        }
    }
}

/// `if (test) then else otherwise`.
#[cycle(stmts)]
#[tactic(auto, using(crate::proofs::Rows::stmt_rows))]
fn emit_if(
    code: &mut Vec<Step>,
    held: &mut Vec<Held>,
    test: &TypedExpr,
    then: &TypedStmt,
    otherwise: &TypedStmt,
    place: Place,
    tables: &Tables,
) -> Result<(), Memory>
    ensures code { OnOk result (code.new.items ≡ code.old.items
        ++ stmt_code tables.now.classes.now tables.now.texts.now 0 0 (vec_len code.old)
        (If (view_expr test.now) (view_stmt then.now) (view_stmt otherwise.now) place)) }
    ensures held { OnOk result (held.new.items ≡ held.old.items
        ++ exits_of tables.now.classes.now (vec_len code.old)
        (If (view_expr test.now) (view_stmt then.now) (view_stmt otherwise.now) place)) }
    ensures len { OnOk result (vec_len code.new
        ≡ stmt_end tables.now.classes.now (vec_len code.old)
        (If (view_expr test.now) (view_stmt then.now) (view_stmt otherwise.now) place)) }
{
    emit_expr(code, test, tables)?;
    let over = hold(code, place)?;
    emit_stmt(code, held, then, tables)?;
    let out = hold(code, place)?;
    let other = code.len();
    write(code, over, Instr::JumpZero(other), place);
    emit_stmt(code, held, otherwise, tables)?;
    let end = code.len();
    write(code, out, Instr::Jump(end), place);
    Ok(())
}

/// `while (test) body` and `until (test) body`.
#[cycle(stmts)]
#[tactic(auto, using(crate::proofs::Rows::stmt_rows))]
fn emit_while(
    code: &mut Vec<Step>,
    test: &TypedExpr,
    until: bool,
    body: &TypedStmt,
    place: Place,
    tables: &Tables,
) -> Result<(), Memory>
    ensures code { OnOk result (code.new.items ≡ code.old.items
        ++ stmt_code tables.now.classes.now tables.now.texts.now 0 0 (vec_len code.old)
        (Loop until (view_expr test.now) (view_stmt body.now) place)) }
    ensures len { OnOk result (vec_len code.new
        ≡ stmt_end tables.now.classes.now (vec_len code.old)
        (Loop until (view_expr test.now) (view_stmt body.now) place)) }
{
    let round = code.len();
    emit_test(code, test, until, place, tables)?;
    let over = hold(code, place)?;
    put(code, Instr::Turn, place)?;
    let mut exits = Vec::new(*code.allocator());
    emit_stmt(code, &mut exits, body, tables)?;
    put(code, Instr::Jump(round), place)?;
    let end = code.len();
    write_exits(code, &exits, end, round);
    write(code, over, Instr::JumpZero(end), place);
    Ok(())
}

/// `do body while (test);` and `do body until (test);`.
#[cycle(stmts)]
#[tactic(auto, using(crate::proofs::Rows::stmt_rows))]
fn emit_do(
    code: &mut Vec<Step>,
    body: &TypedStmt,
    test: &TypedExpr,
    until: bool,
    place: Place,
    tables: &Tables,
) -> Result<(), Memory>
    ensures code { OnOk result (code.new.items ≡ code.old.items
        ++ stmt_code tables.now.classes.now tables.now.texts.now 0 0 (vec_len code.old)
        (LoopLast until (view_stmt body.now) (view_expr test.now) place)) }
    ensures len { OnOk result (vec_len code.new
        ≡ stmt_end tables.now.classes.now (vec_len code.old)
        (LoopLast until (view_stmt body.now) (view_expr test.now) place)) }
{
    let round = code.len();
    put(code, Instr::Turn, place)?;
    let mut exits = Vec::new(*code.allocator());
    emit_stmt(code, &mut exits, body, tables)?;
    let again = code.len();
    emit_test(code, test, until, place, tables)?;
    let over = hold(code, place)?;
    put(code, Instr::Jump(round), place)?;
    let end = code.len();
    write(code, over, Instr::JumpZero(end), place);
    write_exits(code, &exits, end, again);
    Ok(())
}

/// `for (start; test; step) body`.
#[cycle(stmts)]
#[tactic(auto, using(crate::proofs::Rows::stmt_rows))]
fn emit_for(
    code: &mut Vec<Step>,
    held: &mut Vec<Held>,
    start: &TypedStmt,
    test: &TypedExpr,
    step: &TypedStmt,
    body: &TypedStmt,
    place: Place,
    tables: &Tables,
) -> Result<(), Memory>
    ensures code { OnOk result (code.new.items ≡ code.old.items
        ++ stmt_code tables.now.classes.now tables.now.texts.now 0 0 (vec_len code.old)
        (For (view_stmt start.now) (view_expr test.now) (view_stmt step.now) (view_stmt body.now) place)) }
    ensures held { OnOk result (held.new.items ≡ held.old.items
        ++ exits_of tables.now.classes.now (vec_len code.old)
        (For (view_stmt start.now) (view_expr test.now) (view_stmt step.now) (view_stmt body.now) place)) }
    ensures len { OnOk result (vec_len code.new
        ≡ stmt_end tables.now.classes.now (vec_len code.old)
        (For (view_stmt start.now) (view_expr test.now) (view_stmt step.now) (view_stmt body.now) place)) }
{
    emit_stmt(code, held, start, tables)?;
    let round = code.len();
    emit_expr(code, test, tables)?;
    let over = hold(code, place)?;
    put(code, Instr::Turn, place)?;
    emit_round(code, step, body, round, place, tables)?;
    let end = code.len();
    write(code, over, Instr::JumpZero(end), place);
    Ok(())
}

/// `for` without a test.
#[cycle(stmts)]
#[tactic(auto, using(crate::proofs::Rows::stmt_rows))]
fn emit_for_ever(
    code: &mut Vec<Step>,
    held: &mut Vec<Held>,
    start: &TypedStmt,
    step: &TypedStmt,
    body: &TypedStmt,
    place: Place,
    tables: &Tables,
) -> Result<(), Memory>
    ensures code { OnOk result (code.new.items ≡ code.old.items
        ++ stmt_code tables.now.classes.now tables.now.texts.now 0 0 (vec_len code.old)
        (ForEver (view_stmt start.now) (view_stmt step.now) (view_stmt body.now) place)) }
    ensures held { OnOk result (held.new.items ≡ held.old.items
        ++ exits_of tables.now.classes.now (vec_len code.old)
        (ForEver (view_stmt start.now) (view_stmt step.now) (view_stmt body.now) place)) }
    ensures len { OnOk result (vec_len code.new
        ≡ stmt_end tables.now.classes.now (vec_len code.old)
        (ForEver (view_stmt start.now) (view_stmt step.now) (view_stmt body.now) place)) }
{
    emit_stmt(code, held, start, tables)?;
    let round = code.len();
    put(code, Instr::Turn, place)?;
    emit_round(code, step, body, round, place, tables)
}

/// The body of a `for`, its step, and the jump back to the round's begin.
#[cycle(stmts)]
#[tactic(auto, using(crate::proofs::Rows::stmt_rows))]
fn emit_round(
    code: &mut Vec<Step>,
    step: &TypedStmt,
    body: &TypedStmt,
    round: usize,
    place: Place,
    tables: &Tables,
) -> Result<(), Memory>
    ensures code { OnOk result (code.new.items ≡ code.old.items
        ++ round_code tables.now.classes.now tables.now.texts.now round (vec_len code.old) (view_stmt step.now)
        (view_stmt body.now) place) }
    ensures len { OnOk result (vec_len code.new
        ≡ stmt_end tables.now.classes.now (stmt_end tables.now.classes.now (vec_len code.old) (view_stmt body.now))
        (view_stmt step.now) + 1) }
{
    let mut exits = Vec::new(*code.allocator());
    emit_stmt(code, &mut exits, body, tables)?;
    let again = code.len();
    let mut last = Vec::new(*code.allocator());
    emit_stmt(code, &mut last, step, tables)?;
    put(code, Instr::Jump(round), place)?;
    let end = code.len();
    write_exits(code, &last, end, round);
    write_exits(code, &exits, end, again);
    Ok(())
}

/// `repeat (count) body`.
#[cycle(stmts)]
#[tactic(auto, using(crate::proofs::Rows::stmt_rows))]
fn emit_repeat(
    code: &mut Vec<Step>,
    count: &TypedExpr,
    body: &TypedStmt,
    place: Place,
    tables: &Tables,
) -> Result<(), Memory>
    ensures code { OnOk result (code.new.items ≡ code.old.items
        ++ stmt_code tables.now.classes.now tables.now.texts.now 0 0 (vec_len code.old)
        (Repeat (view_expr count.now) (view_stmt body.now) place)) }
    ensures len { OnOk result (vec_len code.new
        ≡ stmt_end tables.now.classes.now (vec_len code.old)
        (Repeat (view_expr count.now) (view_stmt body.now) place)) }
{
    emit_expr(code, count, tables)?;
    let round = code.len();
    put_more(code, place)?;
    let over = hold(code, place)?;
    put(code, Instr::Turn, place)?;
    let mut exits = Vec::new(*code.allocator());
    emit_stmt(code, &mut exits, body, tables)?;
    let again = code.len();
    put_fewer(code, place)?;
    put(code, Instr::Jump(round), place)?;
    let end = code.len();
    write_exits(code, &exits, end, again);
    write(code, over, Instr::JumpZero(end), place);
    put(code, Instr::Drop, place)
}

/// The code of statements, one after another.
#[cycle(stmts)]
#[tactic(auto, using(crate::proofs::Rows::stmt_rows))]
fn emit_block(
    code: &mut Vec<Step>,
    held: &mut Vec<Held>,
    all: &[TypedStmt],
    tables: &Tables,
) -> Result<(), Memory>
    ensures code { OnOk result (code.new.items ≡ code.old.items
        ++ block_code tables.now.classes.now tables.now.texts.now 0 0 (vec_len code.old) (stmts_of all.now)) }
    ensures held { OnOk result (held.new.items ≡ held.old.items
        ++ all_exits_of tables.now.classes.now (vec_len code.old) (stmts_of all.now)) }
    ensures len { OnOk result
        (vec_len code.new ≡ block_end tables.now.classes.now (vec_len code.old) (stmts_of all.now)) }
{
    for t in all {
        emit_stmt(code, held, t, tables)?;
    }
    Ok(())
}
