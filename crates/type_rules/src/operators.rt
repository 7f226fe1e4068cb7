//! What the operators of two operands take and give.
ghost use Rattle.std.specs.Prelude.{◌≡◌};
ghost use Rattle.type_rules.specs.Operators.{rows, row_of, widens, widened, joined_values, are_references, are_alike, compared_references, compared_shreds, plain, joined};

use crate::fitting::{fits, is_reference, is_same};
use ck_syntax::BinaryOp;
use ck_syntax::BinaryOp::{
    Add, And, Div, Equal, Greater, GreaterEqual, Less, LessEqual, Mod, Mul, NotEqual, Or,
    ShiftLeft, ShiftRight, Sub, Xor,
};
use ck_values::Elem::{Dur, Float, Int, Text, Time};
use ck_values::{Elem, Kind, Op2};

/// A row of the table: the operator, the types of its operands, its code, and what it gives.
type Row = (BinaryOp, Elem, Elem, Op2, Elem);

/// An operator on its operands, of which an int may be widened to a float.
#[derive(Clone, Copy, PartialEq, Eq)]
pub struct Joined {
    /// What it does, on operands that were widened.
    pub code: Op2,
    /// The type of what it gives.
    pub gives: Elem,
    /// Whether its left operand is an int that becomes a float.
    pub widens_left: bool,
    /// Whether its right operand is.
    pub widens_right: bool,
}

/// One row for each pair of types that an operator takes. The definition is this table.
static OPERATORS: &[Row] = &[
    // `+ - * / %` on ints, and on floats
    (Add, Int, Int, Op2::AddIntInt, Int),
    (Sub, Int, Int, Op2::SubIntInt, Int),
    (Mul, Int, Int, Op2::MulIntInt, Int),
    (Div, Int, Int, Op2::DivIntInt, Int),
    (Mod, Int, Int, Op2::ModIntInt, Int),
    (Add, Float, Float, Op2::AddFloatFloat, Float),
    (Sub, Float, Float, Op2::SubFloatFloat, Float),
    (Mul, Float, Float, Op2::MulFloatFloat, Float),
    (Div, Float, Float, Op2::DivFloatFloat, Float),
    (Mod, Float, Float, Op2::ModFloatFloat, Float),
    // `& | ^ << >>` on ints
    (And, Int, Int, Op2::AndIntInt, Int),
    (Or, Int, Int, Op2::OrIntInt, Int),
    (Xor, Int, Int, Op2::XorIntInt, Int),
    (ShiftLeft, Int, Int, Op2::ShlIntInt, Int),
    (ShiftRight, Int, Int, Op2::ShrIntInt, Int),
    // `+ -` on durs and times
    (Add, Dur, Dur, Op2::AddDurDur, Dur),
    (Sub, Dur, Dur, Op2::SubDurDur, Dur),
    (Add, Time, Dur, Op2::AddTimeDur, Time),
    (Add, Dur, Time, Op2::AddDurTime, Time),
    (Sub, Time, Dur, Op2::SubTimeDur, Time),
    (Sub, Time, Time, Op2::SubTimeTime, Dur),
    // `*` and `/` of a dur and a number
    (Mul, Int, Dur, Op2::MulIntDur, Dur),
    (Mul, Float, Dur, Op2::MulFloatDur, Dur),
    (Mul, Dur, Int, Op2::MulDurInt, Dur),
    (Mul, Dur, Float, Op2::MulDurFloat, Dur),
    (Div, Dur, Int, Op2::DivDurInt, Dur),
    (Div, Dur, Float, Op2::DivDurFloat, Dur),
    // `/` by a dur, and what is left over
    (Div, Dur, Dur, Op2::DivDurDur, Float),
    (Div, Time, Dur, Op2::DivTimeDur, Float),
    (Mod, Dur, Dur, Op2::ModDurDur, Dur),
    (Mod, Time, Dur, Op2::ModTimeDur, Dur),
    // `+` with a string
    (Add, Text, Text, Op2::AddTextText, Text),
    (Add, Text, Int, Op2::AddTextInt, Text),
    (Add, Text, Float, Op2::AddTextFloat, Text),
    (Add, Int, Text, Op2::AddIntText, Text),
    (Add, Float, Text, Op2::AddFloatText, Text),
    // `== !=`
    (Equal, Int, Int, Op2::EqIntInt, Int),
    (Equal, Float, Float, Op2::EqFloatFloat, Int),
    (Equal, Dur, Dur, Op2::EqDurDur, Int),
    (Equal, Time, Time, Op2::EqTimeTime, Int),
    (Equal, Text, Text, Op2::EqTextText, Int),
    (NotEqual, Int, Int, Op2::NeIntInt, Int),
    (NotEqual, Float, Float, Op2::NeFloatFloat, Int),
    (NotEqual, Dur, Dur, Op2::NeDurDur, Int),
    (NotEqual, Time, Time, Op2::NeTimeTime, Int),
    (NotEqual, Text, Text, Op2::NeTextText, Int),
    // `< > <= >=`
    (Less, Int, Int, Op2::LtIntInt, Int),
    (Less, Float, Float, Op2::LtFloatFloat, Int),
    (Less, Dur, Dur, Op2::LtDurDur, Int),
    (Less, Time, Time, Op2::LtTimeTime, Int),
    (Greater, Int, Int, Op2::GtIntInt, Int),
    (Greater, Float, Float, Op2::GtFloatFloat, Int),
    (Greater, Dur, Dur, Op2::GtDurDur, Int),
    (Greater, Time, Time, Op2::GtTimeTime, Int),
    (LessEqual, Int, Int, Op2::LeIntInt, Int),
    (LessEqual, Float, Float, Op2::LeFloatFloat, Int),
    (LessEqual, Dur, Dur, Op2::LeDurDur, Int),
    (LessEqual, Time, Time, Op2::LeTimeTime, Int),
    (GreaterEqual, Int, Int, Op2::GeIntInt, Int),
    (GreaterEqual, Float, Float, Op2::GeFloatFloat, Int),
    (GreaterEqual, Dur, Dur, Op2::GeDurDur, Int),
    (GreaterEqual, Time, Time, Op2::GeTimeTime, Int),
];

fn all_rows() -> &'static [Row]
    ensures { result.now ≡ rows }
{
    OPERATORS
}

/// The code of an operator on these very types, and what it gives.
fn row(operator: BinaryOp, left: Elem, right: Elem) -> Option<(Op2, Elem)>
    ensures { result ≡ row_of operator left right }
{
    for (o, a, b, code, gives) in all_rows() {
        if *o == operator && is_same(*a, left) && is_same(*b, right) {
            return Some((*code, *gives));
        }
    }
    None
}

/// Whether a value of the first type is widened beside one of the second: an int beside a float.
pub fn is_widened(a: Elem, beside: Elem) -> bool
    ensures { result ≡ widens a beside }
{
    match (a, beside) {
        (Int, Float) => true,
        _ => false,
    }
}

/// The type that a value of the first type has beside one of the second.
fn wider(a: Elem, beside: Elem) -> Elem
    ensures { result ≡ widened a beside }
{
    if is_widened(a, beside) { Float } else { a }
}

/// An operator on values of these types, where it takes them. References and shreds are not among
/// them.
fn join_values(operator: BinaryOp, left: Elem, right: Elem) -> Option<Joined>
    ensures { result ≡ joined_values operator left right }
{
    let (code, gives) = row(operator, wider(left, right), wider(right, left))?;
    Some(Joined {
        code,
        gives,
        widens_left: is_widened(left, right),
        widens_right: is_widened(right, left),
    })
}

/// Whether a type is one of references: `null`, an array, an object or a unit generator.
pub fn are_references(kind: Kind) -> bool
    ensures { result ≡ are_references kind }
{
    match kind {
        Kind::Null | Kind::Row(_) | Kind::Grid(_) => true,
        Kind::One(elem) => is_reference(elem),
        Kind::Void => false,
    }
}

/// Whether references of these types may be compared: one fits the other.
fn are_alike(parents: &[u32], a: Kind, b: Kind) -> bool
    ensures { result ≡ are_alike parents.now a b }
{
    are_references(a) && are_references(b) && (fits(parents, a, b) || fits(parents, b, a))
}

/// `==` or `!=` of references.
fn compare_references(operator: BinaryOp) -> Option<Joined>
    ensures { result ≡ compared_references operator }
{
    let code = match operator {
        Equal => Op2::EqRefRef,
        NotEqual => Op2::NeRefRef,
        _ => return None,
    };
    Some(plain(code, Int))
}

/// `==` or `!=` of shreds.
fn compare_shreds(operator: BinaryOp) -> Option<Joined>
    ensures { result ≡ compared_shreds operator }
{
    let code = match operator {
        Equal => Op2::EqShredShred,
        NotEqual => Op2::NeShredShred,
        _ => return None,
    };
    Some(plain(code, Int))
}

/// An operator with no operand widened.
fn plain(code: Op2, gives: Elem) -> Joined
    ensures { result ≡ plain code gives }
{
    Joined {
        code,
        gives,
        widens_left: false,
        widens_right: false,
    }
}

/// An operator on operands of these types, where it takes them; the classes have these parents by
/// their numbers. A literal `null` beside a shred is a null of shreds, and isn't among them.
pub fn join(parents: &[u32], operator: BinaryOp, left: Kind, right: Kind) -> Option<Joined>
    ensures { result ≡ joined parents.now operator left right }
{
    if are_alike(parents, left, right) {
        return compare_references(operator);
    }
    match (left, right) {
        (Kind::One(Elem::Shred), Kind::One(Elem::Shred)) => compare_shreds(operator),
        (Kind::One(a), Kind::One(b)) => join_values(operator, a, b),
        _ => None,
    }
}
