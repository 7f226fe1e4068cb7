//! Strings.
ghost use Rattle.std.specs.Prelude.{◌≡◌, true, false, IfOk, IfErr};
ghost use Rattle.ck_values.specs.Datum.{meant, AnInt, AText};
ghost use Rattle.ck_store.specs.Store.{Gives, IsFitting};
ghost use Rattle.ck_store.specs.Strings.{char_at, substring};
ghost use Rattle.ck_store.specs.Operators.{binary, joined};
ghost use Rattle.value_ops.specs.Ends.{makes_string, IsEnd, IsEarlyEnd};

use crate::end::OpEnd;
use crate::numbers::truth;
use crate::print::show;
use ck_base::Text;
use ck_base::limits::MAX_TEXT_BYTES;
use ck_values::{Op2, Trap, Value};
use std::alloc::Global;

/// The byte at an index. `ArrayOutOfBounds` comes exactly where that is below 0 or not below the
/// length, and `Memory` never.
#[tactic(auto, unfolding(ck_store::specs::Strings::char_at))]
pub fn char_at(s: &Text, index: i64) -> Result<i64, OpEnd>
    ensures given { IfOk result (λ byte. char_at s.now index ≡ Gives byte) }
    ensures trap { IfErr result (λ end. IsEnd false end (char_at s.now index)) }
{
    if index < 0 {
        return Err(OpEnd::Trap(Trap::ArrayOutOfBounds));
    }
    match s.bytes().get(index as usize) {
        Some(byte) => Ok(i64::from(*byte)),
        None => Err(OpEnd::Trap(Trap::ArrayOutOfBounds)),
    }
}

/// `n` bytes from `start` on. `ArrayOutOfBounds` comes exactly where one of the two is below 0 or
/// their sum is above the length.
#[tactic(auto, unfolding(ck_store::specs::Strings::substring))]
pub fn substring(alloc: Global, s: &Text, start: i64, n: i64) -> Result<Text, OpEnd>
    ensures given { IfOk result (λ text. substring s.now start n ≡ Gives text) }
    ensures end { IfErr result (λ end. IsEnd true end (substring s.now start n)) }
{
    let bytes = s.bytes();
    if start < 0 || n < 0 || start as usize + n as usize > bytes.len() {
        return Err(OpEnd::Trap(Trap::ArrayOutOfBounds));
    }
    let start = start as usize;
    Ok(Text::from_bytes(alloc, &bytes[start..start + n as usize])?)
}

/// One after the other, each as a print shows it beside others. `StringLimit` comes where that has
/// more than 65,536 bytes; there may be no memory for them before that is known.
pub(crate) fn joined(alloc: Global, a: &Value, b: &Value) -> Result<Value, OpEnd>
    ensures given { IfOk result (λ v. joined (meant a.now) (meant b.now) ≡ Gives (meant v)) }
    ensures end { IfErr result (λ end. IsEarlyEnd true end (joined (meant a.now) (meant b.now))) }
{
    let mut bytes = Vec::new(alloc);
    show(a, false, &mut bytes)?;
    show(b, false, &mut bytes)?;
    if bytes.len() > MAX_TEXT_BYTES {
        return Err(OpEnd::Trap(Trap::StringLimit));
    }
    Ok(Value::Text(Text::from_bytes(alloc, &bytes)?))
}

/// The test of two strings.
#[tactic(auto, unfolding(ck_store::specs::Operators::binary))]
pub(crate) fn of_strings(op: Op2, a: &Text, b: &Text) -> i64
    requires fitting { IsFitting (binary op (AText a.now) (AText b.now)) }
    requires test { makes_string op ≡ false }
    ensures { binary op (AText a.now) (AText b.now) ≡ Gives (AnInt result) }
{
    match op {
        Op2::EqTextText => truth(a.bytes() == b.bytes()),
        Op2::NeTextText => truth(a.bytes() != b.bytes()),
        _ => unreachable!(),
    }
}
