//! Values in print.
ghost use Rattle.std.specs.Prelude.{◌≡◌, ◌++◌, ◌∷◌, [], OnOk, OnErr};
ghost use Rattle.std.specs.Fmt.{signed_decimal};
ghost use Rattle.ck_values.specs.Datum.{meant};
ghost use Rattle.ck_store.specs.Strings.{printed, or_null};

use ck_base::Text;
use ck_values::Value;
use fixed_point::Memory;
use itoa::Buffer;

/// Appends the value as a print shows it; a string that is the only item, `alone`, stands in double
/// quotes. For want of memory `into` stays as it was.
pub fn show(v: &Value, alone: bool, into: &mut Vec<u8>) -> Result<(), Memory>
    ensures ok { OnOk result (into.new.items ≡ into.old.items ++ printed alone (meant v.now)) }
    ensures err { OnErr result (into.new.items ≡ into.old.items) }
{
    match v {
        Value::Int(n) | Value::Dur(n) | Value::Time(n) => show_int(*n, into),
        Value::Float(x) => x.print6(into),
        Value::Text(text) if alone => show_quoted(text, into),
        Value::Text(text) => append(text.bytes(), into),
        Value::Shred(number) => show_number(b"", *number, into),
        Value::Ref(at) => show_number(b"#", at.serial, into),
    }
}

/// The number in decimal.
fn show_int(n: i64, into: &mut Vec<u8>) -> Result<(), Memory>
    ensures ok { OnOk result (into.new.items ≡ into.old.items ++ signed_decimal n) }
    ensures err { OnErr result (into.new.items ≡ into.old.items) }
{
    let mut digits = Buffer::new();
    append(digits.format(n).as_bytes(), into)
}

/// The number of a shred or an object behind a mark, or `null`.
fn show_number(mark: &[u8], number: u64, into: &mut Vec<u8>) -> Result<(), Memory>
    ensures ok { OnOk result (into.new.items ≡ into.old.items ++ or_null mark.now number) }
    ensures err { OnErr result (into.new.items ≡ into.old.items) }
{
    if number == 0 {
        return append(b"null", into);
    }
    let mut digits = Buffer::new();
    append_both(mark, digits.format(number).as_bytes(), into)
}

/// The string in double quotes.
fn show_quoted(text: &Text, into: &mut Vec<u8>) -> Result<(), Memory>
    ensures ok { OnOk result (into.new.items ≡ into.old.items ++ 34 ∷ text.now ++ 34 ∷ []) }
    ensures err { OnErr result (into.new.items ≡ into.old.items) }
{
    let before = into.len();
    append_both(b"\"", text.bytes(), into)?;
    if let Err(memory) = append(b"\"", into) {
        into.truncate(before);
        return Err(memory);
    }
    Ok(())
}

/// Both, one after the other.
fn append_both(front: &[u8], back: &[u8], into: &mut Vec<u8>) -> Result<(), Memory>
    ensures ok { OnOk result (into.new.items ≡ into.old.items ++ front.now ++ back.now) }
    ensures err { OnErr result (into.new.items ≡ into.old.items) }
{
    let before = into.len();
    into.extend_from_slice(front)?;
    if let Err(error) = into.extend_from_slice(back) {
        into.truncate(before);
        return Err(Memory::from(error));
    }
    Ok(())
}

/// The bytes at the end.
fn append(bytes: &[u8], into: &mut Vec<u8>) -> Result<(), Memory>
    ensures ok { OnOk result (into.new.items ≡ into.old.items ++ bytes.now) }
    ensures err { OnErr result (into.new.items ≡ into.old.items) }
{
    into.extend_from_slice(bytes)?;
    Ok(())
}
