//! Numbers in a text.

ghost use Rattle.std.specs.Prelude.{◌≡◌, ◌++◌, decimal, OnOk};

use fixed_point::Memory;
use itoa::Buffer;

/// Appends these bytes and a number in decimal.
pub(crate) fn add_number(before: &[u8], number: u32, into: &mut Vec<u8>) -> Result<(), Memory>
    ensures { OnOk result (into.new.items ≡ into.old.items ++ before.now ++ decimal number) }
{
    let mut digits = Buffer::new();
    into.extend_from_slice(before)?;
    into.extend_from_slice(digits.format(number).as_bytes())?;
    Ok(())
}
