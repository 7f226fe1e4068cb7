//! The listing of a code: its functions and their instructions in lines of text.
//!
//! [`listing`] appends exactly the listing that the definition gives a code: a line for each
//! function, and below it one for each of its instructions. The command `code` writes it.
#![tactic(auto)]

ghost use Rattle.std.specs.Prelude.{◌≡◌, ◌++◌, OnOk, OnErr};
ghost use Rattle.code_listing.specs.Listing.{listing_of};

mod lines;
mod names;
mod words;

use ck_code::CodeParts;
use fixed_point::Memory;

/// Appends the listing of a code. For want of memory `into` stays as it was.
pub fn listing(code: &CodeParts, into: &mut Vec<u8>) -> Result<(), Memory>
    ensures ok { OnOk result (into.new.items ≡ into.old.items ++ listing_of code.now) }
    ensures err { OnErr result (into.new.items ≡ into.old.items) }
{
    let before = into.len();
    if let Err(memory) = lines::add_funs(code.classes.items(), code.funs.items(), into) {
        into.truncate(before);
        return Err(memory);
    }
    Ok(())
}
