//! Functions and instructions of a code, by their numbers and places.
ghost use Rattle.std.specs.Prelude.{◌≡◌, ◌-◌, ◌^◌, ◌<◌, IsSome, IfSome, Some, slice_get};
ghost use Rattle.std.specs.Prelude.{option_map};
ghost use Rattle.ck_values.specs.Datum.{AText};
ghost use Rattle.ck_code.specs.Machine.{steps_of, text_at};
ghost use Rattle.ck_store.specs.Store.{Gives, IsFitting};

use ck_base::Text;
use ck_code::{CodeParts, Fun, Step};

/// The function with this number.
#[tactic(auto, using(crate::proofs::Numbered::numbered))]
pub fn fun_at(code: &CodeParts, fun: u32) -> &Fun
    requires { IsSome (slice_get code.now.funs fun) }
    ensures { slice_get code.now.funs fun ≡ Some result.now }
{
    &code.funs.items()[fun as usize]
}

/// The item with this number, if there is one.
pub fn item_at<T>(items: &[T], i: usize) -> Option<&T>
    ensures found { option_map (λ item. item.now) result ≡ slice_get items.now i }
    ensures within { IfSome result (λ item. i < 2 ^ 64 - 1) }
{
    items.get(i)
}

/// The string with this number.
#[tactic(auto, using(crate::proofs::Texts::texts))]
pub fn text_at(code: &CodeParts, k: usize) -> &Text
    requires { IsFitting (text_at code.now.texts k) }
    ensures { text_at code.now.texts k ≡ Gives (AText result.now) }
{
    &code.texts.items()[k]
}

/// The instructions of the function with this number.
pub fn steps_at(code: &CodeParts, fun: u32) -> &[Step]
    requires { IsSome (slice_get code.now.funs fun) }
    ensures { steps_of (slice_get code.now.funs fun) ≡ result.now }
{
    fun_at(code, fun).code.items()
}

/// The instruction at a place.
pub fn step_in(steps: &[Step], place: usize) -> &Step
    requires { IsSome (slice_get steps.now place) }
    ensures at { slice_get steps.now place ≡ Some result.now }
    ensures within { place < 2 ^ 64 - 1 }
{
    &steps[place]
}
