//! A run may be made in any pieces.

ghost use Rattle.std.specs.Prelude.{ℕ, ℤ, ◌+◌, List};
ghost use Rattle.ck_code.specs.declared.code.CodeParts.{CodeParts};
ghost use Rattle.chuck_vm.specs.declared.wake.Wake.{Wake};
ghost use Rattle.chuck_vm.specs.Telling.{Adds};
ghost use Rattle.chuck_vm.specs.Vm.{block_of};

/// What some samples add, and then some more, is what all of them add at once.
pub fn pieces_add_up()
    ensures { (code : CodeParts) (names : List (List ℕ)) (made first next : ℕ)
        (samples samples2 samples3 : List ℤ) (text text2 text3 : List ℕ)
        (wakes wakes2 wakes3 : List Wake) →
        Adds names (block_of code made first) samples samples2 text text2 wakes wakes2 →
        Adds names (block_of code (made + first) next) samples2 samples3 text2 text3 wakes2 wakes3 →
        Adds names (block_of code made (first + next)) samples samples3 text text3 wakes wakes3 }
{}
