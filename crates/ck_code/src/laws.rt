//! Laws of verified code: it never goes wrong, it keeps what fits, and each slice ends.

ghost use Rattle.std.specs.Prelude.{◌≡◌, ◌≢◌, ◌<◌, ◌≤◌, ℕ, List, [], ◌∷◌, ◌++◌, ℤ, Some, slice_get};
ghost use Rattle.ck_base.specs.declared.limits.TheConstants.{FRESH_TURNS, MAX_FILES};
ghost use Rattle.ck_values.specs.declared.trap.Place.{Place};
ghost use Rattle.ck_values.specs.Datum.{Datum, first_locals};
ghost use Rattle.ck_store.specs.Store.{Shapes, Keeps, Store, shapes_of, State, Request, first_store};
ghost use Rattle.ck_store.specs.Steps.{resumed};
ghost use Rattle.ck_code.specs.declared.code.Fun.{Fun};
ghost use Rattle.ck_code.specs.declared.code.CodeParts.{CodeParts};
ghost use Rattle.ck_code.specs.Machine.{Frame, frame, Halt, Waits, Stuck, Unfinished, exec, slice_on, slices, code_run, enough};
ghost use Rattle.ck_code.specs.Verified.{params_of, IsVerified};
ghost use Rattle.ck_code.specs.Fitting.{Suit, AreFit, IsFitStore, IsFitHalt, ComesAfter, FollowOneAnother};

/// A slice of a verified code is never stuck.
pub fn verified_code_never_sticks()
    ensures { (code : CodeParts) (verified : IsVerified code) (main shred k : ℕ)
        (frames : List Frame) (s : State) →
        AreFit code verified.typing main (shapes_of s.store) frames → IsFitStore code s.store →
        exec code shred k frames s ≢ Stuck }
{}

/// A slice of a verified code leaves what fits, with all the objects.
pub fn slices_keep_what_fits()
    ensures { (code : CodeParts) (verified : IsVerified code) (main shred k : ℕ)
        (frames : List Frame) (s : State) →
        AreFit code verified.typing main (shapes_of s.store) frames → IsFitStore code s.store →
        IsFitHalt code verified.typing main s (exec code shred k frames s) }
{}

/// A slice of a verified code ends within as many instructions as `enough` says. A slice has spent
/// a turn when its first instruction begins, so fewer turns than the fresh ones are left then.
pub fn slices_end()
    ensures { (code : CodeParts) (verified : IsVerified code) (main shred : ℕ) (frames : List Frame)
        (s : State) →
        AreFit code verified.typing main (shapes_of s.store) frames → s.turns < FRESH_TURNS →
        exec code shred (enough code) frames s ≢ Unfinished }
{}

/// Frames that fit go on to fit as the store grows, whoever makes it grow.
pub fn frames_fit_as_the_store_grows()
    ensures { (code : CodeParts) (verified : IsVerified code) (main : ℕ) (frames : List Frame)
        (before after : Shapes) →
        Keeps before after → AreFit code verified.typing main before frames →
        AreFit code verified.typing main after frames }
{}

/// A shred begins with frames that fit.
pub fn shreds_begin_with_what_fits()
    ensures { (code : CodeParts) (verified : IsVerified code) (main : ℕ) (fn : Fun)
        (shapes : Shapes) (arguments : List Datum) →
        slice_get code.funs main ≡ Some fn → Suit code.classes shapes (params_of fn) arguments →
        AreFit code verified.typing main shapes
        (frame main 0 (first_locals fn.locals arguments) [] ∷ []) }
{}

/// A run begins with a store that fits.
pub fn runs_begin_with_what_fits()
    ensures { (code : CodeParts) (files : ℕ) → IsVerified code → files ≤ MAX_FILES →
        IsFitStore code (first_store files code.statics) }
{}

/// A shred that has stopped goes on, on any store that comes after the one it left, with a slice
/// that leaves what fits.
pub fn stopped_shreds_keep_what_fits()
    ensures { (code : CodeParts) (verified : IsVerified code) (main shred k : ℕ) (place : Place)
        (before : Store) (turns : ℕ) (frames : List Frame) (store : Store) →
        AreFit code verified.typing main (shapes_of before) frames → ComesAfter code before store →
        IsFitHalt code verified.typing main (resumed before.now turns store)
        (slice_on code shred k place before.now turns frames store) }
{}

/// A slice of a stopped shred ends, on any store beside whose objects its frames fit. At most the
/// fresh turns are left before it.
pub fn slices_of_stopped_shreds_end()
    ensures { (code : CodeParts) (verified : IsVerified code) (main shred : ℕ) (place : Place)
        (last : ℤ) (turns : ℕ) (frames : List Frame) (store : Store) →
        AreFit code verified.typing main (shapes_of store) frames → turns ≤ FRESH_TURNS →
        slice_on code shred (enough code) place last turns frames store ≢ Unfinished }
{}

/// A shred of a verified code is never stuck, on stores that follow one another.
pub fn shreds_never_stick()
    ensures { (code : CodeParts) (verified : IsVerified code) (main shred k : ℕ)
        (frames : List Frame) (s : State) (stores : List Store) →
        AreFit code verified.typing main (shapes_of s.store) frames → IsFitStore code s.store →
        FollowOneAnother code shred k (exec code shred k frames s) stores →
        code_run code shred k frames s stores ≢ Stuck }
{}

/// One more store follows, where it comes after the one that the last slice left.
pub fn stores_go_on_to_follow()
    ensures { (code : CodeParts) (verified : IsVerified code) (main shred k : ℕ) (h : Halt)
        (stores : List Store) (q : Request) (place : Place) (frames : List Frame) (s : State)
        (store : Store) →
        FollowOneAnother code shred k h stores →
        slices code shred k h stores ≡ Waits q place frames s → ComesAfter code s.store store →
        FollowOneAnother code shred k h (stores ++ store ∷ []) }
{}

/// Each slice of a shred ends within as many instructions as `enough` says, on stores that follow
/// one another.
pub fn slices_of_shreds_end()
    ensures { (code : CodeParts) (verified : IsVerified code) (main shred : ℕ) (frames : List Frame)
        (s : State) (stores : List Store) →
        AreFit code verified.typing main (shapes_of s.store) frames → s.turns < FRESH_TURNS →
        IsFitStore code s.store →
        FollowOneAnother code shred (enough code) (exec code shred (enough code) frames s) stores →
        code_run code shred (enough code) frames s stores ≢ Unfinished }
{}
