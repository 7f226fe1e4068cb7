//! Laws of the runs of codes.

ghost use Rattle.std.specs.Prelude.{◌≤◌, ℕ, length};
ghost use Rattle.ck_base.specs.declared.limits.TheConstants.{MAX_FILES, MAX_SAMPLES};
ghost use Rattle.ck_store.specs.Store.{Store};
ghost use Rattle.ck_code.specs.declared.code.CodeParts.{CodeParts};
ghost use Rattle.ck_code.specs.Verified.{IsVerified};
ghost use Rattle.ck_run.specs.Family.{IsFamily};
ghost use Rattle.ck_run.specs.Sound.{AreNumbered, IsSound};
ghost use Rattle.ck_meaning.specs.Replay.{Stopped, by_code, run_code};
ghost use Rattle.run_laws.specs.Settling.{IsSettled};
ghost use Rattle.run_laws.specs.FitRuns.{IsRunStore, IsFitShred};

/// After the slices at a sample no shred is due any more: the bound on the slices at one sample is
/// never met, since each slice at a sample but a shred's last one spends a turn of its own, and the
/// sporks at a sample are counted.
pub fn slices_end_at_each_sample()
    ensures { (code : CodeParts) (sample : ℕ) → IsSettled code sample }
{}

/// The sporks of a slice take the next numbers, in order. As the next number never falls, no number
/// is given twice.
pub fn sporks_take_the_next_numbers()
    ensures { (code : CodeParts) (shred : ℕ) (stopped : Stopped) (store : Store) →
        let slice = (by_code code).slice shred stopped store in
        AreNumbered store.next_shred slice.store.next_shred slice.acts }
{}

/// The number of the next shred never falls as a run goes on.
pub fn the_next_number_never_falls()
    ensures { (code : CodeParts) (sample later : ℕ) → sample ≤ later →
        (run_code code sample).store.next_shred ≤ (run_code code later).store.next_shred }
{}

/// The live shreds of a run are a family: they stand in order of their numbers, which are below the
/// next one, and parents before their children.
pub fn live_shreds_are_a_family()
    ensures { (code : CodeParts) (sample : ℕ) →
        let run = run_code code sample in IsFamily run.store.next_shred run.shreds }
{}

/// The run of a verified code of at most 64 files is sound at each sample: its store fits the code,
/// each live shred fits it, and each shred is due or waits at most once.
pub fn runs_are_sound()
    ensures { (code : CodeParts) (verified : IsVerified code) (sample : ℕ) →
        length code.mains ≤ MAX_FILES → sample ≤ MAX_SAMPLES →
        IsSound (IsRunStore code) (IsFitShred code verified.typing) (run_code code sample) }
{}
