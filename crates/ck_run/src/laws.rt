//! Laws of runs, by whatever their shreds run: parents stand before their children, with a shred
//! end exactly its live descendants, what a run has told makes no difference to how it goes on, and
//! without sides and Pan2 a run has one channel.

ghost use Rattle.std.specs.Prelude.{◌≡◌, ◌≤◌, ◌+◌, ◌++◌, ◌∷◌, [], ℕ, suc, Bool, List, Some, All, length, filter, find, not, nat_eq};
ghost use Rattle.ck_values.specs.declared.kind.Kind.{Kind};
ghost use Rattle.ugen_kinds.specs.declared.output.Output.{Output};
ghost use Rattle.ck_run.specs.Run.{Shred, Runner, Run, Piece, Wake, Block, has, end_with, first_shreds, settled, sampled, run_of, block_between};
ghost use Rattle.ck_run.specs.Family.{IsFamily, AreThoseThatEnd};
ghost use Rattle.ck_store.specs.Graph.{units_sounded};
ghost use Rattle.ck_run.specs.Channels.{Sound, HasOneChannel, AtEachSample, by_sound, one_channel};
ghost use Rattle.ck_run.specs.Told.{told, GoesOn, joined};

/// The shreds that a run begins with are a family: they are numbered from 1 on in the order of the
/// files, and have no parent.
pub fn first_shreds_are_a_family<P>()
    ensures { (runner : Runner P) (mains : List ℕ) →
        IsFamily (suc (length mains)) (first_shreds runner 1 mains) }
{}

/// A family is one still after one more child of a live shred, with the next number.
pub fn a_child_joins_the_family<P>()
    ensures { (next : ℕ) (shreds : List (Shred P)) (child parent : Shred P) →
        IsFamily next shreds → 1 ≤ next → child.number ≡ next →
        find (λ shred. nat_eq shred.number child.parent) shreds ≡ Some parent →
        IsFamily (suc next) (shreds ++ child ∷ []) }
{}

/// A family is one still where a shred has ended, and those with it that end then.
pub fn who_stays_is_a_family<P>()
    ensures { (next number : ℕ) (shreds : List (Shred P)) → IsFamily next shreds →
        IsFamily next (filter (λ shred. not (has (end_with number shreds) shred.number)) shreds) }
{}

/// With a shred end the live shreds whose parent ends, and no others.
pub fn descendants_end_together<P>()
    ensures those { (next number : ℕ) (shreds : List (Shred P)) → IsFamily next shreds →
        AreThoseThatEnd number (has (end_with number shreds)) shreds }
    ensures only { (next number : ℕ) (shreds : List (Shred P)) (ends : ℕ → Bool) →
        IsFamily next shreds → AreThoseThatEnd number ends shreds →
        All (λ shred. ends shred.number ≡ has (end_with number shreds) shred.number) shreds }
{}

/// What a run has told before makes no difference to what runs next, nor to the next sample.
pub fn what_was_told_changes_nothing<P>()
    ensures settled { (runner : Runner P) (samples : List Output) (text : List Piece)
        (wakes : List Wake) (begun bound : ℕ) (run : Run P) →
        settled runner bound (told samples text wakes begun run)
        ≡ told samples text wakes begun (settled runner bound run) }
    ensures sampled { (runner : Runner P) (samples : List Output) (text : List Piece)
        (wakes : List Wake) (begun : ℕ) (run : Run P) →
        sampled runner (told samples text wakes begun run)
        ≡ told samples text wakes begun (sampled runner run) }
{}

/// A longer run has told what a shorter one has, and then the block between them.
pub fn a_longer_run_goes_on<P>()
    ensures { (runner : Runner P) (mains : List ℕ) (statics : List Kind) (n more : ℕ) →
        GoesOn (run_of runner mains statics n) (run_of runner mains statics (n + more)) }
{}

/// A block and the one that comes next are together the block of both.
pub fn blocks_join<P>()
    ensures { (runner : Runner P) (mains : List ℕ) (statics : List Kind) (start first next : ℕ) →
        let run = run_of runner mains statics in
        block_between (run start) (run (start + first + next))
        ≡ joined (block_between (run start) (run (start + first)))
        (block_between (run (start + first)) (run (start + first + next))) }
{}

/// By another sound a run is the same, where the two make the same of the unit generators whenever
/// a sample is made.
pub fn sounds_that_agree_are_one<P>()
    ensures { (runner : Runner P) (sound : Sound) (mains : List ℕ) (statics : List Kind) (n : ℕ) →
        AtEachSample (λ store. runner.sound store.connections store.units
        ≡ sound store.connections store.units) runner mains statics n →
        run_of runner mains statics n ≡ run_of (by_sound sound runner) mains statics n }
{}

/// A run by the sound of two channels is that by the sound of one, and both sides of each sample are
/// one number, where no connection has a side and no unit generator is a Pan2 whenever a sample is
/// made.
pub fn without_sides_both_channels_are_one<P>()
    ensures same { (runner : Runner P) (mains : List ℕ) (statics : List Kind) (n : ℕ) →
        let stereo = by_sound units_sounded runner in
        AtEachSample HasOneChannel stereo mains statics n →
        run_of stereo mains statics n ≡ run_of (by_sound one_channel runner) mains statics n }
    ensures sides { (runner : Runner P) (mains : List ℕ) (statics : List Kind) (n : ℕ) →
        let stereo = by_sound units_sounded runner in
        AtEachSample HasOneChannel stereo mains statics n →
        All (λ sample. sample.left ≡ sample.right) (run_of stereo mains statics n).samples }
{
    ugen_sample::laws::without_sides_both_channels_are_one();
}
