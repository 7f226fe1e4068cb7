//! Laws of the order of pull and of a sample: each is the contract of a function that does nothing.

ghost use Rattle.std.specs.Prelude.{◌≡◌, ℕ, Bool, suc, ◌≤◌, false};
ghost use Rattle.std.specs.Prelude.{List, [], ◌∷◌, ◌++◌, length, map, Some, slice_set};
ghost use Rattle.ck_values.specs.Datum.{Datum};
ghost use Rattle.ugen_names.specs.declared.param.Param.{Param};
ghost use Rattle.ugen_kinds.specs.SoundFile.{SoundFile};
ghost use Rattle.ugen_sample.specs.Connection.{Connection};
ghost use Rattle.ugen_sample.specs.OneChannel.{IsMono, AreMono, HaveNoSides, mono_sampled};
ghost use Rattle.ugen_sample.specs.Finishing.{AreFinished, AreDistinct};
ghost use Rattle.ugen_sample.specs.Order.{roots, is_among, visit, visit_all, order};
ghost use Rattle.ugen_sample.specs.Renaming.{Renames, renamed, Ends, Shown, IsOther, Holds};
ghost use Rattle.ugen_sample.specs.Origins.{origin_of, origins_of};
ghost use Rattle.ugen_sample.specs.Parameters.{unit_parameter, with_unit_parameter};
ghost use Rattle.ugen_sample.specs.Table.{parameter_row};
ghost use Rattle.ugen_kinds.specs.Generator.{kind_of};
ghost use Rattle.ugen_kinds.specs.Table.{is_in_table, reads, can_be_set, first_by};
ghost use Rattle.ugen_names.specs.declared.table.UgenKind.{UgenKind};
ghost use Rattle.std.specs.Prelude.{IsTrue, is_some, option_map};
ghost use Rattle.ugen_sample.specs.Reading.{heard_at};
ghost use Rattle.ugen_sample.specs.Sample.{sounded_where, sampled};
ghost use Rattle.ugen_sample.specs.UnitState.{Units, unit_at, first_unit};
ghost use Rattle.ugen_sample.specs.declared.unit.UnitState.{UnitState};

/// The bound on a path is never met: any greater one gives the same order.
pub fn any_greater_bound_gives_the_order()
    ensures { (roots : List ℕ) (connections : List Connection) (k : ℕ) →
        suc (suc (length connections)) ≤ k →
        visit_all (visit k connections []) roots [] ≡ order roots connections }
{}

/// An order of pull puts each unit generator after its sources, but for a source that it feeds
/// itself: only in a loop is a source heard later than what reads it.
pub fn sources_come_first()
    ensures { (roots : List ℕ) (connections : List Connection) →
        AreFinished connections [] (order roots connections) }
{}

/// No unit generator makes its output twice in a sample.
pub fn each_has_one_turn()
    ensures { (roots : List ℕ) (connections : List Connection) →
        AreDistinct (order roots connections) }
{}

/// At its turn in a sample, a unit generator makes its output from what its sources gave: at this
/// sample where they stand before it in the order, and else at the one before.
pub fn each_reads_its_sources_at_its_turn()
    ensures { (waves : List SoundFile) (roots : List ℕ) (connections : List Connection)
        (units : Units) (before : List ℕ) (n : ℕ) (rest : List ℕ) →
        order roots connections ≡ before ++ n ∷ rest →
        unit_at (sampled waves roots connections units) n
        ≡ sounded_where waves n (unit_at units n)
        (heard_at connections before units (sampled waves roots connections units) n) }
{}

/// A unit generator that isn't reached from the roots stays as it is.
pub fn what_is_not_reached_stays()
    ensures { (waves : List SoundFile) (roots : List ℕ) (connections : List Connection)
        (units : Units) (n : ℕ) → is_among n (order roots connections) ≡ false →
        unit_at (sampled waves roots connections units) n ≡ unit_at units n }
{}

/// Whatever a unit generator hears and however it is set, its maker and its kind stay.
pub fn the_origin_stays()
    ensures sampled { (waves : List SoundFile) (roots : List ℕ) (connections : List Connection)
        (units : Units) → origins_of (sampled waves roots connections units) ≡ origins_of units }
    ensures set { (waves : List SoundFile) (p : Param) (v : Datum) (unit after : UnitState) →
        with_unit_parameter waves p v unit ≡ Some after → origin_of after ≡ origin_of unit }
{}

/// A unit generator has the parameters that the table of kinds says of its kind and no others, each
/// reads as a value of the type that stands there, and one as it is made reads what stands there.
/// Pan2 has no row yet.
pub fn parameters_are_those_of_the_table()
    ensures read { (waves : List SoundFile) (p : Param) (unit : UnitState) →
        IsTrue (is_in_table (kind_of unit.generator)) →
        IsTrue (reads (parameter_row (kind_of unit.generator) p) (unit_parameter waves p unit)) }
    ensures first { (waves : List SoundFile) (p : Param) (kind : UgenKind) (maker number : ℕ) →
        IsTrue (is_in_table kind) →
        unit_parameter waves p (first_unit kind maker number)
        ≡ option_map first_by (parameter_row kind p) }
{}

/// A parameter of a unit generator can be set to the values that the table says of its kind, and to
/// no others: none where it is read only, and none of another type.
pub fn settings_are_those_of_the_table()
    ensures { (waves : List SoundFile) (p : Param) (v : Datum) (unit : UnitState) →
        IsTrue (is_in_table (kind_of unit.generator)) →
        is_some (with_unit_parameter waves p v unit)
        ≡ can_be_set (parameter_row (kind_of unit.generator) p) v }
{}

/// The order of pull and the sample are the same under other numbers, as long as they tell unit
/// generators apart and `dac` and `blackhole` keep theirs; and no other object changes.
pub fn other_numbers_sound_alike()
    ensures order { (f : ℕ → ℕ) (P : ℕ → Bool) → Renames f (Holds P) → Holds P 1 → f 1 ≡ 1 →
        (connections : List Connection) → Ends (Holds P) connections →
        order roots (map (renamed f) connections) ≡ map f (order roots connections) }
    ensures sample { (waves : List SoundFile) (f : ℕ → ℕ) (P : ℕ → Bool) → Renames f (Holds P) →
        Holds P 1 → f 1 ≡ 1 → (connections : List Connection) → Ends (Holds P) connections →
        (units others : Units) → Shown f (Holds P) units others →
        Shown f (Holds P) (sampled waves roots connections units)
        (sampled waves roots (map (renamed f) connections) others) }
    ensures rest { (waves : List SoundFile) (f : ℕ → ℕ) (P : ℕ → Bool) → Renames f (Holds P) →
        Holds P 1 → f 1 ≡ 1 → (connections : List Connection) → Ends (Holds P) connections →
        (others : Units) (m : ℕ) → IsOther f (Holds P) m →
        unit_at (sampled waves roots (map (renamed f) connections) others) m ≡ unit_at others m }
{}

/// Without sides and Pan2 a sample is that of one channel, the same number on both sides, and what the
/// unit generators keep stays of that sort, whatever is made and set between samples.
pub fn without_sides_both_channels_are_one()
    ensures same { (waves : List SoundFile) (roots : List ℕ) (connections : List Connection)
        (units : Units) → HaveNoSides connections → AreMono units →
        sampled waves roots connections units ≡ mono_sampled roots connections units }
    ensures stays { (roots : List ℕ) (connections : List Connection) (units : Units) →
        HaveNoSides connections → AreMono units →
        AreMono (mono_sampled roots connections units) }
    ensures made { (kind : UgenKind) (maker number : ℕ) → IsTrue (is_in_table kind) →
        IsMono (Some (first_unit kind maker number)) }
    ensures set { (units : Units) (n : ℕ) (unit after : UnitState) → AreMono units →
        unit_at units n ≡ Some unit → kind_of after.generator ≡ kind_of unit.generator →
        after.last ≡ unit.last → AreMono (slice_set units n (Some after)) }
{}
