//! Laws of the kinds and of their table: each is the contract of a function that does nothing.
ghost use Rattle.std.specs.Prelude.{◌≡◌, ℕ, ◌<◌, ◌^◌, ℤ, Bool, List, IsTrue, is_some, Some, option_map};
ghost use Rattle.ck_values.specs.Datum.{Datum};
ghost use Rattle.ugen_names.specs.declared.param.Param.{Param};
ghost use Rattle.ugen_names.specs.declared.table.UgenKind.{UgenKind};
ghost use Rattle.ugen_kinds.specs.declared.generator.Generator.{Generator};
ghost use Rattle.ugen_kinds.specs.declared.wave.Wave.{Wave};
ghost use Rattle.ugen_kinds.specs.SoundFile.{SoundFile};
ghost use Rattle.ugen_kinds.specs.Wave.{wave_tick};
ghost use Rattle.ugen_kinds.specs.Generator.{kind_of, has_state, first_of, tick_of, own_parameter};
ghost use Rattle.ugen_kinds.specs.Generator.{with_own_parameter, keyed, staged};
ghost use Rattle.ugen_names.specs.Table.{is_made};
ghost use Rattle.ugen_kinds.specs.Table.{is_in_table, own_row, reads, can_be_set, first_by};

/// A unit generator is of the kind that it was made as, whatever comes.
pub fn the_kind_stays()
    ensures first { (kind : UgenKind) (n : ℕ) → IsTrue (has_state kind) → kind_of (first_of kind n) ≡ kind }
    ensures ticked { (waves : List SoundFile) (g : Generator) (x : ℤ) (fed : Bool) →
        kind_of (tick_of waves g x fed).0 ≡ kind_of g }
    ensures set { (waves : List SoundFile) (p : Param) (v : Datum) (g after : Generator) →
        with_own_parameter waves p v g ≡ Some after → kind_of after ≡ kind_of g }
    ensures keyed { (on : Bool) (g after : Generator) → keyed on g ≡ Some after →
        kind_of after ≡ kind_of g }
    ensures staged { (a d s r : ℤ) (g after : Generator) → staged a d s r g ≡ Some after →
        kind_of after ≡ kind_of g }
{}

/// Each kind of which the language makes objects has a state.
pub fn what_is_made_has_a_state()
    ensures { (kind : UgenKind) → IsTrue (is_made kind) → IsTrue (has_state kind) }
{}

/// A unit generator has of its own the parameters that the table of kinds says of its kind and no
/// others, each reads as a value of the type that stands there, and one as it is made reads what
/// stands there. Pan2 has no row yet.
pub fn parameters_are_those_of_the_table()
    ensures read { (waves : List SoundFile) (p : Param) (g : Generator) →
        IsTrue (is_in_table (kind_of g)) →
        IsTrue (reads (own_row (kind_of g) p) (own_parameter waves p g)) }
    ensures first { (waves : List SoundFile) (p : Param) (kind : UgenKind) (n : ℕ) →
        IsTrue (is_in_table kind) →
        own_parameter waves p (first_of kind n) ≡ option_map first_by (own_row kind p) }
{}

/// Such a parameter can be set to the values that the table says of the kind, and to no others: none
/// where it is read only, and none of another type.
pub fn settings_are_those_of_the_table()
    ensures { (waves : List SoundFile) (p : Param) (v : Datum) (g : Generator) →
        IsTrue (is_in_table (kind_of g)) →
        is_some (with_own_parameter waves p v g) ≡ can_be_set (own_row (kind_of g) p) v }
{}

/// After a tick the phase of a wave is below 2^32, whatever the input.
pub fn phases_stay_within_a_turn()
    ensures { (w : Wave) (x : ℤ) (is_fed : Bool) → (wave_tick w x is_fed).0.phase < 2 ^ 32 }
{}
