//! Laws of the definitions: what a file says is one thing, and a float says what was written.

ghost use Rattle.std.specs.Prelude.{◌≡◌, ◌≤◌, ◌-◌, ℕ, List, ◌∷◌, ◌++◌, length, replicate, true, pos, decimal};
ghost use Rattle.std.specs.List.{list_all};
ghost use Rattle.fixed_point.specs.Decimals.{text_of};
ghost use Rattle.ck_lexer.specs.declared.token.Token.{Token as AToken};
ghost use Rattle.ck_lexer.specs.Bytes.{is_digit};
ghost use Rattle.ck_lexer.specs.Numbers.{number_in, max_whole, raw_of};
ghost use Rattle.ck_lexer.specs.Tokens.{AreTokens, IsFault, IsRead};

/// A file has at most one list of tokens.
pub fn one_list_of_tokens()
    ensures { (bytes : List ℕ) (ts us : List AToken) → AreTokens bytes ts → AreTokens bytes us →
        ts ≡ us }
{}

/// A file has not both tokens and a fault.
pub fn tokens_or_a_fault()
    ensures { (bytes : List ℕ) (ts : List AToken) (at line : ℕ) →
        AreTokens bytes ts → IsFault bytes at line → ⊥ }
{}

/// Every file has tokens or a fault.
pub fn every_file_is_read()
    ensures { (bytes : List ℕ) → IsRead bytes }
{}

/// A file has at most one fault.
pub fn one_fault()
    ensures { (bytes : List ℕ) (at line other on : ℕ) →
        IsFault bytes at line → IsFault bytes other on → (at ≡ other) × (line ≡ on) }
{}

/// A float literal of at most six decimals prints as it was written: its whole part, a point, and
/// its decimals, with zeros behind them up to six.
pub fn floats_print_as_written()
    ensures { (whole decimals : List ℕ) →
        list_all is_digit decimals ≡ true → length decimals ≤ 6 →
        number_in 10 whole ≤ max_whole →
        text_of (pos (raw_of whole decimals))
        ≡ decimal (number_in 10 whole)
        ++ 46 ∷ (decimals ++ replicate (6 - length decimals) 48) }
{}
