//! Laws of the grammar, each the contract of a function that does nothing.
ghost use Rattle.std.specs.Prelude.{◌≡◌, ◌≤◌, ◌++◌, ℕ, List, [], ◌∷◌, length, take, true};
ghost use Rattle.ck_lexer.specs.declared.token.Token.{Token};
ghost use Rattle.ck_lexer.specs.Tokens.{AreTokens};
ghost use Rattle.ck_parser.specs.Depth.{file_depths};
ghost use Rattle.ck_parser.specs.Examples.{nested_if, nested_if_tree, cut_if, member_first};
ghost use Rattle.ck_parser.specs.Examples.{member_first_tree, indexed, indexed_tree, unfinished};
ghost use Rattle.ck_parser.specs.Grammar.{IsFile};
ghost use Rattle.ck_parser.specs.Parse.{AreShallow, IsFaulty, IsTooDeep, StandsAt, Verdict};
ghost use Rattle.ck_parser.specs.Parse.{ends_once};
ghost use Rattle.ck_syntax.specs.Height.{MAX_HEIGHT, file_height};
ghost use Rattle.ck_syntax.specs.Size.{file_size};
ghost use Rattle.ck_syntax.specs.Tree.{File};

/// A list of tokens has at most one tree.
pub fn one_tree()
    ensures { (ts : List Token) (x y : File) → IsFile ts x → IsFile ts y → x ≡ y }
{}

/// The size of a tree is the number of its tokens.
pub fn size_of_a_tree()
    ensures { (ts : List Token) (x : File) → IsFile ts x → file_size x ≡ length ts }
{}

/// A token stands equally deep in each file that begins with the tokens up to it.
pub fn one_depth()
    ensures { (w a b : List Token) (x y : File) → IsFile (w ++ a) x → IsFile (w ++ b) y
        → take (length w) (file_depths x) ≡ take (length w) (file_depths y) }
{}

/// A list of tokens with one `End`, at its end, has a tree that is nowhere too deep, or a first
/// fault: a token with which no file goes on, or one that stands too deep.
pub fn tree_or_fault()
    ensures { (ts : List Token) → ends_once ts ≡ true → Verdict ts }
{}

/// A list of tokens that has a tree has no token with which no file goes on.
pub fn no_fault_in_a_file()
    ensures { (ts : List Token) (x : File) (k : ℕ) → IsFile ts x → IsFaulty ts k → ⊥ }
{}

/// The first fault of a list of tokens is one place, and is of one kind; what has a tree that is
/// nowhere too deep has none that stands too deep.
pub fn one_verdict()
    ensures one_place { (ts : List Token) (k n : ℕ) → IsFaulty ts k → IsFaulty ts n → k ≡ n }
    ensures one_deep_place { (ts : List Token) (k n line on : ℕ) → IsTooDeep ts k → IsTooDeep ts n
        → StandsAt ts k line → StandsAt ts n on → k ≡ n }
    ensures one_kind { (ts : List Token) (k n line : ℕ) → IsFaulty ts k → IsTooDeep ts n
        → StandsAt ts n line → ⊥ }
    ensures tree_or_deep { (ts : List Token) (x : File) (k line : ℕ) → IsFile ts x
        → AreShallow (file_depths x) → IsTooDeep ts k → StandsAt ts k line → ⊥ }
    ensures one_line { (ts : List Token) (k line on : ℕ) → StandsAt ts k line
        → StandsAt ts k on → line ≡ on }
{}

/// The tokens of a file's bytes have one `End`, at their end.
pub fn tokens_end_once()
    ensures { (bytes : List ℕ) (ts : List Token) → AreTokens bytes ts → ends_once ts ≡ true }
{}

/// In a tree in which no token stands too deep at most 8,386 constructs stand in one another, so a
/// walk that goes from each construct to its parts has so many calls at once at most.
pub fn shallow_trees_are_low()
    ensures { (x : File) → AreShallow (file_depths x) → file_height x ≤ MAX_HEIGHT }
{}

/// There is such a tree with so many.
pub fn greatest_height_is_reached()
    ensures { (x : File) × AreShallow (file_depths x) × (file_height x ≡ MAX_HEIGHT) }
{}

/// Short files, their trees, depths and faults.
pub fn examples()
    ensures else_to_inner_if { IsFile nested_if nested_if_tree }
    ensures cut_after_else { IsFaulty cut_if 23 }
    ensures member_before_prefix { IsFile member_first member_first_tree }
    ensures rises_to_the_end { IsFile indexed indexed_tree
        × (file_depths indexed_tree ≡ 0 ∷ 1 ∷ 1 ∷ 1 ∷ 2 ∷ 3 ∷ 3 ∷ 0 ∷ 0 ∷ []) }
    ensures operand_missing { IsFaulty unfinished 2 }
{}
