//! Laws of the length of a code: each is the contract of a function that does nothing.

ghost use Rattle.std.specs.Prelude.{ℕ, ◌*◌, ◌<◌, ◌≤◌, ◌^◌, All, List, length};
ghost use Rattle.ck_base.specs.declared.limits.TheConstants.{MAX_FILE_TOKENS};
ghost use Rattle.ck_code.specs.declared.code.CodeParts.{CodeParts};
ghost use Rattle.ck_code.specs.declared.code.Fun.{Fun};
ghost use Rattle.ck_syntax.specs.Tree.{File};
ghost use Rattle.expr_steps.specs.Tokens.{token_steps};
ghost use Rattle.step_counts.specs.Checked.{IsCheckedCode};

/// Each function of a checked program has at most 512 steps a token, where each file has at most so
/// many tokens: the functions of the text, those of the statements in the braces of classes, and
/// those of the statements of files.
pub fn steps_are_few_a_token()
    ensures { (files : List File) (most : ℕ) (code : CodeParts) → IsCheckedCode files most code →
        All (λ (fn : Fun). length fn.code ≤ token_steps * most) code.funs }
{}

/// Each function of a checked program whose files have at most 1,048,577 tokens each has fewer than
/// 2^32 steps. So each place in it, and the target of each jump, fits 32 bits.
pub fn places_fit_32_bits()
    ensures { (files : List File) (code : CodeParts) →
        IsCheckedCode files MAX_FILE_TOKENS code →
        All (λ (fn : Fun). length fn.code < 2 ^ 32) code.funs }
{}
