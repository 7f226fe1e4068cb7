//! Laws of the whole answer, which a reader of the contract may rely on.
ghost use Rattle.std.specs.Prelude.{◌≡◌, ℕ, List};
ghost use Rattle.ck_edges.specs.Shelf.{Files};
ghost use Rattle.command_inputs.specs.Words.{file_words};
ghost use Rattle.command_inputs.specs.Reading.{AreThere};
ghost use Rattle.program_answers.specs.Answer.{WholeAnswer};
ghost use Rattle.chuck_driver.specs.Answer.{IsAnswer};

/// Words have one answer over the same files: no two answers differ.
pub fn words_have_one_answer()
    ensures { (files : Files) (words : List (List ℕ)) (one other : WholeAnswer)
        → IsAnswer files words one → IsAnswer files words other → one ≡ other }
{}

/// Words have an answer wherever each file that they read is there.
pub fn words_have_an_answer()
    ensures { (files : Files) (words : List (List ℕ)) → AreThere files (file_words words)
        → (answer : WholeAnswer) × IsAnswer files words answer }
{}
