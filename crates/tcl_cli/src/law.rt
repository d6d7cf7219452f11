// What the form of the options and `clap` make of the same words.

ghost use Rattle.std.specs.Prelude.{◌≡◌, List, ℕ, [], true, false};
ghost use Rattle.std.specs.List.{list_any};
ghost use Rattle.clap.specs.Faults.{fault_of};
ghost use Rattle.tcl_cli.specs.Words.{Given, are_values, is_dashes};
ghost use Rattle.tcl_cli.specs.Rules.{tool_app, AreGiven, AreTaken};

/// Law: `clap` takes each list of words in the form of the options, and finds the values that the form gives.
pub fn words_are_taken()
    ensures { (words : List (List ℕ)) → (given : Given) → AreGiven words given → are_values given ≡ true → AreTaken words given }
{}

/// Law: where no word is `--`, whatever `clap` takes is in the form of the options, none of them twice, and `clap`
/// finds what the form gives.
pub fn taken_words_are_given()
    ensures { (words : List (List ℕ)) → list_any is_dashes words ≡ false → fault_of tool_app words ≡ [] → (given : Given) × AreGiven words given × AreTaken words given }
{}
