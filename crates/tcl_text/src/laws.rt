//! Laws of the definitions. The functions do nothing: their contracts are the laws.

ghost use Rattle.std.specs.Prelude.{◌≡◌, ℕ, List, Result};
ghost use Rattle.tcl_lang.specs.Program.{ReadProgram};
ghost use Rattle.tcl_text.specs.declared.token.Token.{Token};
ghost use Rattle.tcl_text.specs.declared.token.Statement.{Statement};
ghost use Rattle.tcl_text.specs.declared.fault.TextFault.{TextFault};
ghost use Rattle.tcl_text.specs.Statements.{IsStatement};
ghost use Rattle.tcl_text.specs.Reading.{Reads, FirstFault};

/// A line of tokens is at most one statement.
pub fn one_statement()
    ensures { (tokens : List Token) (s t : Statement) → IsStatement tokens s → IsStatement tokens t → s ≡ t }
{}

/// A text reads as at most one program, has at most one first fault, and never both.
pub fn one_outcome()
    ensures program { (bytes : List ℕ) (p q : ReadProgram) → Reads bytes p → Reads bytes q → p ≡ q }
    ensures fault { (bytes : List ℕ) (f g : TextFault) → FirstFault bytes f → FirstFault bytes g → f ≡ g }
    ensures apart { (bytes : List ℕ) (p : ReadProgram) (f : TextFault) → Reads bytes p → FirstFault bytes f → ⊥ }
{}
