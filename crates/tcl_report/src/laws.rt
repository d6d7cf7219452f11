//! Laws of the canonical text. The functions do nothing: their contracts are the laws.

ghost use Rattle.std.specs.Prelude.{◌≡◌, ℕ, ◌≤◌, List, Some, count_by};
ghost use Rattle.tcl_lang.specs.declared.pred.Line.{Line};
ghost use Rattle.tcl_text.specs.declared.token.Raw.{Raw};
ghost use Rattle.tcl_text.specs.declared.token.Statement.TheVariants.{Program};
ghost use Rattle.tcl_text.specs.Tokens.{raws_of};
ghost use Rattle.tcl_text.specs.Numbering.{tokens_of};
ghost use Rattle.tcl_text.specs.Statements.{IsStatement};
ghost use Rattle.tcl_text.specs.Canonical.{line_text};
ghost use Rattle.tcl_report.specs.CanonicalTokens.{line_tokens};
ghost use Rattle.tcl_report.specs.Rendering.{rendering};
ghost use Rattle.tcl_report.specs.Brackets.{is_bracket};

/// The canonical text of a line is one list of tokens with the space that the rule puts between two neighbours.
pub fn one_rendering()
    ensures { (names : List (List ℕ)) (l : Line) → rendering names (line_tokens l) ≡ line_text names l }
{}

/// No text of a line has fewer brackets than its canonical text.
pub fn fewest_brackets()
    ensures { (names : List (List ℕ)) (text : List ℕ) (raws : List Raw) (l : Line) → raws_of text ≡ Some raws → IsStatement (tokens_of names raws) (Program l) → count_by is_bracket (line_tokens l) ≤ count_by is_bracket (tokens_of names raws) }
{}
