// Whole lines, and the verdict on a line.

ghost use Rattle.std.specs.Prelude.{◌≡◌, ◌≢◌, ◌∷◌, IfOk, Some};
ghost use Rattle.tcl_text.specs.declared.token.Keyword.TheVariants as keyword;
ghost use Rattle.tcl_text.specs.declared.token.Statement.TheVariants as statement;
ghost use Rattle.tcl_text.specs.declared.token.Token.TheVariants as token;
ghost use Rattle.tcl_text.specs.Statements.{IsStatement};
ghost use Rattle.tcl_text.specs.Verdict.{Judged};
ghost use Rattle.tcl_parse.specs.Readers.{Found};
ghost use Rattle.tcl_parse.specs.StatementReaders.{stated as stated_spec, kept_statement, NoStatement};

use crate::statement::instruction::form;
use crate::statement::predicate::predicate;
use crate::statement::scan::{has_too_many_operators, keeps_exponents, nests_too_deep};
use crate::statement::tokens::{ends, name_at, type_at};
use crate::tree::reader::first_of;
use sqlite_items::Boxed;
use std::alloc::{AllocError, Global};
use tcl_lang::{Line, Op, Pred};
use tcl_text::{Keyword, Limit, LineFault, Statement, Token};

/// The statement that a line of tokens is.
pub(crate) fn statement(
    alloc: Global,
    tokens: &[Token],
) -> Result<Option<Boxed<Statement>>, AllocError>
    ensures exact { Found result (NoStatement tokens.now) (λ s. IsStatement tokens.now s) }
{
    let Some((first, behind)) = first_of(tokens) else {
        return Ok(None);
    };
    match first {
        Token::Instruction(op) => step(alloc, *op, behind),
        Token::Reserved(Keyword::In) => input(alloc, behind),
        Token::Reserved(Keyword::End) => end(alloc, behind),
        Token::Reserved(word) => stated(alloc, *word, behind),
        _ => Ok(None),
    }
}

/// An instruction behind its word.
fn step(alloc: Global, op: Op, tokens: &[Token]) -> Result<Option<Boxed<Statement>>, AllocError>
    ensures exact { Found result
        (NoStatement (token.Instruction op ∷ tokens.now)) (λ s. IsStatement (token.Instruction op ∷ tokens.now) s) }
{
    let Some((ty, behind)) = type_at(tokens) else {
        return Ok(None);
    };
    match form(alloc, op, ty, behind)? {
        Some(instr) => found(alloc, Line::Step(instr)),
        None => Ok(None),
    }
}

/// The statement of a line.
fn found(alloc: Global, line: Line) -> Result<Option<Boxed<Statement>>, AllocError>
    ensures { IfOk result (λ s. s ≡ Some (statement.Program line)) }
{
    let statement = Boxed::new(alloc, Statement::Program(line))?;
    Ok(Some(statement))
}

/// An input behind its word.
fn input(alloc: Global, tokens: &[Token]) -> Result<Option<Boxed<Statement>>, AllocError>
    ensures exact { Found result
        (NoStatement (token.Reserved keyword.In ∷ tokens.now))
        (λ s. IsStatement (token.Reserved keyword.In ∷ tokens.now) s) }
{
    let Some((ty, behind)) = type_at(tokens) else {
        return Ok(None);
    };
    let Some((name, rest)) = name_at(behind) else {
        return Ok(None);
    };
    if ends(rest) {
        found(alloc, Line::Input(ty, name))
    } else {
        Ok(None)
    }
}

/// The last line behind its word.
fn end(alloc: Global, tokens: &[Token]) -> Result<Option<Boxed<Statement>>, AllocError>
    ensures exact { Found result
        (NoStatement (token.Reserved keyword.End ∷ tokens.now))
        (λ s. IsStatement (token.Reserved keyword.End ∷ tokens.now) s) }
{
    if ends(tokens) {
        Ok(Some(Boxed::new(alloc, Statement::End)?))
    } else {
        Ok(None)
    }
}

/// A predicate behind the word of its line.
fn stated(
    alloc: Global,
    word: Keyword,
    tokens: &[Token],
) -> Result<Option<Boxed<Statement>>, AllocError>
    requires no_input { word ≢ keyword.In }
    requires no_end { word ≢ keyword.End }
    ensures exact { Found result
        (NoStatement (token.Reserved word ∷ tokens.now)) (λ s. IsStatement (token.Reserved word ∷ tokens.now) s) }
{
    match predicate(alloc, tokens)? {
        Some(pred) => stated_with(alloc, word, pred),
        None => Ok(None),
    }
}

/// The statement that a word makes of a predicate.
fn stated_with(
    alloc: Global,
    word: Keyword,
    pred: Boxed<Pred>,
) -> Result<Option<Boxed<Statement>>, AllocError>
    ensures { IfOk result (λ s. s ≡ stated_spec word pred) }
{
    let pred = pred.into_inner();
    match word {
        Keyword::Pre => found(alloc, Line::Pre(pred)),
        Keyword::Assert => found(alloc, Line::Assert(pred)),
        Keyword::Assume => found(alloc, Line::Assume(pred)),
        Keyword::Cut => found(alloc, Line::Cut(pred)),
        Keyword::Post => found(alloc, Line::Post(pred)),
        _ => {
            drop(pred);
            Ok(None)
        }
    }
}

/// The verdict on a line whose bytes and tokens are allowed: the statement that it is, or its first fault.
pub(crate) fn judge(
    alloc: Global,
    tokens: &[Token],
) -> Result<Result<Boxed<Statement>, LineFault>, AllocError>
    ensures { IfOk result (λ verdict. Judged tokens.now verdict) }
{
    if nests_too_deep(tokens) {
        return Ok(Err(LineFault::Limit(Limit::Nesting)));
    }
    if has_too_many_operators(tokens) {
        return Ok(Err(LineFault::Limit(Limit::Operators)));
    }
    match statement(alloc, tokens)? {
        Some(statement) => Ok(kept(statement)),
        None => Ok(Err(LineFault::Text)),
    }
}

/// The verdict on a statement by its exponents.
fn kept(statement: Boxed<Statement>) -> Result<Boxed<Statement>, LineFault>
    ensures { result ≡ kept_statement statement }
{
    if keeps_exponents(statement.get()) {
        return Ok(statement);
    }
    drop(statement);
    Err(LineFault::Limit(Limit::Exponent))
}
