// The limits of one line: brackets and operators over its tokens alone, exponents over what it reads as.

ghost use Rattle.std.specs.Prelude.{◌≡◌, ◌+◌, ◌≤◌};
ghost use Rattle.std.specs.List.{list_all};
ghost use Rattle.tcl_lang.specs.Shape.{is_exponent};
ghost use Rattle.tcl_text.specs.Scan as scan;
ghost use Rattle.tcl_text.specs.declared.token.Statement.TheVariants as statement;

use tcl_lang::{Line, Modulus, Part, Pred, Term};
use tcl_text::{Statement, Symbol, Token};

/// The most brackets that may be open at once.
const OPEN_BRACKETS: u64 = 64;

/// The most operators of a line.
const OPERATORS: usize = 4096;

/// The greatest exponent.
const EXPONENT: u32 = 1024;

/// More than 64 brackets are open at once.
pub(crate) fn nests_too_deep(tokens: &[Token]) -> bool
    ensures { result ≡ scan.nests_too_deep 0 tokens.now }
{
    let mut open = 0;
    for token in tokens {
        open = depth_after(open, token);
        if OPEN_BRACKETS < open {
            return true;
        }
    }
    false
}

/// How many brackets are open behind a token.
fn depth_after(depth: u64, token: &Token) -> u64
    requires { depth ≤ 64 }
    ensures depth { result ≡ scan.depth_after depth token.now }
    ensures within { result ≤ depth + 1 }
{
    match token {
        Token::Sign(Symbol::Open | Symbol::OpenSquare) => depth + 1,
        Token::Sign(Symbol::Close | Symbol::CloseSquare) => depth.saturating_sub(1),
        _ => depth,
    }
}

/// More than 4,096 operators stand in the line.
pub(crate) fn has_too_many_operators(tokens: &[Token]) -> bool
    ensures { result ≡ scan.has_too_many_operators tokens.now }
{
    let mut count = 0;
    for token in tokens {
        if is_operator(token) {
            count += 1;
        }
    }
    OPERATORS < count
}

/// The token is an operator.
fn is_operator(token: &Token) -> bool
    ensures { result ≡ scan.is_operator token.now }
{
    match token {
        Token::Sign(symbol) => is_operator_symbol(*symbol),
        _ => false,
    }
}

/// The token is an operator.
fn is_operator_symbol(symbol: Symbol) -> bool
    ensures { result ≡ scan.is_operator_symbol symbol }
{
    match symbol {
        Symbol::StarStar | Symbol::AndAnd | Symbol::BarBar => true,
        Symbol::Plus | Symbol::Minus | Symbol::Star => true,
        Symbol::Ampersand | Symbol::Bar | Symbol::Caret => true,
        Symbol::Tilde | Symbol::Bang => true,
        _ => false,
    }
}

/// No exponent is above 1,024.
pub(crate) fn keeps_exponents(statement: &Statement) -> bool
    ensures { result ≡ scan.is_low_statement statement.now }
{
    match statement {
        Statement::Program(line) => line_keeps_exponents(line),
        Statement::End => true,
    }
}

/// No exponent of the line is above 1,024.
fn line_keeps_exponents(line: &Line) -> bool
    ensures { result ≡ scan.is_low_statement (statement.Program line.now) }
{
    match line.predicate() {
        Some(pred) => predicate_keeps_exponents(pred),
        None => true,
    }
}

/// No exponent of the predicate is above 1,024.
fn predicate_keeps_exponents(pred: &Pred) -> bool
    ensures { result ≡ scan.is_low_predicate pred.now }
{
    match pred {
        Pred::Rng(_) => true,
        Pred::Alg(pred) => {
            term_keeps_exponents(&pred.left)
                && term_keeps_exponents(&pred.right)
                && modulus_keeps_exponents(&pred.modulus)
        }
    }
}

/// No exponent of the modulus is above 1,024.
fn modulus_keeps_exponents(modulus: &Option<Modulus>) -> bool
    ensures { result ≡ scan.is_low_modulus modulus.now }
{
    match modulus {
        Some(parts) => parts_keep_exponents(parts.as_slice()),
        None => true,
    }
}

/// No exponent of the parts is above 1,024.
fn parts_keep_exponents(parts: &[Part]) -> bool
    ensures { result ≡ list_all (λ part. is_exponent part.power) parts.now }
{
    for part in parts {
        if !part_keeps_exponent(part) {
            return false;
        }
    }
    true
}

/// The exponent of the part is not above 1,024.
fn part_keeps_exponent(part: &Part) -> bool
    ensures { result ≡ is_exponent part.now.power }
{
    match part.power {
        Some(exponent) => exponent <= EXPONENT,
        None => true,
    }
}

/// No exponent of the term is above 1,024.
fn term_keeps_exponents(term: &Term) -> bool
    ensures { result ≡ scan.is_low term.now }
{
    match term {
        Term::Var(_) | Term::Num(_) => true,
        Term::Neg(inner) => term_keeps_exponents(inner.get()),
        Term::Add(left, right) | Term::Sub(left, right) | Term::Mul(left, right) => {
            term_keeps_exponents(left.get()) && term_keeps_exponents(right.get())
        }
        Term::Pow(base, exponent) => term_keeps_exponents(base.get()) && *exponent <= EXPONENT,
    }
}
