// Instructions behind their word and type: names, operands and an amount, as many as the form has.

ghost use Rattle.std.specs.Prelude.{◌≡◌, MatchOption};
ghost use Rattle.tcl_text.specs.Statements as grammar;
ghost use Rattle.tcl_parse.specs.Readers.{Found};
ghost use Rattle.tcl_parse.specs.StatementReaders.{NoNames, NoOperands, NoAmount, NoForm};

use crate::statement::tokens::{ends, name_at};
use crate::tree::operands::operand;
use crate::tree::reader::{Reading, capped, number_at};
use std::alloc::{AllocError, Global};
use tcl_lang::{Args, Instr, Op, Outs, Ty};
use tcl_list::Listing;
use tcl_text::{Token, has_amount};

/// So many names, and the tokens behind them.
fn names(
    alloc: Global,
    tokens: &[Token],
    count: usize,
) -> Result<Option<Reading<'_, Outs>>, AllocError>
    ensures exact { Found result (NoNames count tokens.now) (λ r. grammar.Names count tokens.now r.tree r.rest.now) }
{
    let mut names = Listing::new(alloc);
    let mut left = count;
    let mut rest = tokens;
    while 0 < left {
        let Some((name, behind)) = name_at(rest) else {
            return Ok(None);
        };
        names.push(name)?;
        left -= 1;
        rest = behind;
    }
    Ok(Some(Reading { tree: names, rest }))
}

/// So many operands, and the tokens behind them.
fn operands(
    alloc: Global,
    tokens: &[Token],
    count: usize,
) -> Result<Option<Reading<'_, Args>>, AllocError>
    ensures exact { Found result (NoOperands count tokens.now) (λ r. grammar.Operands count tokens.now r.tree r.rest.now) }
{
    let mut atoms = Listing::new(alloc);
    let mut left = count;
    let mut rest = tokens;
    while 0 < left {
        let Some(next) = operand(rest) else {
            return Ok(None);
        };
        atoms.push(next.tree)?;
        left -= 1;
        rest = next.rest;
    }
    Ok(Some(Reading { tree: atoms, rest }))
}

/// An amount where there is one, up to the end of the line.
fn amount(tokens: &[Token], expected: bool) -> Option<u32>
    ensures exact { MatchOption result (NoAmount expected tokens.now) (λ n. grammar.Amount expected tokens.now n) }
{
    if expected {
        let (n, rest) = number_at(tokens)?;
        if ends(rest) { Some(capped(n)) } else { None }
    } else if ends(tokens) {
        Some(0)
    } else {
        None
    }
}

/// An instruction behind its word and type, up to the end of the line.
pub(crate) fn form(
    alloc: Global,
    op: Op,
    ty: Ty,
    tokens: &[Token],
) -> Result<Option<Instr>, AllocError>
    ensures exact { Found result (NoForm op ty tokens.now) (λ instr. grammar.Form op ty tokens.now instr) }
{
    let Some(outs) = names(alloc, tokens, op.result_count())? else {
        return Ok(None);
    };
    let Some(args) = operands(alloc, outs.rest, op.operand_count())? else {
        return Ok(None);
    };
    let Some(amount) = amount(args.rest, has_amount(op)) else {
        return Ok(None);
    };
    Ok(Some(Instr {
        op,
        ty,
        outs: outs.tree,
        args: args.tree,
        amount,
    }))
}
