// What was read of a text before a line, and what the line does to it.

ghost use Rattle.std.specs.Prelude.{◌≡◌, ◌≤◌, ◌^◌, ◌+◌, ◌-◌, ◌++◌, ◌∷◌, ℕ, List, [], length, Some, nat_lt, true, false};
ghost use Rattle.std.specs.Prelude.{IfOk, IsOk, OnOk, MatchResult};
ghost use Rattle.tcl_lang.specs.Shape.{HasShape, stage_of as stage_spec};
ghost use Rattle.tcl_text.specs.Tokens.{raws_of as raws_spec};
ghost use Rattle.tcl_text.specs.Reading as text;
ghost use Rattle.tcl_text.specs.declared.fault.TextFault.TheVariants as text_fault;
ghost use Rattle.tcl_text.specs.declared.token.Statement.TheVariants as statement;
ghost use Rattle.tcl_parse.specs.TextProgress.{progress_of};
ghost use Rattle.tcl_parse.specs.TextSteps.{Steps, Stops};

use crate::statement::line::judge;
use crate::text::numbering::NameTable;
use crate::text::tokens::raws_of;
use sqlite_items::Boxed;
use std::alloc::{AllocError, Global};
use std::mem;
use tcl_lang::{Line, Lines, Parsed, Places, Program};
use tcl_list::Listing;
use tcl_text::{LineFault, Raw, Statement, TextFault};

/// The part of the text behind `end`.
const LAST_STAGE: u32 = 4;

/// Texts of more lines are out of memory.
const LINES: u64 = 4_294_967_294;

/// What was read of a text before a line.
#[derive(Drop)]
pub(crate) struct Progress {
    pub number: u64,
    pub stage: u32,
    pub names: NameTable,
    pub lines: Lines,
    pub places: Places,
}

impl Progress {
    /// Nothing was read: the next line is the first.
    pub fn start(alloc: Global) -> Self
        ensures { progress_of result ≡ text.start }
    {
        Progress {
            number: 1,
            stage: 0,
            names: NameTable::new(alloc),
            lines: Listing::new(alloc),
            places: Listing::new(alloc),
        }
    }

    /// `end` was not read.
    pub fn is_open(&self) -> bool
        ensures { result ≡ nat_lt self.now.stage 4 }
    {
        self.stage < LAST_STAGE
    }

    /// Reads one line more, or finds its fault. After a fault the progress means nothing.
    pub fn step(&mut self, alloc: Global, line: &[u8]) -> Result<Result<(), TextFault>, AllocError>
        ensures verdict { IfOk result (λ verdict. MatchResult verdict
            (λ _. Steps (progress_of self.old) line.now (progress_of self.new))
            (λ fault. Stops (progress_of self.old) line.now fault)) }
        ensures few { IfOk result (λ verdict. IsOk verdict → self.new.number ≤ 2 ^ 32 - 1) }
    {
        if LINES < self.number {
            return Err(AllocError);
        }
        match raws_of(alloc, line)? {
            Some(raws) => self.read(alloc, raws.as_slice()),
            None => Ok(Err(TextFault::Line(self.number, LineFault::Text))),
        }
    }

    /// Reads the tokens of one line more, or finds their fault.
    fn read(&mut self, alloc: Global, raws: &[Raw]) -> Result<Result<(), TextFault>, AllocError>
        requires { self.old.number ≤ 2 ^ 32 - 2 }
        ensures verdict { (line : List ℕ) → raws_spec line ≡ Some raws.now → IfOk result (λ verdict. MatchResult verdict
            (λ _. Steps (progress_of self.old) line (progress_of self.new))
            (λ fault. Stops (progress_of self.old) line fault)) }
        ensures few { IfOk result (λ verdict. IsOk verdict → self.new.number ≤ 2 ^ 32 - 1) }
    {
        if raws.is_empty() {
            self.number += 1;
            return Ok(Ok(()));
        }
        let tokens = self.names.tokens_of(alloc, raws)?;
        match judge(alloc, tokens.as_slice())? {
            Ok(statement) => self.place(statement),
            Err(fault) => Ok(Err(TextFault::Line(self.number, fault))),
        }
    }

    /// Puts a statement into its place, if it is there.
    fn place(&mut self, statement: Boxed<Statement>) -> Result<Result<(), TextFault>, AllocError>
        requires { self.old.number ≤ 2 ^ 32 - 2 }
        ensures verdict { IfOk result (λ verdict. MatchResult verdict
            (λ _. (text.may_follow self.old.stage statement ≡ true) ×
            (progress_of self.new ≡ text.continued (progress_of self.old) self.old.names statement))
            (λ fault. (text.may_follow self.old.stage statement ≡ false) × (fault ≡ text_fault.Shape self.old.number))) }
        ensures few { IfOk result (λ _. self.new.number ≤ 2 ^ 32 - 1) }
    {
        let number = self.number;
        let follows = may_follow(self.stage, statement.get());
        match statement.into_inner() {
            Statement::Program(line) => self.put(line)?,
            Statement::End => self.end(),
        }
        if follows {
            Ok(Ok(()))
        } else {
            Ok(Err(TextFault::Shape(number)))
        }
    }

    /// Puts a line behind those before it.
    fn put(&mut self, line: Line) -> Result<(), AllocError>
        requires { self.old.number ≤ 2 ^ 32 - 2 }
        ensures number { OnOk result (self.new.number ≡ self.old.number + 1) }
        ensures stage { OnOk result (self.new.stage ≡ stage_spec line) }
        ensures names { OnOk result (self.new.names ≡ self.old.names) }
        ensures lines { OnOk result (self.new.lines ≡ self.old.lines ++ line ∷ []) }
        ensures places { OnOk result (self.new.places ≡ self.old.places ++ self.old.number ∷ []) }
    {
        self.stage = line.stage();
        self.lines.push(line)?;
        self.places.push(self.number)?;
        self.number += 1;
        Ok(())
    }

    /// The program of the lines that were read. Afterwards the progress means nothing.
    pub fn program(&mut self, alloc: Global) -> Result<Parsed, AllocError>
        requires shape { HasShape self.old.names self.old.lines }
        requires numbers { length self.old.places ≡ length self.old.lines }
        ensures { IfOk result (λ p. p ≡ text.program_of (progress_of self.old)) }
    {
        let names = self.names.names(alloc)?;
        let lines = mem::replace(&mut self.lines, Listing::new(alloc));
        let places = mem::replace(&mut self.places, Listing::new(alloc));
        Ok(Parsed::of(Program::of(names, lines), places))
    }

    /// Reads `end`.
    fn end(&mut self)
        requires { self.old.number ≤ 2 ^ 32 - 2 }
        ensures progress { progress_of self.new ≡ text.continued (progress_of self.old) self.old.names statement.End }
        ensures number { self.new.number ≡ self.old.number + 1 }
    {
        self.stage = LAST_STAGE;
        self.number += 1;
    }
}

/// The statement may stand behind lines of this stage.
fn may_follow(stage: u32, statement: &Statement) -> bool
    ensures { result ≡ text.may_follow stage statement.now }
{
    match statement {
        Statement::Program(line) => stage < LAST_STAGE && stage <= line.stage(),
        Statement::End => stage < LAST_STAGE,
    }
}
