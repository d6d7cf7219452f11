//! Programs: with names, with line numbers, well typed, and in versioned form.

ghost use Rattle.std.specs.Prelude.{◌≡◌, ◌↔◌, IsTrue, IfOk, length};
ghost use Rattle.tcl_lang.specs.Shape.{HasShape};
ghost use Rattle.tcl_lang.specs.Typing.{IsWellTyped};
ghost use Rattle.tcl_lang.specs.Form.{IsWellFormed};
ghost use Rattle.tcl_lang.specs.Versions.{IsForm};

use crate::pred::Line;
use crate::variable::{Name, Variable};
use std::alloc::{AllocError, Global};
use std::marker::Model;
use tcl_list::{Copies, Listing, Same};

/// The names of a program by their numbers.
pub type Names = Listing<Name>;

/// The lines of a program by their places, from 0; `end` has no place.
pub type Lines = Listing<Line>;

/// The line number in the text, from 1, of each place. Blank and comment lines are counted.
pub type Places = Listing<u64>;

/// The variables of a versioned program by their numbers.
pub type Variables = Listing<Variable>;

/// A program with names. It keeps that its lines have the shape of lines of the grammar and stand in their places, and
/// that its names are those of its lines, numbered by first occurrence.
#[derive(Drop)]
pub struct Program {
    names: Names,
    lines: Lines,
}

impl Model for Program {
    ghost use Rattle.tcl_lang.specs.Program.{NamedProgram};
    ghost use Rattle.tcl_lang.specs.contracts.term.Term as term;
    ghost use Rattle.tcl_lang.specs.contracts.range.RngTerm as range_term;
    ghost use Rattle.tcl_lang.specs.contracts.range.RngPred as range_pred;
    ghost use Rattle.std.specs.Coded.{codes};

    ghost Value = { NamedProgram };

    ghost coded = { Prim.hlevel (codes, term.the_row.coded, range_term.the_row.coded, range_pred.the_row.coded) };

    ghost use Rattle.tcl_lang.specs.Shape.{HasShape};

    ghost view = { λ p. record { names = p.names; lines = p.lines } };

    ghost invariant = { λ p. HasShape p.names p.lines };
}

impl Program {
    pub fn of(names: Names, lines: Lines) -> Self
        requires { HasShape names lines }
        ensures { result ≡ record { names = names; lines = lines } }
    {
        Program { names, lines }
    }

    pub fn names(&self) -> &Names
        ensures { result.now ≡ self.now.names }
    {
        &self.names
    }

    pub fn lines(&self) -> &Lines
        ensures lines { result.now ≡ self.now.lines }
        ensures shape { HasShape self.now.names self.now.lines }
    {
        &self.lines
    }

    /// An equal program with the same allocators. The only error is that memory has run out.
    pub fn copy(&self) -> Result<Self, AllocError>
        ensures copy { IfOk result (λ copy. copy ≡ self.now) }
    {
        Ok(Program {
            names: self.names.copy()?,
            lines: self.lines.copy()?,
        })
    }
}

impl Copies for Program {
    fn copy_in(&self, _alloc: Global) -> Result<Self, AllocError> {
        self.copy()
    }
}

impl Same for Program {
    fn same(&self, other: &Self) -> bool {
        self.names.same(&other.names) && self.lines.same(&other.lines)
    }
}

/// A program as it was read, with the line number of each place.
#[derive(Drop)]
pub struct Parsed {
    program: Program,
    places: Places,
}

impl Model for Parsed {
    ghost use Rattle.std.specs.Prelude.{◌≡◌, length};
    ghost use Rattle.tcl_lang.specs.Program.{ReadProgram};
    ghost use Rattle.tcl_lang.specs.contracts.term.Term as term;
    ghost use Rattle.tcl_lang.specs.contracts.range.RngTerm as range_term;
    ghost use Rattle.tcl_lang.specs.contracts.range.RngPred as range_pred;
    ghost use Rattle.std.specs.Coded.{codes};

    ghost Value = { ReadProgram };

    ghost coded = { Prim.hlevel (codes, term.the_row.coded, range_term.the_row.coded, range_pred.the_row.coded) };

    ghost view = { λ p. record { program = p.program; places = p.places } };

    ghost invariant = { λ p. length p.places ≡ length p.program.lines };
}

impl Parsed {
    pub fn of(program: Program, places: Places) -> Self
        requires { length places ≡ length program.lines }
        ensures { result ≡ record { program = program; places = places } }
    {
        Parsed { program, places }
    }

    pub fn program(&self) -> &Program
        ensures { result.now ≡ self.now.program }
    {
        &self.program
    }

    pub fn places(&self) -> &Places
        ensures places { result.now ≡ self.now.places }
        ensures numbers { length self.now.places ≡ length self.now.program.lines }
    {
        &self.places
    }

    /// An equal program with the same allocators. The only error is that memory has run out.
    pub fn copy(&self) -> Result<Self, AllocError>
        ensures copy { IfOk result (λ copy. copy ≡ self.now) }
    {
        Ok(Parsed {
            program: self.program.copy()?,
            places: self.places.copy()?,
        })
    }
}

impl Copies for Parsed {
    fn copy_in(&self, _alloc: Global) -> Result<Self, AllocError> {
        self.copy()
    }
}

/// A program that is well typed, with the line number of each place.
#[derive(Drop)]
pub struct Typed {
    parsed: Parsed,
}

impl Model for Typed {
    ghost use Rattle.std.specs.Prelude.{length};
    ghost use Rattle.tcl_lang.specs.Program.{ReadProgram};
    ghost use Rattle.tcl_lang.specs.contracts.term.Term as term;
    ghost use Rattle.tcl_lang.specs.contracts.range.RngTerm as range_term;
    ghost use Rattle.tcl_lang.specs.contracts.range.RngPred as range_pred;
    ghost use Rattle.std.specs.Coded.{codes};

    ghost Value = { ReadProgram };

    ghost coded = { Prim.hlevel (codes, term.the_row.coded, range_term.the_row.coded, range_pred.the_row.coded) };

    ghost use Rattle.tcl_lang.specs.Typing.{IsWellTyped};

    ghost view = { λ t. t.parsed };

    ghost invariant = { λ t. IsWellTyped (length t.parsed.program.names) t.parsed.program.lines };
}

impl Typed {
    pub fn of(parsed: Parsed) -> Self
        requires { IsWellTyped (length parsed.program.names) parsed.program.lines }
        ensures { result ≡ parsed }
    {
        Typed { parsed }
    }

    pub fn program(&self) -> &Program
        ensures program { result.now ≡ self.now.program }
        ensures typed { IsWellTyped (length self.now.program.names) self.now.program.lines }
    {
        self.parsed.program()
    }

    pub fn places(&self) -> &Places
        ensures places { result.now ≡ self.now.places }
        ensures numbers { length self.now.places ≡ length self.now.program.lines }
    {
        self.parsed.places()
    }

    /// An equal program with the same allocators. The only error is that memory has run out.
    pub fn copy(&self) -> Result<Self, AllocError>
        ensures copy { IfOk result (λ copy. copy ≡ self.now) }
    {
        Ok(Typed {
            parsed: self.parsed.copy()?,
        })
    }
}

impl Copies for Typed {
    fn copy_in(&self, _alloc: Global) -> Result<Self, AllocError> {
        self.copy()
    }
}

/// A program in static single assignment form: `Var(n)` of a line means variable n. It keeps that it is the form of a
/// well typed program.
#[derive(Drop)]
pub struct Ssa {
    variables: Variables,
    lines: Lines,
}

impl Model for Ssa {
    ghost use Rattle.tcl_lang.specs.Program.{VersionedProgram};
    ghost use Rattle.tcl_lang.specs.contracts.term.Term as term;
    ghost use Rattle.tcl_lang.specs.contracts.range.RngTerm as range_term;
    ghost use Rattle.tcl_lang.specs.contracts.range.RngPred as range_pred;
    ghost use Rattle.std.specs.Coded.{codes};

    ghost Value = { VersionedProgram };

    ghost coded = { Prim.hlevel (codes, term.the_row.coded, range_term.the_row.coded, range_pred.the_row.coded) };

    ghost use Rattle.tcl_lang.specs.Versions.{IsForm};

    ghost view = { λ f. record { variables = f.variables; lines = f.lines } };

    ghost invariant = { λ f. IsForm (record { variables = f.variables; lines = f.lines }) };
}

impl Ssa {
    pub fn of(variables: Variables, lines: Lines) -> Self
        requires { IsForm (record { variables = variables; lines = lines }) }
        ensures { result ≡ record { variables = variables; lines = lines } }
    {
        Ssa { variables, lines }
    }

    pub fn variables(&self) -> &Variables
        ensures variables { result.now ≡ self.now.variables }
        ensures well_formed { IsWellFormed self.now }
    {
        &self.variables
    }

    pub fn lines(&self) -> &Lines
        ensures lines { result.now ≡ self.now.lines }
        ensures form { IsForm self.now }
        ensures well_formed { IsWellFormed self.now }
    {
        &self.lines
    }

    /// An equal program with the same allocators. The only error is that memory has run out.
    pub fn copy(&self) -> Result<Self, AllocError>
        ensures copy { IfOk result (λ copy. copy ≡ self.now) }
    {
        Ok(Ssa {
            variables: self.variables.copy()?,
            lines: self.lines.copy()?,
        })
    }
}

impl Copies for Ssa {
    fn copy_in(&self, _alloc: Global) -> Result<Self, AllocError> {
        self.copy()
    }
}

impl Same for Ssa {
    fn same(&self, other: &Self) -> bool {
        self.variables.same(&other.variables) && self.lines.same(&other.lines)
    }
}
