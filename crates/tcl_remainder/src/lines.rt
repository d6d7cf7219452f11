// Cofactors as plain data.

ghost use Rattle.std.specs.Prelude.{◌≡◌, ◌++◌, ◌∷◌, [], true, IfOk, OnOk, OnErr};
ghost use Rattle.tcl_remainder.specs.Lines.{are_rising};

use std::alloc::{AllocError, Global};
use std::marker::Model;
use tcl_goals::Remainder;
use tcl_list::{Copies, Listing, Same};

/// A cofactor, and the number of the equation that it multiplies, from 0.
#[derive(Drop)]
pub struct CofactorLine {
    pub equation: u32,
    pub cofactor: Remainder,
}

/// Cofactors of equations. It keeps that the numbers of the equations rise.
#[derive(Drop)]
pub struct CofactorLines {
    lines: Listing<CofactorLine>,
}

impl Model for CofactorLines {
    ghost use Rattle.std.specs.Prelude.{◌≡◌, true, List};
    ghost use Rattle.tcl_remainder.specs.declared.lines.CofactorLine.{CofactorLine};
    ghost use Rattle.tcl_remainder.specs.Lines.{are_rising};

    ghost Value = { List CofactorLine };

    ghost view = { λ l. l.lines };

    ghost invariant = { λ l. are_rising l.lines ≡ true };
}

impl CofactorLines {
    /// No cofactors; takes no memory.
    pub fn new(alloc: Global) -> Self
        ensures { result ≡ [] }
    {
        CofactorLines {
            lines: Listing::new(alloc),
        }
    }

    /// Cofactors whose equations' numbers rise; takes no memory.
    pub fn of(lines: Listing<CofactorLine>) -> Self
        requires { are_rising lines ≡ true }
        ensures { result ≡ lines }
    {
        CofactorLines { lines }
    }

    /// The cofactors, by rising numbers of their equations.
    pub fn lines(&self) -> &Listing<CofactorLine>
        ensures lines { result.now ≡ self.now }
        ensures rising { are_rising self.now ≡ true }
    {
        &self.lines
    }

    /// Adds a cofactor whose equation is later than those before it.
    pub fn push(&mut self, line: CofactorLine) -> Result<(), AllocError>
        requires { are_rising (self.old ++ line ∷ []) ≡ true }
        ensures pushed { OnOk result (self.new ≡ self.old ++ line ∷ []) }
        ensures unchanged { OnErr result (self.new ≡ self.old) }
    {
        self.lines.push(line)?;
        Ok(())
    }

    /// Equal cofactors with the same allocators. The only error is that memory has run out.
    pub fn copy(&self) -> Result<Self, AllocError>
        ensures copy { IfOk result (λ copy. copy ≡ self.now) }
    {
        Ok(CofactorLines {
            lines: self.lines.copy()?,
        })
    }
}

impl Copies for CofactorLine {
    fn copy_in(&self, _alloc: Global) -> Result<Self, AllocError> {
        Ok(CofactorLine {
            equation: self.equation,
            cofactor: self.cofactor.copy()?,
        })
    }
}

impl Same for CofactorLine {
    fn same(&self, other: &Self) -> bool {
        self.equation == other.equation && self.cofactor.same(&other.cofactor)
    }
}

impl Copies for CofactorLines {
    fn copy_in(&self, _alloc: Global) -> Result<Self, AllocError> {
        self.copy()
    }
}

impl Same for CofactorLines {
    fn same(&self, other: &Self) -> bool {
        self.lines.same(&other.lines)
    }
}
