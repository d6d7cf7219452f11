// The types of names, as lines define them one after another.

ghost use Rattle.std.specs.Prelude.{◌≡◌, ◌≤◌, true, Some, None, replicate, slice_set, IfOk};
ghost use Rattle.tcl_lang.specs.Results as results;
ghost use Rattle.tcl_lang.specs.Typing as typing;
ghost use Rattle.tcl_lang.specs.Types as types;

use std::alloc::{AllocError, Global};
use std::marker::Model;
use tcl_lang::{Atom, Instr, Line, Op, Ty};

/// The type of each name by its number, where a line so far has defined it.
#[derive(Drop)]
pub struct Types {
    of_names: Vec<Option<Ty>>,
}

impl Model for Types {
    ghost use Rattle.std.specs.Prelude.{List, Option};
    ghost use Rattle.tcl_lang.specs.declared.ty.Ty.{Ty};
    ghost use Rattle.std.specs.Coded.{codes};

    ghost Value = { List (Option Ty) };

    ghost view = { λ t. t.of_names.items };
}

impl Types {
    /// A table of so many names, none of which is defined.
    pub fn new(alloc: Global, names: usize) -> Result<Self, AllocError>
        ensures { IfOk result (λ types. types ≡ replicate names None) }
    {
        Ok(Types {
            of_names: vec![in alloc; None; names]?,
        })
    }

    /// An equal table with the same allocator.
    pub fn copy(&self) -> Result<Self, AllocError>
        ensures { IfOk result (λ copy. copy ≡ self.now) }
    {
        Ok(Types {
            of_names: self.of_names.clone()?,
        })
    }

    /// The type of a name. A number that the table does not have is that of no defined name.
    pub fn type_of(&self, name: u32) -> Option<Ty>
        ensures { result ≡ typing.type_at self.now name }
    {
        match self.of_names.get(name as usize) {
            Some(ty) => *ty,
            None => None,
        }
    }

    /// The type of an operand; that of a literal is the one that it states.
    pub fn type_of_atom(&self, atom: &Atom) -> Option<Ty>
        ensures { result ≡ typing.atom_type self.now atom.now }
    {
        match atom {
            Atom::Var(name) => self.type_of(*name),
            Atom::Lit(ty, _) => Some(*ty),
        }
    }

    /// Defines a name, perhaps again. A number that the table does not have changes nothing.
    pub fn set(&mut self, name: u32, ty: Ty)
        ensures { self.new ≡ slice_set self.old name (Some ty) }
    {
        let name = name as usize;
        if name < self.of_names.len() {
            self.of_names[name] = Some(ty);
        }
    }

    /// Takes in what a line defines, which has no reason to be ill-typed under this table.
    pub fn define(&mut self, line: &Line)
        requires { typing.reason_of self.old line.now ≡ None }
        ensures { self.new ≡ typing.types_after self.old (Some line.now) }
    {
        match line {
            Line::Input(ty, name) => self.set(*name, *ty),
            Line::Step(instr) => self.define_results(instr),
            _ => {}
        }
    }

    fn define_results(&mut self, instr: &Instr)
        requires { typing.allows instr.now.op instr.now.ty ≡ true }
        ensures { self.new ≡ typing.define_all self.old instr.now.outs (results.result_types instr.now.op instr.now.ty) }
    {
        let ty = instr.ty;
        let outs = instr.outs.as_slice();
        match instr.op {
            Op::Adds | Op::Adcs | Op::Subb | Op::Sbbs => self.define_all(outs, &[BIT, ty]),
            Op::Mull | Op::Split => self.define_all(outs, &[ty, unsigned(ty)]),
            Op::Mulj | Op::Join => self.define_all(outs, &[doubled(ty)]),
            _ => self.define_all(outs, &[ty]),
        }
    }

    fn define_all(&mut self, names: &[u32], tys: &[Ty])
        ensures { self.new ≡ typing.define_all self.old names.now tys.now }
    {
        for k in 0..names.len().min(tys.len()) {
            self.set(names[k], tys[k]);
        }
    }
}

pub(crate) const BIT: Ty = Ty {
    signed: false,
    width: 1,
};

pub(crate) fn unsigned(ty: Ty) -> Ty
    ensures { result ≡ types.unsigned_of ty }
{
    Ty {
        signed: false,
        width: ty.width,
    }
}

fn doubled(ty: Ty) -> Ty
    requires { ty.width ≤ 32 }
    ensures { result ≡ types.double_of ty }
{
    Ty {
        signed: ty.signed,
        width: 2 * ty.width,
    }
}
