//! The variable that each name means now, and the variables so far.

ghost use Rattle.std.specs.Prelude.{◌≡◌, IfOk, OnOk, [], length, slice_index, slice_index_or, slice_set, true};
ghost use Rattle.tcl_lang.specs.Shape.{is_line, is_instruction};
ghost use Rattle.tcl_lang.specs.Results.{result_types};
ghost use Rattle.tcl_lang.specs.Versions as versions;
ghost use Rattle.tcl_ssa.specs.Table.{versions_of};

use std::alloc::{AllocError, Global};
use tcl_lang::{Instr, Line, Name, Names, Ty, Variable, Variables};
use tcl_list::Listing;

/// By name the number of its variable and the version of its next definition, and the variables so far.
#[derive(Drop)]
pub(crate) struct Table {
    pub current: Listing<u32>,
    pub next: Listing<u32>,
    pub variables: Variables,
}

impl Table {
    /// A table without definitions. `Err` is that memory has run out.
    pub(crate) fn new(alloc: Global, names: usize) -> Result<Self, AllocError>
        ensures { IfOk result (λ table. versions_of table ≡ versions.no_versions names) }
    {
        let current = Listing::from_vec(vec![in alloc; 0u32; names]?);
        let next = Listing::from_vec(vec![in alloc; 0u32; names]?);
        Ok(Table {
            current,
            next,
            variables: Variables::new(alloc),
        })
    }

    /// Defines what a line defines. `Err` is that memory has run out, or that there would be too many variables.
    pub(crate) fn define_line(
        &mut self,
        alloc: Global,
        names: &Names,
        line: &Line,
    ) -> Result<(), AllocError>
        requires { is_line line.now ≡ true }
        ensures { OnOk result (versions_of self.new ≡ versions.versions_after names.now (versions_of self.old) line.now) }
    {
        match line {
            Line::Input(ty, name) => self.define(alloc, names, *name, *ty),
            Line::Step(instr) => self.define_results(alloc, names, instr),
            _ => Ok(()),
        }
    }

    /// Defines the results of an instruction, from left to right.
    fn define_results(
        &mut self,
        alloc: Global,
        names: &Names,
        instr: &Instr,
    ) -> Result<(), AllocError>
        requires { is_instruction instr.now ≡ true }
        ensures { OnOk result (versions_of self.new ≡ versions.define_results names.now (versions_of self.old) instr.now.outs (result_types instr.now.op instr.now.ty)) }
    {
        for k in 0..instr.outs.len() {
            let ty = instr.op.result_type(instr.ty, k);
            self.define(alloc, names, *instr.outs.at(k), ty)?;
        }
        Ok(())
    }

    /// Defines a name: it means the next variable.
    fn define(&mut self, alloc: Global, names: &Names, name: u32, ty: Ty) -> Result<(), AllocError>
        ensures { OnOk result (versions_of self.new ≡ versions.define names.now (versions_of self.old) name ty) }
    {
        let number = number_of(&self.variables)?;
        let version = number_at(self.next.as_slice(), name);
        let next = version.checked_add(1).ok_or(AllocError)?;
        let text = name_at(alloc, names, name)?;
        self.variables.push(Variable {
            name: text,
            version,
            ty,
        })?;
        set(&mut self.current, name, number);
        set(&mut self.next, name, next);
        Ok(())
    }
}

/// The number of the next variable. `Err` is that there would be too many.
pub(crate) fn number_of(variables: &Variables) -> Result<u32, AllocError>
    ensures { IfOk result (λ number. number ≡ length variables.now) }
{
    match u32::try_from(variables.len()) {
        Ok(number) => Ok(number),
        Err(_) => Err(AllocError),
    }
}

/// The number of a name in a table; 0 where it has none.
pub(crate) fn number_at(numbers: &[u32], name: u32) -> u32
    ensures { result ≡ slice_index numbers.now name }
{
    match numbers.get(name as usize) {
        Some(number) => *number,
        None => 0,
    }
}

/// Gives a name a number, where the table has the name.
fn set(numbers: &mut Listing<u32>, name: u32, number: u32)
    ensures { numbers.new ≡ slice_set numbers.old name number }
{
    let name = name as usize;
    if name < numbers.len() {
        numbers.set(name, number);
    }
}

/// The bytes of a name; none where there is no such name.
fn name_at(alloc: Global, names: &Names, name: u32) -> Result<Name, AllocError>
    ensures { IfOk result (λ text. text ≡ slice_index_or names.now name []) }
{
    match names.as_slice().get(name as usize) {
        Some(text) => text.copy(),
        None => Ok(Name::new(alloc)),
    }
}
