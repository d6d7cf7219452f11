// Lists of gates, each of which names the next variable.

ghost use Rattle.std.specs.Prelude.{◌≡◌, ◌+◌, ◌*◌, ◌<◌, ◌≤◌, ◌^◌, IfOk, OnOk, OnErr, Some, length, slice_get, List, [], ◌∷◌, ◌++◌};
ghost use Rattle.tcl_gates.specs.Gates.{IsBelow, AreGates};

use crate::gate::Gate;
use std::alloc::{AllocError, Global};
use std::marker::Model;
use tcl_cnf::Lit;
use tcl_list::Copies;

/// A circuit: gates in order. Variable 0 is true, and gate k, counted from 0, names variable `k + 1`.
///
/// It keeps the allocator that it was made with. `Err` is that memory has run out.
#[derive(Drop)]
pub struct Gates {
    gates: Vec<Gate>,
}

impl Model for Gates {
    ghost use Rattle.std.specs.Prelude.{List, ◌^◌, ◌<◌, length};
    ghost use Rattle.tcl_gates.specs.declared.gate.Gate.{Gate};

    ghost Value = { List Gate };

    ghost use Rattle.tcl_gates.specs.Gates.{AreGates};

    ghost view = { λ g. g.gates.items };

    ghost invariant = { λ g. AreGates g.gates.items × (length g.gates.items < 2 ^ 31) };
}

impl Gates {
    /// The circuit with no gate, of variable 0 alone; takes no memory.
    pub fn new(alloc: Global) -> Gates
        ensures { result ≡ [] }
    {
        Gates {
            gates: Vec::new(alloc),
        }
    }

    /// The number of gates, which is the greatest variable's number.
    pub fn len(&self) -> usize
        ensures { result ≡ length self.now }
    {
        self.gates.as_slice().len()
    }

    /// The gate that names variable `k + 1`.
    pub fn at(&self, k: usize) -> &Gate
        requires { k < length self.now }
        ensures { slice_get self.now k ≡ Some result.now }
    {
        &self.gates[k]
    }

    /// Appends a gate, and returns the literal of the variable that it names. There are no more than `2^31 - 1` gates: for
    /// one more the answer is that memory has run out.
    pub fn push(&mut self, gate: Gate) -> Result<Lit, AllocError>
        requires { IsBelow (length self.old + 1) gate }
        ensures pushed { OnOk result (self.new ≡ self.old ++ gate ∷ []) }
        ensures literal { IfOk result (λ lit. lit ≡ 2 * (length self.old + 1)) }
        ensures unchanged { OnErr result (self.new ≡ self.old) }
    {
        let count = self.gates.as_slice().len();
        if count >= 0x7fff_ffff {
            return Err(AllocError);
        }
        self.gates.push(gate)?;
        Ok(Lit::of(count as u32 + 1))
    }

    /// An equal circuit with the same allocator.
    pub fn copy(&self) -> Result<Gates, AllocError>
        ensures { IfOk result (λ copy. copy ≡ self.now) }
    {
        Ok(Gates {
            gates: Vec::from_slice(*self.gates.allocator(), &self.gates)?,
        })
    }

    /// Tells the caller what every list of gates keeps.
    pub fn known(&self)
        ensures gates { AreGates self.now }
        ensures few { length self.now < 2 ^ 31 }
    {
        let _ = &self.gates;
    }
}

impl Copies for Gates {
    fn copy_in(&self, _alloc: Global) -> Result<Self, AllocError> {
        self.copy()
    }
}
