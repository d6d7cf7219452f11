// What is made of the algebraic lines of a fact.

use crate::bits::add_bits;
use crate::blasted::Blasted;
use crate::ended::BlastEnd;
use crate::lifted::fixed_bits;
use std::alloc::Global;
use tcl_lang::{AlgPred, Ssa};

/// A way to make gates and clauses of the algebraic lines of a fact.
///
/// `handler` says what is made of a line that is a hypothesis, and of one that is the denied claim.
pub(crate) trait LineCircuits {
    ghost use Rattle.std.specs.Prelude.{◌≡◌, true, length, IfErr, OnOk};
    ghost use Rattle.tcl_lang.specs.Program.{VersionedProgram};
    ghost use Rattle.tcl_lang.specs.Shape.{is_term};
    ghost use Rattle.tcl_measure.specs.SoundModulus.{IsSound};
    ghost use Rattle.tcl_words.specs.Ranges.{AllWithin};
    ghost use Rattle.tcl_blast.specs.Clauses.{Handler};
    ghost use Rattle.tcl_blast.specs.Ends.{IsEnd};
    ghost use Rattle.tcl_blast.specs.Handlers.{OnlyAppends};

    ghost handler: { Self → VersionedProgram → Handler };

    /// Appends what a line says that is a hypothesis.
    fn state(
        &self,
        alloc: Global,
        blasted: &mut Blasted,
        ssa: &Ssa,
        pred: &AlgPred,
    ) -> Result<(), BlastEnd>
        requires within { AllWithin (length blasted.old.gates) blasted.old.words }
        requires sound { IsSound pred.now.modulus }
        requires number { is_term pred.now.right ≡ true }
        ensures made { OnOk result (blasted.new ≡ (handler self.now ssa.now).stating blasted.old pred.now) }
        ensures many { IfErr result (λ end. IsEnd ((handler self.now ssa.now).stating blasted.old pred.now).clauses end) };

    /// Appends what a denied goal says.
    fn deny(
        &self,
        alloc: Global,
        blasted: &mut Blasted,
        ssa: &Ssa,
        pred: &AlgPred,
    ) -> Result<(), BlastEnd>
        requires within { AllWithin (length blasted.old.gates) blasted.old.words }
        requires sound { IsSound pred.now.modulus }
        requires number { is_term pred.now.right ≡ true }
        ensures made { OnOk result (blasted.new ≡ (handler self.now ssa.now).denying blasted.old pred.now) }
        ensures many { IfErr result (λ end. IsEnd ((handler self.now ssa.now).denying blasted.old pred.now).clauses end) };

    ghost appends: { (circuits : Self) (p : VersionedProgram) → OnlyAppends (handler circuits p) };
}

/// No circuits: of a hypothesis the bits that it fixes, and nothing of a denied claim.
pub(crate) struct FixedBits;

impl LineCircuits for FixedBits {
    ghost use Rattle.tcl_blast.specs.Clauses.{by_fixed_bits};
    ghost use Rattle.tcl_blast.specs.Handlers.{fixed_bits_append};

    ghost handler = { λ _ p. by_fixed_bits p.variables };

    ghost appends = { λ _ p. fixed_bits_append p.variables };

    fn state(
        &self,
        alloc: Global,
        blasted: &mut Blasted,
        ssa: &Ssa,
        pred: &AlgPred,
    ) -> Result<(), BlastEnd> {
        let bits = fixed_bits(alloc, ssa.variables().as_slice(), pred)?;
        add_bits(alloc, blasted, bits.as_slice())?;
        Ok(())
    }

    fn deny(
        &self,
        _alloc: Global,
        _blasted: &mut Blasted,
        _ssa: &Ssa,
        _pred: &AlgPred,
    ) -> Result<(), BlastEnd> {
        Ok(())
    }
}
