//! Laws of the definitions. Each function does nothing; its clause is the law.

ghost use Rattle.tcl_cubes.specs.Laws as laws;

/// As many splits as the cubes name bits are enough to decide whether they cover the assignments of a cube.
pub fn splits_decide()
    ensures { laws.SplitsDecide }
{}
