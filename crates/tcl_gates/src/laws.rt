// What follows from the definitions alone. The functions do nothing: their contracts are the laws.

ghost use Rattle.std.specs.Prelude.{◌≡◌, ℕ, ◌+◌, ◌*◌, ◌/◌, ◌<◌, ◌≤◌, Bool, false, List, [], ◌∷◌, ◌++◌, length};
ghost use Rattle.tcl_cnf.specs.Literal.{literal_true, value_at};
ghost use Rattle.tcl_gates.specs.Gates.{values_of, gate_value, is_free, IsBelow, BeginsFree, clauses_of, clauses_behind, clauses_of_table, gate_table};
ghost use Rattle.tcl_gates.specs.Meaning.{word_bits, AreWithin, Begins, Shows};
ghost use Rattle.tcl_gates.specs.declared.gate.Gate.{Gate};

/// Gates that are appended change no older literal's value.
pub fn older_values_stay()
    ensures { (gates more : List Gate) (free : List Bool) (l : ℕ) → l / 2 ≤ length gates → literal_true (value_at (values_of (gates ++ more) free)) l ≡ literal_true (value_at (values_of gates free)) l }
{}

/// The literal of a new gate that is not free has the gate's value under the older values.
pub fn a_new_gate_has_its_value()
    ensures { (gates : List Gate) (gate : Gate) (free : List Bool) → is_free gate ≡ false → literal_true (value_at (values_of (gates ++ gate ∷ []) free)) (2 * (length gates + 1)) ≡ gate_value (value_at (values_of gates free)) gate }
{}

/// A gate that is not free gives at least two clauses, whatever its literals are.
pub fn a_gate_gives_two_clauses()
    ensures { (n : ℕ) (gate : Gate) → is_free gate ≡ false → IsBelow n gate → 2 ≤ length (clauses_of_table (gate_table (2 * n) gate)) }
{}

/// Where the first n gates are free, variable `k + 1` has free bit k, for each k below n.
pub fn leading_free_gates_have_their_bits()
    ensures { (n k : ℕ) (gates : List Gate) (free : List Bool) → BeginsFree n gates → k < n → value_at (values_of gates free) (k + 1) ≡ value_at free k }
{}

/// The clauses of more gates stand behind those of the gates before them.
pub fn clauses_of_more_gates_stand_behind()
    ensures { (gates more : List Gate) → clauses_of (gates ++ more) ≡ clauses_of gates ++ clauses_behind (length gates) (gates ++ more) }
{}

/// Literals show the same bits where more gates stand behind theirs.
pub fn shown_bits_stay()
    ensures { (gates all : List Gate) (free : List Bool) (ls : List ℕ) (bits : List Bool) → Begins gates all → Shows gates free ls bits → Shows all free ls bits }
{}

/// Literals of gates that are there show their own bits and no others, and no other literals show any.
pub fn literals_show_their_bits()
    ensures own { (gates : List Gate) (free : List Bool) (ls : List ℕ) → AreWithin (length gates) ls → Shows gates free ls (word_bits gates free ls) }
    ensures only { (gates : List Gate) (free : List Bool) (ls : List ℕ) (bits : List Bool) → Shows gates free ls bits → bits ≡ word_bits gates free ls }
    ensures within { (gates : List Gate) (free : List Bool) (ls : List ℕ) (bits : List Bool) → Shows gates free ls bits → AreWithin (length gates) ls }
{}
