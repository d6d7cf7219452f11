// The limits of a whole program.

ghost use Rattle.std.specs.Prelude.{◌≡◌, length, nat_lt};
ghost use Rattle.tcl_lang.specs.Goal.{goal_count as goals};
ghost use Rattle.tcl_lang.specs.Limit as limit;
ghost use Rattle.tcl_lang.specs.Names.{defined_names};
ghost use Rattle.tcl_parse.specs.TextLimits as text;

use tcl_lang::Line;
use tcl_text::Limit;

/// The most instructions of a program.
const INSTRUCTIONS: usize = 4096;

/// The most definitions of a program.
const VARIABLES: usize = 8192;

/// The most goals of a program.
const GOALS: usize = 4096;

/// The first limit that is exceeded.
pub(crate) fn exceeded_limit(lines: &[Line]) -> Option<Limit>
    ensures { result ≡ text.exceeded_limit lines.now }
{
    if INSTRUCTIONS < instruction_count(lines) {
        Some(Limit::Instructions)
    } else if has_too_many_definitions(lines) {
        Some(Limit::Variables)
    } else if GOALS < goal_count(lines) {
        Some(Limit::Goals)
    } else {
        None
    }
}

/// How many lines are instructions.
fn instruction_count(lines: &[Line]) -> usize
    ensures { result ≡ limit.instruction_count lines.now }
{
    let mut count = 0;
    for line in lines {
        if is_instruction(line) {
            count += 1;
        }
    }
    count
}

/// The line is an instruction.
fn is_instruction(line: &Line) -> bool
    ensures { result ≡ limit.is_instruction_line line.now }
{
    matches!(line, Line::Step(_))
}

/// How many goals the lines have.
fn goal_count(lines: &[Line]) -> usize
    ensures { result ≡ goals lines.now }
{
    let mut count = 0;
    for line in lines {
        if line.is_goal() {
            count += 1;
        }
    }
    count
}

/// The lines define more names than a program may.
fn has_too_many_definitions(lines: &[Line]) -> bool
    ensures { result ≡ nat_lt 8192 (limit.definition_count lines.now) }
{
    let mut room = VARIABLES;
    for line in lines {
        let count = definition_count(line);
        if room < count {
            return true;
        }
        room -= count;
    }
    false
}

/// How many names a line defines.
fn definition_count(line: &Line) -> usize
    ensures { result ≡ length (defined_names line.now) }
{
    match line {
        Line::Input(..) => 1,
        Line::Step(instr) => instr.outs.len(),
        _ => 0,
    }
}
