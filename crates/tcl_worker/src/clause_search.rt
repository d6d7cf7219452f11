//! The search over clauses, and what it hands up.

ghost use Rattle.std.specs.Prelude.{◌≡◌, ◌≤◌, ◌<◌, ◌^◌, ◌-◌, ◌*◌, IfOk, OnOk};
ghost use Rattle.tcl_port.specs.Polling.{Rose};
ghost use Rattle.tcl_worker.specs.SearchEnds.{IsSearchEnd, WasStopped, steps_made};

use crate::search_end::SearchEnd;
use std::alloc::{AllocError, Global};
use tcl_cnf::Cnf;
use tcl_port::Port;
use tcl_sat::{Found, search};

/// The most conflicts between two polls.
const ROUND: u32 = 1_000;

/// The end of a search over clauses that derives at most `budget` of them. A log that is handed up has at most 1,000 lines for
/// each poll, as long as the count of polls did not reach its end. The only error is that memory has run out.
pub(crate) fn search_end<P: Port>(
    alloc: Global,
    cnf: &Cnf,
    port: &mut P,
    budget: u32,
) -> Result<SearchEnd, AllocError>
    requires budget { 0 < budget }
    ensures end { IfOk result (λ end. IsSearchEnd cnf.now budget end) }
    ensures few { IfOk result (λ end. steps_made budget end ≤ budget) }
    ensures polled { IfOk result (λ end. P.polls port.new < 2 ^ 64 - 1 → steps_made budget end ≤ 1000 * (P.polls port.new - P.polls port.old)) }
    ensures stopped { IfOk result (λ end. WasStopped (P.cancels port.old) (P.cancels port.new) end) }
    ensures asked { OnOk result (Rose (P.polls port.old) (P.polls port.new)) }
{
    match search(alloc, cnf, budget, ROUND, port)? {
        Found::Refutes(log) => Ok(SearchEnd::Refutes(log.seal())),
        Found::Model(bits) => Ok(SearchEnd::Model(bits)),
        Found::Spent(log) => {
            let _lines = log.seal();
            Ok(SearchEnd::Spent)
        }
        Found::Stopped => Ok(SearchEnd::Stopped),
    }
}
