//! The law of runs for callers of the checker, as the contract of a function that does nothing.

ghost use Rattle.node_check.specs.Laws.{ListedActsRun};

/// Acts of listed processes have a run, if a send's receiver is listed too, so none of them is
/// stuck.
pub fn listed_acts_run()
    ensures { ListedActsRun }
{}
