//! Laws of runs that callers of the checker and the replay need. The functions do nothing: their
//! contracts are the laws.

ghost use Rattle.st_check.specs.Laws.{FewActsRun};

/// Says that acts of listed processes have a run if there are at most TOP of them, so that none is
/// stuck.
pub fn few_acts_run()
    ensures { FewActsRun }
{}
