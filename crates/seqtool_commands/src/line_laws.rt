//! Laws of line numbers, as contracts of functions that do nothing: a proof that calls a function
//! may use its clause.

ghost use Rattle.seqtool_commands.specs.LineLaws.{ActsHaveTheirLines, EventLinesHavePlaces};
ghost use Rattle.seqtool_commands.specs.LineLaws.{EventsHaveTheirLines};

/// The line of an event in the text of a bundle is that event.
pub fn events_have_their_lines()
    ensures { EventsHaveTheirLines }
{}

/// Each line of the text that is an event's is the line of an event of a process.
pub fn event_lines_have_places()
    ensures { EventLinesHavePlaces }
{}

/// The line of an act in the text of a bundle is that act.
pub fn acts_have_their_lines()
    ensures { ActsHaveTheirLines }
{}
