//! Laws of schedules and traces. These functions do nothing: their contracts are the laws.
ghost use Rattle.bp_trace.specs.Laws.{LinesDriveAgain, NoTwoHaveOneText, OneRefusal, OneScheduleRefusal, PiecesAreFewest, RefusedDrivesNowhere, RefusedIsNoTrace, RunsDriveToHistories};

/// Proves that the lines of the attempts of a legal history, each a thread and a choice bit, drive
/// its program to that history: no other history is legal along them, and no line is refused.
pub fn lines_drive_again()
    ensures { LinesDriveAgain }
{}

/// Proves that the threads and choice bits of a run's steps, a line for each, drive its program to
/// the history of the run. The run is within the bounds of the setup, and the setup within its
/// limits. That history is legal and leads to the same configuration, by `runs_are_histories` of
/// `bp_machine`.
pub fn runs_drive_to_histories()
    ensures { RunsDriveToHistories }
{}

/// Proves that a schedule has at most one refusal apart from memory, and that one refused so drives
/// its program to no history.
pub fn schedules_have_one_refusal()
    ensures one { OneScheduleRefusal }
    ensures none { RefusedDrivesNowhere }
{}

/// Proves that the pieces of a history, which are the lines of its trace in version 2, are its
/// attempts, cut into the fewest lists of one thread each.
pub fn pieces_are_fewest()
    ensures { PiecesAreFewest }
{}

/// Proves that no two triples of version, setup and history have one text, if names have no line
/// feed and numbers have 64 bits.
pub fn no_two_have_one_text()
    ensures { NoTwoHaveOneText }
{}

/// Proves that a text has at most one refusal apart from memory: the line, head or end that refuses
/// a text does so alone. And a text that is refused so is not a trace of the program.
pub fn refusals_are_single()
    ensures one { OneRefusal }
    ensures none { RefusedIsNoTrace }
{}
