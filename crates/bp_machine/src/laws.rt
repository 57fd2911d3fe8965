//! Laws of histories. These functions do nothing: their contracts are the laws.
ghost use Rattle.bp_machine.specs.Laws.{StepsAreARun, StepsAreWithin, RunsAreHistories, HistoriesAreRuns, FailuresAreReal, HistoriesAreShort, DeadlocksGrantNothing, DeadlocksLast, EntriesOnOneLine, OneCodeOneMeaning};

/// Proves that the granted steps of a legal history are a run of the program.
pub fn steps_are_a_run()
    ensures { StepsAreARun }
{}

/// Proves that the granted steps of a legal history are within the contexts of its setup.
pub fn steps_are_within()
    ensures { StepsAreWithin }
{}

/// Proves that the runs of a program within the bounds of a setup are exactly the granted attempts
/// of its legal histories. Such a run is moves, one after the other, from the start of the setup:
/// within its contexts, with at most as many steps of each thread as it may make attempts, and with
/// room for a frame at each call of a procedure. With the replies of its steps it is a legal
/// history, which leads to the same configuration; and the granted attempts of each legal history
/// are such a run, with these replies.
pub fn runs_are_histories()
    ensures each { RunsAreHistories }
    ensures back { HistoriesAreRuns }
{}

/// Proves that the last granted step of a legal history with a failure is at an assertion of 0.
pub fn failures_are_real()
    ensures { FailuresAreReal }
{}

/// Proves that a legal history has at most as many attempts as its threads may make together.
pub fn histories_are_short()
    ensures { HistoriesAreShort }
{}

/// Proves that in a deadlock no thread is granted a step, whatever its choice bit and the contexts
/// that are left. So a legal history has no granted attempt after it.
pub fn deadlocks_last()
    ensures each { DeadlocksGrantNothing }
    ensures later { DeadlocksLast }
{}

/// Proves that the entry procedures of a setup that fits the program of a text have names without a
/// line feed. So each name has a line of its own in a trace.
pub fn entries_are_on_one_line()
    ensures { EntriesOnOneLine }
{}

/// Proves that programs of one code have the same legal histories, of the setups that fit the code,
/// and print the same rows.
pub fn one_code_has_one_meaning()
    ensures { OneCodeOneMeaning }
{}
