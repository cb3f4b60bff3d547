//! The laws of runs, proved for every protocol: each function does nothing and promises one law, at
//! every type of actor state `A`, of message body `K` and of note `N`. `specs/Laws.antt` says them.

ghost use Rattle.og_runs.specs.Laws.{StampsRise, NamesUsedOnce, TakenNeverFlies, RunsAppend, RunsSplit, ClocksBounded, LogsAreARun, SortedEventsAreARun, RunsGiveLogs};

/// The stamps of each actor rise strictly.
pub fn stamps_rise<A, K, N>()
    ensures { StampsRise A K N }
{}

/// Names of messages are never used twice.
pub fn names_used_once<A, K, N>()
    ensures { NamesUsedOnce A K N }
{}

/// A message that was taken never flies again.
pub fn taken_never_flies<A, K, N>()
    ensures { TakenNeverFlies A K N }
{}

/// A run goes on where another ended.
pub fn runs_append<A, K, N>()
    ensures { RunsAppend A K N }
{}

/// A run splits after any of its choices.
pub fn runs_split<A, K, N>()
    ensures { RunsSplit A K N }
{}

/// No clock is above the number of events.
pub fn clocks_bounded<A, K, N>()
    ensures { ClocksBounded A K N }
{}

/// Local and consistent logs, sorted by stamp, are a run, which ends as the logs say.
pub fn logs_are_a_run<A, K, N>()
    ensures { LogsAreARun A K N }
{}

/// The events of a run, sorted by stamp, are a run to the same seats with the same messages in flight.
pub fn sorted_events_are_a_run<A, K, N>()
    ensures { SortedEventsAreARun A K N }
{}

/// Each actor's events of a run are its log, and these logs are local and consistent.
pub fn runs_give_logs<A, K, N>()
    ensures { RunsGiveLogs A K N }
{}
