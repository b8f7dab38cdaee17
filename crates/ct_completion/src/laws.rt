//! Laws of remainders, completions and journals, as contracts of functions that do nothing.

ghost use Rattle.ct_completion.specs.Laws.{RemaindersGiveTestMoves, RemaindersGiveNewMoves, NewMovesMakeNextList, NumberCountsPublishing, StateIsReplay, JournalGrows, ReplayIsOne, ReplaysAreReached, SerialsGrow, JournalToIsReplayed, OpenedJobsAreOfWhole};

/// The remainders of a grade's jobs against the test list of the grade before, their points in groups by degree, give
/// exactly the moves of the grade: each other point of a group with the least one. So the jobs that a version opens
/// give what the next version's list has more.
pub fn remainders_give_the_new_moves()
    ensures test_list { RemaindersGiveTestMoves }
    ensures version { RemaindersGiveNewMoves }
    ensures next { NewMovesMakeNextList }
{}

/// Over each run of a completion from its opening the number of the version counts what was published, and the state
/// is the replay of the journal, apart from the order of the queue. A journal has at most one replay.
pub fn state_is_the_replay()
    ensures number { NumberCountsPublishing }
    ensures state { StateIsReplay }
    ensures journal { JournalGrows }
    ensures one { ReplayIsOne }
{}

/// What a journal that has a replay says of the state: there is such a version, within the limit, the queue has jobs of
/// its opened grade, and a mark stands only at the full grade.
pub fn replays_are_reached()
    ensures reached { ReplaysAreReached }
    ensures serials { SerialsGrow }
{}

/// What a completion rests on that begins at a grade: the journal that one pass writes which takes all jobs in job order
/// is replayed to its last version, and the jobs that are opened on the way are told by the test list of the grade.
pub fn journal_in_job_order_is_replayed()
    ensures replayed { JournalToIsReplayed }
    ensures jobs { OpenedJobsAreOfWhole }
{}
