//! Laws of steps, walks and critical pairs, as contracts of functions that do nothing.

ghost use Rattle.ct_walk.specs.Laws.{HeadIsPositive, FreeStepsGoDown, LeadsDown, LeadsKeepsSums, LeadsByMore, CoordinatesStayWithin, StepIsFree, WalkLeads, WalkEndIsNormal, WalkExists, WalkIsOne, WalkFollows, FollowsLeads, NormalIsUndivided, WalksStay, WalkEndsAtLeast, WalkEndsAtLeastWithin, TestListHasMoves, EndsHaveJobDegree, GradedCriticalPairs, TestListJoinsJobs};

/// Free steps go down within the fiber, and may be taken beside any other point and by any longer list.
pub fn steps_go_down()
    ensures positive { HeadIsPositive }
    ensures step { FreeStepsGoDown }
    ensures leads { LeadsDown }
    ensures sums { LeadsKeepsSums }
    ensures more { LeadsByMore }
    ensures within { CoordinatesStayWithin }
{}

/// Each point has one walk. It is a run of free steps, its steps apply in turn, and it ends at a point that no head
/// divides.
pub fn each_point_has_one_walk()
    ensures step { StepIsFree }
    ensures leads { WalkLeads }
    ensures normal { WalkEndIsNormal }
    ensures some { WalkExists }
    ensures only { WalkIsOne }
    ensures follows { WalkFollows }
{}

/// Steps that apply in turn are a run of free steps.
pub fn followed_steps_lead()
    ensures leads { FollowsLeads }
{}

/// A point that no head divides by the test is one that no head divides.
pub fn normal_points_are_undivided()
    ensures normal { NormalIsUndivided }
{}

/// A walk by a test list that covers the point's grade ends at the least point of the fiber, and is the walk by each
/// later test list. For the end it is enough that the list has each test head within a grade and a bound.
pub fn walks_stay()
    ensures moves { TestListHasMoves }
    ensures stays { WalksStay }
    ensures least { WalkEndsAtLeast }
    ensures within { WalkEndsAtLeastWithin }
{}

/// Both ends of a job are points of its degree. Where each job within a grade and a bound that isn't a coprime pair has
/// its ends led to one point, each fiber within has exactly one point that no head divides, and it is the least. A test
/// list leads them so.
pub fn graded_critical_pairs()
    ensures ends { EndsHaveJobDegree }
    ensures pairs { GradedCriticalPairs }
    ensures test_list { TestListJoinsJobs }
{}
