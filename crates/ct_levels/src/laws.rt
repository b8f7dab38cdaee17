//! Laws of versions and levels, as contracts of functions that do nothing.

ghost use Rattle.ct_levels.specs.Laws.{ListIsTestList, ListIsLaterTestList, OpenedIsNextJobGrade, OpenedHasJob, OpenedIsWithin, OpenedIsCovered, LevelsRise, NumberIsWithin, VersionsStandBefore, FirstVersionIsOne, GradeIsCovered, TestListIsOfFirst, OpenedIsNextOfWhole, GradesCountVersions, VersionWalks, VersionWalkEndsAtLeast, OpenedIsFull, FullIsOpened, WithinIsBelowFull, FullGradeIsFound, NoFullGrade, ReachWhereFull, ReachWhereWithin, ReachIsLevel, ReachCovers, ReachRises};

/// A version's list is the test list of each grade from the one that was opened last up to its level.
pub fn versions_have_test_lists()
    ensures list { ListIsTestList }
    ensures later { ListIsLaterTestList }
{}

/// The level of a version is told by the grades of its jobs, and levels rise with the number.
pub fn levels_follow_jobs()
    ensures opened { OpenedIsNextJobGrade }
    ensures job { OpenedHasJob }
    ensures within { OpenedIsWithin }
    ensures covered { OpenedIsCovered }
    ensures rise { LevelsRise }
    ensures number { NumberIsWithin }
    ensures before { VersionsStandBefore }
{}

/// Each grade is covered by one first version, whose list is the test list of that grade.
pub fn each_grade_is_covered()
    ensures one { FirstVersionIsOne }
    ensures version { GradeIsCovered }
    ensures list { TestListIsOfFirst }
{}

/// Up to the first version that covers a grade, the grade that each version opens is the next job grade of the test list
/// of that grade. So that version's number counts the grades of the jobs up to the grade.
pub fn whole_list_tells_openings()
    ensures opened { OpenedIsNextOfWhole }
    ensures count { GradesCountVersions }
{}

/// A point that a version covers walks by the version's list as by the test list of its grade, to the least point.
pub fn covered_points_walk_to_the_least()
    ensures walk { VersionWalks }
    ensures end { VersionWalkEndsAtLeast }
{}

/// A full grade is the grade that some version opens, and a version within the limit covers only what is below it.
pub fn full_grade_is_opened()
    ensures full { OpenedIsFull }
    ensures opened { FullIsOpened }
    ensures below { WithinIsBelowFull }
    ensures found { FullGradeIsFound }
    ensures none { NoFullGrade }
{}

/// The reach of a grade is the level of a version within the limit, and rises with the grade.
pub fn reach_is_a_level()
    ensures full { ReachWhereFull }
    ensures within { ReachWhereWithin }
    ensures level { ReachIsLevel }
    ensures covers { ReachCovers }
    ensures rises { ReachRises }
{}
