//! Laws of boxes, as contracts of functions that do nothing.

ghost use Rattle.ct_box.specs.Laws.{BoxLemma, BoxListIsOne, BoxEndsAtSum, BoxStarts, BoxOpens, BoxGrows, BoxWalkEndsAtLeast, BoxWalksStay, BoxFullGradeIsFound, NoBoxFullGrade, BoxBegins, BoxEnds, BoxSteps, BoxFills, DoneNamesFullGrade, DoneWalksAsBox};

/// Where each job within a bound that isn't a coprime pair has its ends led to one point, each fiber within the bound has
/// exactly one point that no head divides, and it is the least.
pub fn jobs_within_a_bound_decide()
    ensures pairs { BoxLemma }
{}

/// The box up to a grade is one list. It is empty at grade 0, stays the same up to the next grade of a job within the
/// bound, grows there by the group moves of the remainders, and is whole at the sum of the bound.
pub fn boxes_grow_by_grade()
    ensures one { BoxListIsOne }
    ensures starts { BoxStarts }
    ensures opens { BoxOpens }
    ensures grows { BoxGrows }
    ensures whole { BoxEndsAtSum }
{}

/// The walk of a right-hand side within the bound ends at the least point, and its moves up to the sum of the right-hand
/// side are enough for it.
pub fn boxes_lead_to_the_least()
    ensures least { BoxWalkEndsAtLeast }
    ensures stays { BoxWalksStay }
{}

/// The box full grade is the least grade up to which the box has more moves than the limit.
pub fn box_full_grade_is_found()
    ensures found { BoxFullGradeIsFound }
    ensures none { NoBoxFullGrade }
{}

/// A completion that takes the next grade of a job, and of its jobs those within the bound, ends with the whole box, or
/// where the limit is exceeded with its moves below the box full grade. These walk below that grade as the box does.
pub fn completions_end_with_the_box()
    ensures begins { BoxBegins }
    ensures steps { BoxSteps }
    ensures fills { BoxFills }
    ensures ends { BoxEnds }
    ensures full { DoneNamesFullGrade }
    ensures walks { DoneWalksAsBox }
{}
