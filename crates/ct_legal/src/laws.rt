//! Laws of legal reports, as contracts of functions that do nothing.

ghost use Rattle.ct_legal.specs.Laws.{OneReport, OneWithoutAsks, SameWithoutAsks, FloorIsGreatest, CoveredIsAnswered};
ghost use Rattle.ct_legal.specs.Sessions.{ShownIsLegal};
ghost use Rattle.ct_legal.specs.Headline.{ServedIsTrue, AnsweredIsTrue};

/// Where each ask is taken as a solve, at most one report is legal; so too for a script without asks, and its text is the
/// same either way.
pub fn solves_leave_no_choice()
    ensures one { OneReport }
    ensures without_asks { OneWithoutAsks }
    ensures same { SameWithoutAsks }
{}

/// The floor of a grade that is the greatest of some is the greatest of their floors, and an ask whose sum the floor covers is
/// answered.
pub fn floors_rise()
    ensures greatest { FloorIsGreatest }
    ensures covered { CoveredIsAnswered }
{}

/// Whatever words its desk finds, a session shows legal lines from a floor that its first pinned version has reached.
pub fn sessions_show_legal_lines()
    ensures { ShownIsLegal }
{}

/// Each line of a legal report is true of its request: an answer is the least solution, or there is none; full is told
/// exactly where there are too many moves; and an ask is told not yet with a level that never falls in its session.
pub fn legal_reports_are_true()
    ensures served { ServedIsTrue }
    ensures answered { AnsweredIsTrue }
{}
