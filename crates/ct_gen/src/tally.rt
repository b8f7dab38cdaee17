//! What the lines of a report add up to.

ghost use Rattle.std.specs.Prelude.{◌≡◌, ◌+◌, ◌<◌, ◌≤◌, ◌∷◌, [], All, length};
ghost use Rattle.std.specs.List.{flat_map};
ghost use Rattle.ct_input.specs.declared.limits.TheConstants.{REQUEST_LIMIT};
ghost use Rattle.ct_gen.specs.Tallies.{lines_of, tally_of, plus, IsTally, HasCost};

use ct_point::Seq;
use ct_report::Report;
use ct_session::Line;
use ct_version::Answer;

/// How many lines of each kind a report has, and the sum of the first costs of its optima.
#[derive(Clone, Copy, Debug, PartialEq, Eq)]
pub struct Tally {
    /// All lines.
    pub requests: u64,
    /// Those with an optimum.
    pub optimum: u64,
    /// Those that say that there is no solution.
    pub infeasible: u64,
    /// Those that say that the list of moves is full.
    pub full: u64,
    /// The sum of the first costs of the optima.
    pub cost: i128,
}

impl Tally {
    /// The tally of a report, of at most 100,000 lines with costs within the limit, in one pass over its lines.
    pub fn of(report: &Report) -> Tally
        requires few { length (lines_of report.now) ≤ REQUEST_LIMIT }
        requires costs { All HasCost (lines_of report.now) }
        ensures { result ≡ tally_of (lines_of report.now) }
    {
        let mut tally = Tally::none();
        for phase in report.phases.as_slice() {
            tally.add_sessions(phase.sessions.as_slice());
        }
        tally
    }

    fn none() -> Tally
        ensures { result ≡ tally_of [] }
    {
        Tally {
            requests: 0,
            optimum: 0,
            infeasible: 0,
            full: 0,
            cost: 0,
        }
    }

    fn add_sessions(&mut self, sessions: &[Seq<Line>])
        requires tally { IsTally self.old }
        requires few { self.old.requests + length (flat_map (λ lines. lines) sessions.now) ≤ REQUEST_LIMIT }
        requires costs { All HasCost (flat_map (λ lines. lines) sessions.now) }
        ensures sum { self.new ≡ plus self.old (tally_of (flat_map (λ lines. lines) sessions.now)) }
        ensures tally { IsTally self.new }
    {
        for lines in sessions {
            self.add_lines(lines.as_slice());
        }
    }

    fn add_lines(&mut self, lines: &[Line])
        requires tally { IsTally self.old }
        requires few { self.old.requests + length lines.now ≤ REQUEST_LIMIT }
        requires costs { All HasCost lines.now }
        ensures sum { self.new ≡ plus self.old (tally_of lines.now) }
        ensures tally { IsTally self.new }
    {
        for line in lines {
            self.add(line);
        }
    }

    fn add(&mut self, line: &Line)
        requires tally { IsTally self.old }
        requires few { self.old.requests < REQUEST_LIMIT }
        requires cost { HasCost line.now }
        ensures sum { self.new ≡ plus self.old (tally_of (line.now ∷ [])) }
        ensures tally { IsTally self.new }
    {
        self.requests += 1;
        match line {
            Line::Answered { answer, walk: _ } => match answer {
                Answer::Optimum { point: _, costs } => {
                    self.optimum += 1;
                    self.cost += costs.as_slice()[0];
                }
                Answer::Infeasible { short: _ } => self.infeasible += 1,
            },
            Line::NotYet { finished: _ } => {}
            Line::Full { grade: _ } => self.full += 1,
        }
    }
}
