//! Moves and points of a file, to be looked up and walked.
ghost use Rattle.std.specs.Prelude.{◌≡◌, ◌≤◌, ◌++◌, length, All, IfOk};
ghost use Rattle.std.specs.Arc.{arc_value};
ghost use Rattle.ct_instance.specs.Instance.{IsPoint, grade_of};
ghost use Rattle.ct_vectors.specs.declared.limits.TheConstants.{GRADE_LIMIT};
ghost use Rattle.ct_walk.specs.Moves.{IsSmallMove};

use anyhow::{Context, Result, anyhow, ensure};
use ct_instance::Instance;
use ct_point::Point;
use ct_vectors::limits::{GRADE_LIMIT, MOVE_LIMIT};
use ct_walk::{Move, Moves, walk, walk_end};
use std::alloc::Global;
use std::sync::Arc;

/// Moves, points to look up, and points to walk.
#[derive(Drop)]
pub struct Case {
    moves: Moves,
    points: Vec<Point>,
    starts: Vec<Point>,
    ghost points_have_width: { All (IsPoint moves.instance) points.items },
    ghost starts_have_width: { All (IsPoint moves.instance) starts.items },
    ghost starts_are_low: { All (λ p. grade_of moves.instance.columns p ≤ GRADE_LIMIT) starts.items },
}

impl Case {
    /// Reads the numbers.
    pub fn read(alloc: Global, inst: &Arc<Instance>, numbers: &[u64]) -> Result<Case> {
        let mut left = Numbers { left: numbers };
        let moves = read_moves(alloc, inst, &mut left)?;
        let points = read_points(alloc, inst, &mut left)?;
        let starts = read_starts(alloc, inst, &mut left)?;
        Ok(Case {
            moves,
            points,
            starts,
        })
    }

    /// How many moves there are.
    pub fn move_count(&self) -> u32 {
        self.moves.len()
    }

    /// How many points are looked up.
    pub fn point_count(&self) -> usize {
        self.points.len()
    }

    /// Looks up each point: how many have a dividing move, and the sum of the numbers.
    pub fn look_up(&self) -> (u64, u64) {
        let mut found = 0u64;
        let mut sum = 0u64;
        for p in &self.points {
            if let Some(number) = self.moves.first_dividing(p) {
                found = found.wrapping_add(1);
                sum = sum.wrapping_add(u64::from(number));
            }
        }
        (found, sum)
    }

    /// Walks each start: how many there are, and how many steps they take.
    pub fn walk(&self, alloc: Global) -> Result<(usize, usize)> {
        let mut steps = 0usize;
        for p in &self.starts {
            let walked = walk(alloc, &self.moves, p.copy(alloc)?)?;
            steps = steps.wrapping_add(walked.steps().len());
        }
        Ok((self.starts.len(), steps))
    }

    /// Walks each start to its end, and keeps no steps.
    pub fn walk_ends(&self, alloc: Global) -> Result<()> {
        let Some(first) = self.starts.first() else {
            return Ok(());
        };
        let mut here = first.copy(alloc)?;
        for p in &self.starts {
            ensure!(here.as_slice().len() == p.as_slice().len(), "another width");
            here.copy_from(p);
            walk_end(&self.moves, &mut here);
        }
        Ok(())
    }

    /// The list that has one move more, a copy of the first.
    pub fn extended(&self, alloc: Global) -> Result<Moves> {
        ensure!(self.moves.len() > 0, "no move");
        ensure!(
            (self.moves.len() as usize) < MOVE_LIMIT,
            "too many moves to add one"
        );
        let mut more = Vec::new(alloc);
        more.push(self.moves.get(1).copy(alloc)?)?;
        Ok(self.moves.extended(alloc, more)?)
    }

    /// The list made anew, of a copy of each move.
    pub fn made_anew(&self, alloc: Global) -> Result<Moves> {
        let mut all = Vec::new(alloc);
        for index in 0..self.moves.len() {
            all.push(self.moves.get(index + 1).copy(alloc)?)?;
        }
        let none = Moves::new(alloc, Arc::try_clone(self.moves.instance())?);
        Ok(none.extended(alloc, all)?)
    }
}

// Numbers that are still to be read.
#[derive(Drop)]
struct Numbers<'a> {
    left: &'a [u64],
}

impl<'a> Numbers<'a> {
    fn take(&mut self, count: usize) -> Result<&'a [u64]>
        ensures { IfOk result (λ s. length s.now ≡ count) }
    {
        ensure!(count <= self.left.len(), "too few numbers");
        let (front, back) = self.left.split_at(count);
        self.left = back;
        Ok(front)
    }

    fn one(&mut self) -> Result<u64> {
        let (first, back) = self.left.split_first().context("too few numbers")?;
        self.left = back;
        Ok(*first)
    }
}

// The next point.
fn read_point(alloc: Global, inst: &Instance, left: &mut Numbers) -> Result<Point>
    ensures point { IfOk result (IsPoint inst.now) }
    ensures limit { IfOk result (All (λ x. x ≤ GRADE_LIMIT)) }
{
    let numbers = left.take(inst.columns() + inst.rows())?;
    ensure!(
        numbers.iter().all(|x| *x <= GRADE_LIMIT),
        "a number is over the limit"
    );
    Ok(Point::from_slice(alloc, numbers)?)
}

// The next move.
fn read_move(alloc: Global, inst: &Instance, left: &mut Numbers) -> Result<Move>
    ensures { IfOk result (IsSmallMove inst.now) }
{
    let head = read_point(alloc, inst, left)?;
    let tail = read_point(alloc, inst, left)?;
    match Move::new(inst, GRADE_LIMIT, head, tail) {
        Ok(made) => Ok(made),
        Err(fault) => Err(anyhow!("no move: {fault:?}")),
    }
}

// So many moves.
fn read_moves(alloc: Global, inst: &Arc<Instance>, left: &mut Numbers) -> Result<Moves>
    ensures { IfOk result (λ l. l.instance ≡ arc_value inst.now) }
{
    let count = left.one()?;
    ensure!(count <= MOVE_LIMIT as u64, "too many moves");
    let mut more = Vec::new(alloc);
    for _ in 0..count {
        more.push(read_move(alloc, inst, left)?)?;
    }
    let none = Moves::new(alloc, Arc::try_clone(inst)?);
    Ok(none.extended(alloc, more)?)
}

// So many points.
fn read_points(alloc: Global, inst: &Instance, left: &mut Numbers) -> Result<Vec<Point>>
    ensures { IfOk result (λ v. All (IsPoint inst.now) v.items) }
{
    let count = left.one()?;
    let mut points = Vec::new(alloc);
    for _ in 0..count {
        points.push(read_point(alloc, inst, left)?)?;
    }
    Ok(points)
}

// So many points whose walk is within the limit.
fn read_starts(alloc: Global, inst: &Instance, left: &mut Numbers) -> Result<Vec<Point>>
    ensures width { IfOk result (λ v. All (IsPoint inst.now) v.items) }
    ensures grade { IfOk result (λ v. All (λ p. grade_of inst.now.columns p ≤ GRADE_LIMIT) v.items) }
{
    let count = left.one()?;
    let mut starts = Vec::new(alloc);
    for _ in 0..count {
        let p = read_point(alloc, inst, left)?;
        ensure!(
            inst.grade_wide(&p) <= u128::from(GRADE_LIMIT),
            "a grade is over the limit"
        );
        starts.push(p)?;
    }
    Ok(starts)
}
