//! A version with the level that covers a grade, or with the mark.
ghost use Rattle.std.specs.Prelude.{◌≡◌, ◌≤◌, ◌<◌, ℕ, Some, length, map, get_or, IfOk};
ghost use Rattle.std.specs.Arc.{arc_value};
ghost use Rattle.ct_vectors.specs.declared.limits.TheConstants.{JOB_GRADE_LIMIT};
ghost use Rattle.ct_instance.specs.Versions.{Covers, level_of};
ghost use Rattle.ct_instance.specs.Reach.{opened_grade, first_level_from};
ghost use Rattle.ct_completion.specs.Kept.{AreLevels};
ghost use Rattle.ct_version.specs.Editions.{level_seen};
ghost use Rattle.ct_handing.specs.Handing.{AreRising, IsFirstCovering};

use ct_version::{Finished, FullMark, Helped, Version};
use std::alloc::{AllocError, Global};
use std::sync::Arc;

/// The version with the first of the levels so far that covers the grade, found by halving. `levels` has the level of each
/// version up to this one, from number 0 on.
pub fn helped(version: &Arc<Version>, levels: &[Finished], g: u64) -> Result<Helped, AllocError>
    requires levels { AreLevels (arc_value version.now).instance (arc_value version.now).number (map level_seen levels.now) }
    requires covers { Covers (level_of (arc_value version.now).instance (arc_value version.now).number) g }
    ensures version { IfOk result (λ h. arc_value h.version ≡ arc_value version.now) }
    ensures level { IfOk result (λ h. level_seen h.level ≡ first_level_from (arc_value version.now).instance g) }
{
    let first = first_covering(levels, g);
    let version = Arc::try_clone(version)?;
    Ok(Helped {
        version,
        level: levels[first],
    })
}

// The place of the first level that covers the grade, by halving.
fn first_covering(levels: &[Finished], g: u64) -> usize
    requires { AreRising levels.now g }
    ensures { IsFirstCovering levels.now g result }
{
    let mut low = 0;
    let mut high = levels.len() - 1;
    while low < high {
        let middle = low + (high - low) / 2;
        if levels[middle].covers(g) {
            high = middle;
        } else {
            low = middle + 1;
        }
    }
    low
}

/// The version with the mark at the grade that it opens: the one above the grade up to which it is finished.
pub fn marked(version: &Arc<Version>) -> Result<FullMark, AllocError>
    requires { (d : ℕ) × (opened_grade (arc_value version.now).instance (arc_value version.now).number ≡ Some d) × (d ≤ JOB_GRADE_LIMIT) }
    ensures version { IfOk result (λ m. arc_value m.version ≡ arc_value version.now) }
    ensures grade { IfOk result (λ m. opened_grade (arc_value version.now).instance (arc_value version.now).number ≡ Some m.grade) }
{
    let grade = match version.finished() {
        Finished::All => unreachable!(),
        Finished::Upto(level) => level + 1,
    };
    let version = Arc::try_clone(version)?;
    Ok(FullMark { grade, version })
}

/// The version, shared.
pub fn shared(alloc: Global, version: Version) -> Result<Arc<Version>, AllocError>
    ensures { IfOk result (λ a. arc_value a ≡ version) }
{
    match Arc::new(alloc, version) {
        Ok(made) => Ok(made),
        Err(_) => Err(AllocError),
    }
}
