//! Whether a job is within the bound.
ghost use Rattle.std.specs.Prelude.{◌≡◌, length};
ghost use Rattle.ct_vectors.specs.Vectors.{divides};
ghost use Rattle.ct_instance.specs.Instance.{IsPoint};
ghost use Rattle.ct_instance.specs.Jobs.{job_degree_of};
ghost use Rattle.ct_solo.specs.Leaving.{IsSmallJob};

use ct_instance::Job;
use ct_jobs::ends_into;
use ct_point::Point;
use ct_vectors::limits::ROW_LIMIT;
use ct_walk::Moves;

// Whether the degree of the job is within the bound. It is told by the first end, which is made in the points given, so that
// no least common multiple is.
pub fn is_within(
    moves: &Moves,
    job: Job,
    top: &[u64],
    first: &mut Point,
    second: &mut Point,
) -> bool
    requires right { length top.now ≡ moves.now.instance.rows }
    requires job { IsSmallJob moves.now.instance moves.now.moves job }
    requires first_point { IsPoint moves.now.instance first.old }
    requires second_point { IsPoint moves.now.instance second.old }
    ensures within { result ≡ divides (job_degree_of moves.now.instance moves.now.moves job) top.now }
    ensures first_stays_point { IsPoint moves.now.instance first.new }
    ensures second_stays_point { IsPoint moves.now.instance second.new }
{
    let inst = moves.instance();
    ends_into(inst, moves, job, first, second);
    let mut degree = [0u64; ROW_LIMIT];
    let rows = inst.rows();
    inst.degree_into(first, &mut degree[..rows]);
    is_at_most(&degree[..rows], top)
}

// Whether p is at most q in each row.
fn is_at_most(p: &[u64], q: &[u64]) -> bool
    requires { length p.now ≡ length q.now }
    ensures { result ≡ divides p.now q.now }
{
    for i in 0..p.len() {
        if p[i] > q[i] {
            return false;
        }
    }
    true
}
