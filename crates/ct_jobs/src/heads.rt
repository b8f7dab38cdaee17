//! The loops over the two heads of a pair, with no point built for their least common multiple.
ghost use Rattle.std.specs.Prelude.{◌≡◌, ◌<◌, ◌≤◌, ◌^◌, length};
ghost use Rattle.ct_vectors.specs.Vectors.{lcm, total};
ghost use Rattle.ct_instance.specs.Instance.{weighted};
ghost use Rattle.ct_jobs.specs.Leaves.{Leaves, left_of};

use ct_point::Point;
use ct_walk::Move;

// The grade of the least common multiple of p and q, by the sums of the columns.
pub fn lcm_grade(sums: &[u64], p: &[u64], q: &[u64]) -> u64
    requires width { length p.now ≡ length q.now }
    requires columns { length sums.now ≤ length p.now }
    requires fits { weighted sums.now (lcm p.now q.now) < 2 ^ 64 }
    ensures { result ≡ weighted sums.now (lcm p.now q.now) }
{
    let n = sums.len();
    let mut sum = 0;
    for j in 0..n {
        sum += sums[j] * p[j].max(q[j]);
    }
    sum + lcm_total(&p[n..], &q[n..])
}

// The sum of the greater numbers.
fn lcm_total(p: &[u64], q: &[u64]) -> u64
    requires width { length p.now ≡ length q.now }
    requires fits { total (lcm p.now q.now) < 2 ^ 64 }
    ensures { result ≡ total (lcm p.now q.now) }
{
    let mut sum = 0;
    for i in 0..p.len() {
        sum += p[i].max(q[i]);
    }
    sum
}

// Makes the point what a move leaves of the least common multiple of its head and another. That is the other head less
// its own, where it is greater, and its tail.
pub fn write_left(left: &mut Point, mv: &Move, other: &Move)
    requires { Leaves left.old mv.now other.now }
    ensures { left.new ≡ left_of mv.now other.now }
{
    let head = mv.head().as_slice();
    let tail = mv.tail().as_slice();
    let beside = other.head().as_slice();
    for c in 0..head.len() {
        left.set(c, beside[c].saturating_sub(head[c]) + tail[c]);
    }
}
