//! The support of a point as a mask: the bit of each coordinate that isn't 0.
ghost use Rattle.std.specs.Prelude.{◌≡◌, ◌/◌, ◌≤◌, length, IsTrue};
ghost use Rattle.ct_vectors.specs.Vectors.{total, IsTimes};
ghost use Rattle.ct_vectors.specs.declared.limits.TheConstants.{WIDTH_LIMIT};
ghost use Rattle.ct_index.specs.Table.{IsSupport, LacksSome};

// The support.
pub fn support_of(p: &[u64]) -> u128
    requires { length p.now ≤ WIDTH_LIMIT }
    ensures { IsSupport p.now result }
{
    let mut support = 0u128;
    for i in 0..p.len() {
        if p[i] > 0 {
            support |= 1u128 << i;
        }
    }
    support
}

// Whether the point is 0 in a coordinate of the mask.
pub fn lacks(mask: u128, p: &[u64]) -> bool
    ensures { IsTrue result → LacksSome mask p.now }
{
    let mut left = mask;
    while left != 0 {
        let i = left.trailing_zeros() as usize;
        if i >= p.len() || p[i] == 0 {
            return true;
        }
        left &= left - 1;
    }
    false
}

// How many times a head with this support fits into p. Only coordinates of the support are looked at.
pub fn times_over(support: u128, head: &[u64], p: &[u64]) -> u64
    requires support { IsSupport head.now support }
    requires width { length head.now ≡ length p.now }
    requires positive { 1 ≤ total head.now }
    ensures { IsTimes head.now p.now result }
{
    let mut times = u64::MAX;
    let mut left = support;
    while left != 0 {
        let i = left.trailing_zeros() as usize;
        times = times.min(quotient(p[i], head[i]));
        left &= left - 1;
    }
    times
}

// The quotient, by a division only where it is above 1 and the divisor too.
fn quotient(x: u64, by: u64) -> u64
    requires { 1 ≤ by }
    ensures { result ≡ x / by }
{
    if by == 1 {
        x
    } else if x < by {
        0
    } else if x - by < by {
        1
    } else {
        x / by
    }
}
