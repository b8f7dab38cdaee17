//! The loops of points, on slices of one length.
ghost use Rattle.std.specs.Prelude.{◌≡◌, ◌+◌, ◌-◌, ◌++◌, take, ◌^◌, ◌<◌, ◌≤◌, length, All};
ghost use Rattle.ct_vectors.specs.Vectors.{zeros, add, subtract, scale, lcm, total, Divides, divides, disjoint, IsTimes};

// The first places become 0 and the others those of the rest.
pub fn write_parts(p: &mut [u64], zero_count: usize, rest: &[u64])
    requires { length p.old ≡ zero_count + length rest.now }
    ensures { p.new ≡ zeros zero_count ++ rest.now }
{
    p[..zero_count].fill(0);
    p[zero_count..].copy_from_slice(rest);
}

// The last places become those of the end.
pub fn write_end(p: &mut [u64], end: &[u64])
    requires { length end.now ≤ length p.old }
    ensures { p.new ≡ take (length p.old - length end.now) p.old ++ end.now }
{
    let at = p.len() - end.len();
    p[at..].copy_from_slice(end);
}

// p becomes p + q.
pub fn add_to(p: &mut [u64], q: &[u64])
    requires width { length p.old ≡ length q.now }
    requires fits { All (λ x. x < 2 ^ 64) (add p.old q.now) }
    ensures { p.new ≡ add p.old q.now }
{
    for i in 0..p.len() {
        p[i] += q[i];
    }
}

// p becomes p - q.
pub fn subtract_from(p: &mut [u64], q: &[u64])
    requires width { length p.old ≡ length q.now }
    requires at_most { Divides q.now p.old }
    ensures { p.new ≡ subtract p.old q.now }
{
    for i in 0..p.len() {
        p[i] -= q[i];
    }
}

// p gets the greater number in each coordinate.
pub fn raise_to(p: &mut [u64], q: &[u64])
    requires width { length p.old ≡ length q.now }
    ensures { p.new ≡ lcm p.old q.now }
{
    for i in 0..p.len() {
        p[i] = p[i].max(q[i]);
    }
}

// p becomes p less times the head plus times the tail.
pub fn shift_by(p: &mut [u64], head: &[u64], tail: &[u64], times: u64)
    requires head_width { length p.old ≡ length head.now }
    requires tail_width { length p.old ≡ length tail.now }
    requires at_most { Divides (scale times head.now) p.old }
    requires fits { All (λ x. x < 2 ^ 64) (add (subtract p.old (scale times head.now)) (scale times tail.now)) }
    ensures { p.new ≡ add (subtract p.old (scale times head.now)) (scale times tail.now) }
{
    for i in 0..p.len() {
        p[i] = p[i] - times * head[i] + times * tail[i];
    }
}

// Whether p is at most q in each coordinate.
pub fn is_at_most(p: &[u64], q: &[u64]) -> bool
    requires width { length p.now ≡ length q.now }
    ensures { result ≡ divides p.now q.now }
{
    for i in 0..p.len() {
        if p[i] > q[i] {
            return false;
        }
    }
    true
}

// Whether no coordinate is positive in both.
pub fn is_disjoint(p: &[u64], q: &[u64]) -> bool
    requires width { length p.now ≡ length q.now }
    ensures { result ≡ disjoint p.now q.now }
{
    for i in 0..p.len() {
        if p[i] > 0 && q[i] > 0 {
            return false;
        }
    }
    true
}

// The greatest count of the head that is at most p.
pub fn greatest_count(head: &[u64], p: &[u64]) -> u64
    requires width { length head.now ≡ length p.now }
    requires positive { 1 ≤ total head.now }
    ensures { IsTimes head.now p.now result }
{
    let mut times = u64::MAX;
    for i in 0..p.len() {
        if head[i] > 0 {
            times = times.min(p[i] / head[i]);
        }
    }
    times
}
