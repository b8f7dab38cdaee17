//! Look-ups among a few heads, and among heads of the greatest width in two blocks.
ghost use Rattle.std.specs.Prelude.{◌≡◌, ◌≤◌, length, All};

use ct_index::HeadIndex;
use ct_point::Point;
use std::alloc::Global;
use std::process::Abort;

fn point(rt: &impl Abort, alloc: Global, numbers: &[u64]) -> Point
    requires some { 1 ≤ length numbers.now }
    requires limit { length numbers.now ≤ 80 }
    ensures { result ≡ numbers.now }
{
    Point::from_slice(alloc, numbers).expect(rt, "a point")
}

fn index_of(rt: &impl Abort, alloc: Global, heads: &[Point], width: usize) -> HeadIndex
    requires room { length heads.now ≤ 4096 }
    requires widths { All (λ h. length h ≡ width) heads.now }
    ensures { result ≡ heads.now }
{
    let mut index = HeadIndex::new(alloc);
    for head in heads {
        assert!(rt; index.push(alloc, head).is_ok());
    }
    index
}

// The first of these heads of a width that divides p.
fn first(rt: &impl Abort, alloc: Global, heads: &[Point], p: &[u64]) -> Option<u32>
    requires room { length heads.now ≤ 4096 }
    requires some { 1 ≤ length p.now }
    requires limit { length p.now ≤ 80 }
{
    assert!(rt; heads.iter().all(|h| h.as_slice().len() == p.len()));
    index_of(rt, alloc, heads, p.len()).first_dividing(&point(rt, alloc, p))
}

#[test]
fn worked_look_ups(rt: HostRuntime) {
    let alloc = rt.alloc();
    let mut coins = Vec::new(alloc);
    for head in [[0, 0, 3], [1, 0, 2], [0, 1, 1], [3, 0, 1], [5, 0, 0]] {
        coins.push(point(&rt, alloc, &head)).expect(&rt, "room");
    }
    let mut wide = Vec::new(alloc);
    for k in 0..129u64 {
        let mut head = [0u64; 80];
        head[79] = 200 - k;
        wide.push(point(&rt, alloc, &head)).expect(&rt, "room");
    }
    assert!(rt; coins.len() < 100 && wide.len() < 200);
    assert_eq!(rt; first(&rt, alloc, &coins, &[4, 0, 1]), Some(4));
    assert_eq!(rt; first(&rt, alloc, &coins, &[2, 0, 1]), None);
    assert_eq!(rt; first(&rt, alloc, &wide, &[72; 80]), Some(129));
}
