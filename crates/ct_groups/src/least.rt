//! The groups of some points, and the least point of each.
ghost use Rattle.std.specs.Prelude.{[], ◌≡◌, ◌+◌, ◌<◌, ◌++◌, ◌∷◌, length, get_or, set, All, IfOk, OnOk};
ghost use Rattle.std.specs.Ordering.{nat_cmp};
ghost use Rattle.std.specs.Cmp.Lexicographic.{slice_cmp};
ghost use Rattle.std.specs.BTreeMap.{get};
ghost use Rattle.ct_instance.specs.Fiber.{is_lower};
ghost use Rattle.ct_groups.specs.Groups.{points_seen, IsSmallPoint, key_of, lower_of, KnowsGroups, HasGroups};

use ct_instance::Instance;
use ct_order::compare;
use ct_point::Point;
use ct_vectors::limits::ROW_LIMIT;
use std::alloc::{AllocError, Global};
use std::cmp::Ordering;
use std::collections::BTreeMap;

// The number of the group of a degree, with zeros behind the degree.
type GroupNumbers = BTreeMap<[u64; ROW_LIMIT], usize>;

// The groups of some points: of each point the number of its group, and of each group the place of its least point.
#[derive(Drop)]
pub struct Groups {
    pub of_point: Vec<usize>,
    pub least: Vec<usize>,
}

// The groups of these points, numbered as their degrees first come. While it looks, it keeps an entry of 136 bytes a
// degree, found in the logarithm of their number.
pub fn groups_of(alloc: Global, inst: &Instance, points: &[&Point]) -> Result<Groups, AllocError>
    requires { All (IsSmallPoint inst.now) (points_seen points.now) }
    ensures { IfOk result (λ g. HasGroups inst.now (points_seen points.now) (length points.now) g) }
{
    let mut numbers = BTreeMap::new(alloc);
    let mut groups = Groups {
        of_point: Vec::with_capacity(alloc, points.len())?,
        least: Vec::new(alloc),
    };
    for k in 0..points.len() {
        put(inst, points, &mut numbers, &mut groups, k)?;
    }
    Ok(groups)
}

// Takes the point at place k into account, where those before it are.
fn put(
    inst: &Instance,
    points: &[&Point],
    numbers: &mut GroupNumbers,
    groups: &mut Groups,
    k: usize,
) -> Result<(), AllocError>
    requires points { All (IsSmallPoint inst.now) (points_seen points.now) }
    requires place { k < length points.now }
    requires knows { KnowsGroups inst.now (points_seen points.now) k (get (slice_cmp nat_cmp) numbers.old) groups.old }
    ensures { OnOk result (KnowsGroups inst.now (points_seen points.now) (k + 1) (get (slice_cmp nat_cmp) numbers.new) groups.new) }
{
    let key = degree_key(inst, points[k]);
    let known = numbers.get(&key).copied();
    if let Some(group) = known {
        return join(inst, points, groups, group, k);
    }
    let group = groups.least.len();
    numbers.insert(key, group)?;
    groups.of_point.push(group)?;
    groups.least.push(k)?;
    Ok(())
}

// Adds the point at place k to this group.
fn join(
    inst: &Instance,
    points: &[&Point],
    groups: &mut Groups,
    group: usize,
    k: usize,
) -> Result<(), AllocError>
    requires points { All (IsSmallPoint inst.now) (points_seen points.now) }
    requires place { k < length points.now }
    requires group { group < length groups.old.least.items }
    requires least { get_or groups.old.least.items group 0 < length points.now }
    ensures of_point { OnOk result (groups.new.of_point.items ≡ groups.old.of_point.items ++ group ∷ []) }
    ensures least { groups.new.least.items ≡ set groups.old.least.items group (lower_of inst.now (points_seen points.now) k (get_or groups.old.least.items group 0)) }
{
    groups.least[group] = lower_place(inst, points, k, groups.least[group]);
    groups.of_point.push(group)?;
    Ok(())
}

// Of two places the one whose point is lower, and b where neither is.
fn lower_place(inst: &Instance, points: &[&Point], a: usize, b: usize) -> usize
    requires points { All (IsSmallPoint inst.now) (points_seen points.now) }
    requires a { a < length points.now }
    requires b { b < length points.now }
    ensures { result ≡ lower_of inst.now (points_seen points.now) a b }
{
    if is_lower_point(inst, points[a], points[b]) {
        a
    } else {
        b
    }
}

// Whether p is below q.
fn is_lower_point(inst: &Instance, p: &Point, q: &Point) -> bool
    requires p_small { IsSmallPoint inst.now p.now }
    requires q_small { IsSmallPoint inst.now q.now }
    ensures { result ≡ is_lower inst.now p.now q.now }
{
    compare(inst.costs(), p.as_slice(), q.as_slice()) == Ordering::Less
}

// The degree of p, with zeros behind it.
fn degree_key(inst: &Instance, p: &Point) -> [u64; ROW_LIMIT]
    requires { IsSmallPoint inst.now p.now }
    ensures { result ≡ key_of inst.now p.now }
{
    let mut key = [0u64; ROW_LIMIT];
    let rows = inst.rows();
    inst.degree_into(p, &mut key[..rows]);
    key
}
