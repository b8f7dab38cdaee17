//! The longest list of moves.
ghost use Rattle.std.specs.Prelude.{◌≡◌, ◌≤◌, length};
ghost use Rattle.ct_vectors.specs.declared.limits.TheConstants.{MOVE_LIMIT};
ghost use Rattle.std.specs.Arc.{arc_value};
ghost use Rattle.ct_instance.specs.Instance.{IsPoint};
ghost use Rattle.ct_walk.specs.Moves.{IsSmallMove};

use ct_instance::Instance;
use ct_point::Point;
use ct_vectors::limits::MOVE_LIMIT;
use ct_walk::{Move, Moves};
use std::alloc::Global;
use std::process::Abort;
use std::sync::Arc;

fn point(rt: &impl Abort, alloc: Global, inst: &Instance, x: u64, y: u64) -> Point
    ensures { IsPoint inst.now result }
{
    assert!(rt; inst.rows() == 1 && inst.columns() == 1);
    Point::from_slice(alloc, &[x, y]).expect(rt, "a point")
}

// Takes k artificials away and adds k of the column.
fn exchange(rt: &impl Abort, alloc: Global, inst: &Instance, k: u64) -> Move
    requires { k ≤ MOVE_LIMIT }
    ensures { IsSmallMove inst.now result }
{
    assert!(rt; inst.rows() == 1 && inst.columns() == 1);
    let head = Point::from_slice(alloc, &[0, k]).expect(rt, "a point");
    let tail = Point::from_slice(alloc, &[k, 0]).expect(rt, "a point");
    Move::new(inst, MOVE_LIMIT as u64, head, tail).expect(rt, "a move")
}

// The exchanges of count, then of one less, and so on: the first that divides y artificials is that of y itself.
fn falling(rt: &impl Abort, alloc: Global, inst: &Arc<Instance>, count: u64) -> Moves
    requires { count ≤ MOVE_LIMIT }
    ensures instance { result.instance ≡ arc_value inst.now }
    ensures count { length result.moves ≡ count }
{
    let mut more = Vec::new(alloc);
    for k in 0..count {
        more.push(exchange(rt, alloc, inst, count - k))
            .expect(rt, "room");
    }
    let none = Moves::new(alloc, Arc::try_clone(inst).expect(rt, "room"));
    none.extended(alloc, more).expect(rt, "room")
}

#[test]
fn the_longest_list_is_made_and_looked_up(rt: HostRuntime) {
    let alloc = rt.alloc();
    let inst = Instance::new(alloc, 1, 1, &[1], &[1]).expect(&rt, "an instance");
    let inst = Arc::new(alloc, inst).expect(&rt, "room");
    let most = MOVE_LIMIT as u64;
    let moves = falling(&rt, alloc, &inst, most);
    for y in [1, 128, 129, 130, most - 128, most - 127, most] {
        let p = point(&rt, alloc, &inst, 0, y);
        assert!(rt; moves.first_dividing(&p) == Some((most - y) as u32 + 1));
    }
}
