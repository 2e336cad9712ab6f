//! What a strategy is told, and what the plain one answers.
use dual_value::{Duals, Path, PreparedBox};
use example_instances::ring;
use std::alloc::Global;
use std::test::Fail;
use strategy_port::{LaneOrder, Move, NoMemory, PlainStrategy, Scene, Strategy};

// Whether the plain strategy is done at once in the root's box of a ring, and wishes nothing.
fn is_done(alloc: Global) -> Result<bool, NoMemory> {
    let inst = ring(alloc)?;
    let order = LaneOrder::of(alloc, &inst)?;
    let path = Path::root(alloc);
    let boxed = PreparedBox::of(alloc, &inst, &path)?;
    let duals = Duals::zeros(alloc, &inst, 1)?;
    let scene = Scene {
        alloc,
        boxed: &boxed,
        order: &order,
        duals: &duals,
        bound: 0,
        slacks: &[],
        plan: None,
        cost: None,
        is_first: true,
    };
    PlainStrategy.enter(&scene);
    let is_done = matches!(PlainStrategy.next(&scene)?, Move::Done);
    Ok(is_done && PlainStrategy.wish(&scene).is_none())
}

#[test]
fn the_plain_strategy_proposes_nothing(rt: HostRuntime) -> Result<(), Fail> {
    assert!(rt; is_done(rt.alloc())?);
    Ok(())
}
