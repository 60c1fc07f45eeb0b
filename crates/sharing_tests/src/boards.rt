//! A board of one file with generations 1 and 2.
use gen_board::Board;
use std::alloc::Global;
use std::test::Fail;
use test_files::{Checks, OneFile};
use tex_world::{NoMemory, TableWorld};

type OneBoard = Board<TableWorld<OneFile>>;

// boards and views can be sent to threads, and boards shared
fn is_shared<B: Send + Sync>(_board: &B) {}

fn is_sent<V: Send>(_view: &V) {}

// What three views see, call by call.
fn check_views(alloc: Global, checks: &mut Checks) -> Result<(), NoMemory> {
    let (board, mut v) = OneBoard::new(alloc, 1)?;
    is_shared(&board);
    is_sent(&v);
    checks.equal("v looks first", u64::from(board.look(&mut v, 0)), 0);
    let mut w = board.split(&mut v)?;
    checks.equal("v raises to 2", u64::from(board.raise(&mut v, 0, 2)), 2);
    checks.equal("w has not looked", u64::from(w.seen(0)), 0);
    checks.equal("w looks", u64::from(board.look(&mut w, 0)), 2);
    checks.equal("w raises to 1", u64::from(board.raise(&mut w, 0, 1)), 2);
    let x = board.split(&mut w)?;
    checks.equal("x was split from w", u64::from(x.seen(0)), 2);
    board.join(&mut v, x);
    checks.equal("v was joined with x", u64::from(v.seen(0)), 2);
    let fresh = board.split(&mut v)?;
    board.join(&mut w, fresh);
    checks.equal("w was joined with a view", u64::from(w.seen(0)), 2);
    Ok(())
}

#[test]
fn tells_the_newest_generation(rt: HostRuntime) -> Result<(), Fail> {
    let mut checks = Checks::new();
    checks.case("three views of one file");
    check_views(rt.alloc(), &mut checks)?;
    checks.result()
}
