//! A worked example of a pool. What it does with bytes is shown by the cases of long messages.
use crate::shown::same;
use block_pool::{NoRoom, Pool};

#[test]
fn a_block_is_set_aside(rt: HostRuntime) {
    let mut pool = Pool::make(rt.alloc(), &[1]).expect(&rt, "there is memory");
    let answers = [pool.set_aside(0), pool.set_aside(0)];
    same(&rt, &answers, &[Ok(()), Err(NoRoom { need: 1, spare: 0 })]);
}
