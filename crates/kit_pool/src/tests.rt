ghost use Rattle.std.specs.Prelude.{◌≡◌, IfOk};
ghost use Rattle.kit_pool.specs.PoolViews.{IsNewSeatOf, buffers_of, federates_of};

use super::*;
use std::alloc::{AllocError, Global};
use std::test::Fail;

/// A new pool of three with a buffer each, and the seats.
fn pool_of_three(alloc: Global) -> Result<(Pool, PoolSeat, PoolSeat, PoolSeat), AllocError>
    ensures federates { IfOk result (λ r. federates_of r.0 ≡ 3) }
    ensures buffers { IfOk result (λ r. buffers_of r.0 ≡ 1) }
    ensures first { IfOk result (λ r. IsNewSeatOf r.0 0 r.1) }
    ensures second { IfOk result (λ r. IsNewSeatOf r.0 1 r.2) }
    ensures third { IfOk result (λ r. IsNewSeatOf r.0 2 r.3) }
{
    let (pool, mut seats) = Pool::lay(alloc, 3, 1)?;
    let (Some(third), Some(second), Some(first)) = (seats.pop(), seats.pop(), seats.pop()) else {
        unreachable!()
    };
    Ok((pool, first, second, third))
}

#[test]
fn a_buffer_is_free_once_all_have_released_it(rt: HostRuntime) -> Result<(), Fail> {
    let (pool, mut first, mut second, mut third) = pool_of_three(rt.alloc())?;
    assert!(rt; first.look_free(&pool, 0));
    first.write_part(&pool, 0, 0, 1);
    first.write_part(&pool, 0, 1, 2);
    first.charge(&pool, 0, 6);
    first.post(&pool, 0, 1);
    first.post(&pool, 0, 2);
    let mail = second.collect(&pool, 0, 0);
    assert!(rt; mail == 1);
    second.release(&pool, 0, 0);
    assert!(rt; !first.look_free(&pool, 0));
    let mail = third.collect(&pool, 0, 0);
    assert!(rt; mail == 1);
    third.release(&pool, 0, 0);
    assert!(rt; first.look_free(&pool, 0));
    Ok(())
}

#[test]
fn a_seat_that_took_another_in_goes_on(rt: HostRuntime) -> Result<(), Fail> {
    let (pool, mut first, second, third) = pool_of_three(rt.alloc())?;
    assert!(rt; first.look_free(&pool, 0));
    first.join(&pool, third);
    first.join(&pool, second);
    assert!(rt; first.look_free(&pool, 0));
    assert_eq!(rt; first.collect(&pool, 2, 0), 0);
    Ok(())
}
