ghost use Rattle.pool.specs.Owned.{IsOf};

use crate::tests::wanted::{holds, same};
use crate::{Job, Manner, share_out};
use buffer_pool::{PoolError, Stash};
use pool::{Pool, PoolPass};
use std::alloc::Global;
use std::process::Abort;
use std::sync::Wait;
use std::test::Fail;
use std::thread::Threads;

// Empties a pool, and returns the sorted numbers of the buffers. They stay out.
fn drained<R: Wait>(
    rt: &R,
    alloc: Global,
    pool: &Pool,
    pass: &mut PoolPass,
) -> Result<Vec<u16>, Fail>
    requires pool { IsOf pool.now pass.old }
{
    let mut numbers = Vec::new(alloc);
    for _turn in 0..65_536 {
        match pool.take(rt, pass) {
            Ok(buf) => numbers.push(buf.number())?,
            Err(_) => break,
        }
    }
    numbers.sort()?;
    Ok(numbers)
}

// The number of the next buffer. It stays out.
fn next_number<R: Wait>(rt: &R, pool: &Pool, pass: &mut PoolPass) -> Result<u16, PoolError>
    requires pool { IsOf pool.now pass.old }
    ensures pool { IsOf pool.now pass.new }
{
    let buf = pool.take(rt, pass)?;
    Ok(buf.number())
}

// Whether the next three buffers have the numbers 0 to 2. They stay out.
fn take_three<R: Wait>(rt: &R, pool: &Pool, pass: &mut PoolPass) -> bool
    requires pool { IsOf pool.now pass.old }
    ensures pool { IsOf pool.now pass.new }
{
    for want in 0..3 {
        if next_number(rt, pool, pass) != Ok(want) {
            return false;
        }
    }
    true
}

// The number of the next buffer from a stash.
fn number_out_of(stash: &mut Stash) -> Option<u16> {
    let buf = stash.take()?;
    Some(buf.number())
}

// The stash has the numbers from 15 down to this one.
fn has_down_to<R: Abort>(rt: &R, stash: &mut Stash, least: u16) {
    for want in (least..16).rev() {
        same(rt, number_out_of(stash), Some(want));
    }
}

// From a pool that has its buffers from 3 on, the first pass takes all and gives one back, which the second takes.
fn give_one<R: Wait + Abort>(
    rt: &R,
    pool: &Pool,
    first: &mut PoolPass,
    second: &mut PoolPass,
    stash: &mut Stash,
) -> Result<(), Fail>
    requires first { IsOf pool.now first.old }
    requires second { IsOf pool.now second.old }
{
    let third = pool.take(rt, first)?;
    same(rt, third.number(), 3);
    let moved = pool.refill(rt, first, stash, 256);
    same(rt, moved, 12);
    same(rt, next_number(rt, pool, second), Err(PoolError::Empty));
    pool.give(rt, first, third);
    same(rt, next_number(rt, pool, second), Ok(3));
    Ok(())
}

// Then the stash has the others.
fn share<R: Wait + Abort>(
    rt: &R,
    pool: &Pool,
    first: &mut PoolPass,
    second: &mut PoolPass,
) -> Result<(), Fail>
    requires first { IsOf pool.now first.old }
    requires second { IsOf pool.now second.old }
{
    holds(rt, take_three(rt, pool, first));
    let mut stash = Stash::new();
    give_one(rt, pool, first, second, &mut stash)?;
    has_down_to(rt, &mut stash, 4);
    Ok(())
}

#[test]
fn a_second_pass_takes_what_the_first_gives(rt: HostRuntime) -> Result<(), Fail> {
    let (pool, mut first) = Pool::new(&rt, rt.alloc(), 16)?;
    let mut second = first.split(&pool, 1);
    share(&rt, &pool, &mut first, &mut second)
}

// A stash takes all 16 buffers of a pool, and then none.
fn fill<R: Wait + Abort>(rt: &R, pool: &Pool, pass: &mut PoolPass)
    requires { IsOf pool.now pass.old }
{
    let mut stash = Stash::new();
    same(rt, pool.refill(rt, pass, &mut stash, 20), 16);
    same(rt, pool.refill(rt, pass, &mut stash, 20), 0);
    has_down_to(rt, &mut stash, 0);
}

#[test]
fn a_stash_is_refilled_in_the_order_of_the_pool(rt: HostRuntime) -> Result<(), Fail> {
    let (pool, mut pass) = Pool::new(&rt, rt.alloc(), 16)?;
    fill(&rt, &pool, &mut pass);
    Ok(())
}

// The refusal of a pool of `count` buffers.
fn refusal_of<R: Wait>(rt: &R, alloc: Global, count: u32) -> Option<PoolError> {
    Pool::new(rt, alloc, count).err()
}

// The number of that refusal.
fn number_of<R: Wait>(rt: &R, alloc: Global, count: u32) -> Option<u8> {
    Some(refusal_of(rt, alloc, count)?.number())
}

#[test]
fn only_lawful_counts_are_made(rt: HostRuntime) {
    for (count, want) in [
        (0, Some(34)),
        (15, Some(34)),
        (16, None),
        (65_536, None),
        (65_537, Some(34)),
        (u32::MAX, Some(34)),
    ] {
        same(
            &rt,
            (count, number_of(&rt, rt.alloc(), count)),
            (count, want),
        );
    }
}

// Also passes if the first or a later allocation is refused, as by `rt try --test --fail-alloc`.
#[test]
fn without_memory_no_pool_is_made(rt: HostRuntime) {
    let refusal = refusal_of(&rt, rt.alloc(), 16);
    holds(&rt, matches!(refusal, None | Some(PoolError::Memory)));
}

// The numbers are those below `count`.
fn are_all<R: Abort>(rt: &R, numbers: &[u16], count: u32) {
    same(rt, numbers.len(), count as usize);
    let mut want = 0u32;
    for number in numbers {
        same(rt, u32::from(*number), want);
        want = want.wrapping_add(1);
    }
}

// A pool of `count` buffers has each of them again after four threads worked on it.
fn races<R: Threads + Wait + Sync + Abort>(rt: &R, alloc: Global, count: u32) -> Result<(), Fail> {
    let (pool, pass) = Pool::new(rt, alloc, count)?;
    let job = Job {
        manner: Manner::Mixed,
        turns: 10_000,
    };
    let mut pass = share_out(rt, &pool, pass, job);
    let numbers = drained(rt, alloc, &pool, &mut pass)?;
    are_all(rt, &numbers, count);
    Ok(())
}

#[test]
fn pool_race(rt: HostRuntime) -> Result<(), Fail> {
    for count in [16, 64, 200] {
        races(&rt, rt.alloc(), count)?;
    }
    Ok(())
}
