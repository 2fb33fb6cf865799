//! Calls are made again and again, each time with other memory left.
use super::short::{SIZES, Short};
use super::supply::{Left, Supply};
use super::{Calls, make};
use std::alloc::AllocGlobal;
use std::process::Abort;
use std::sync::Wait;
use std::test::Fail;
use std::thread;
use std::thread::Threads;

/// How many bytes are left in a row at a turn: 32 more at each, since no allocation takes less, and
/// twice as many at each of the last ones, which have room for the stacks of threads.
fn row_at(turn: usize) -> usize {
    if turn < SMALL_TURNS {
        32 * turn
    } else {
        (32 * SMALL_TURNS) << (turn - SMALL_TURNS).min(13)
    }
}

const SMALL_TURNS: usize = 2048;

const TURNS: usize = SMALL_TURNS + 14;

/// How many blocks are left for requests of the next size.
const SPARE: [usize; 2] = [1, 4];

/// Makes the calls with ample memory, and then with little memory from each of them on, in each
/// way.
pub(super) fn refuse_each<H: AllocGlobal + Threads + Wait + Abort + Sync>(
    rt: &H,
    calls: Calls,
) -> Result<(), Fail> {
    let mut ample = Supply::ample(rt.alloc());
    let refusals = refuse_from_deeper(rt, calls, &mut ample)?;
    ample.restore();
    assert!(rt; refusals == 0, "an allocation is refused with ample memory");
    start_a_thread(rt)?;
    let mut supply = Supply::scarce(rt.alloc())?;
    let refusals = refuse_from_each(rt, calls, &mut supply)?;
    supply.restore();
    assert!(rt; refusals > 0, "no allocation is refused");
    Ok(())
}

/// No test makes more calls, one after another.
const MOST_CALLS: usize = 16;

/// How many bytes of stack a refused call may take beyond one that is not.
const DEEPER: usize = 16_384;

/// The same from further down the stack, which then has grown as far as refused calls need.
#[inline(never)]
fn refuse_from_deeper<H: AllocGlobal + Threads + Wait + Abort + Sync>(
    rt: &H,
    calls: Calls,
    supply: &mut Supply,
) -> Result<usize, Fail> {
    let mut room = [0u8; DEEPER];
    let refusals = refuse_from_each(rt, calls, supply)?;
    room[refusals.min(DEEPER - 1)] = 1;
    assert!(rt;
        room[supply.calls().min(DEEPER - 1)] <= 1,
        "the room is in use"
    );
    Ok(refusals)
}

/// In how many turns an allocation was refused.
fn refuse_from_each<H: AllocGlobal + Threads + Wait + Abort + Sync>(
    rt: &H,
    calls: Calls,
    supply: &mut Supply,
) -> Result<usize, Fail> {
    let mut refusals = 0usize;
    for call in 0..MOST_CALLS {
        refusals = refusals.saturating_add(refuse_rows(rt, calls, supply, call)?);
        let made = supply.calls();
        refusals = refusals.saturating_add(refuse_sizes(rt, calls, supply, call)?);
        if call + 1 >= made {
            break;
        }
    }
    Ok(refusals)
}

/// Before the first thread the C library does not look for freed blocks of a size when a block is
/// to grow; afterwards it does.
fn start_a_thread<H: Threads>(rt: &H) -> Result<(), Fail> {
    match thread::spawn(rt, || 0u32) {
        Ok(started) => {
            started.join(rt);
            Ok(())
        }
        Err(_) => Err("no thread".into()),
    }
}

/// At first nothing is left, and then a little more at each turn, until no allocation is refused.
fn refuse_rows<H: AllocGlobal + Threads + Wait + Abort + Sync>(
    rt: &H,
    calls: Calls,
    supply: &mut Supply,
    call: usize,
) -> Result<usize, Fail> {
    for turn in 0..TURNS {
        supply.begin_turn(Left::Row(row_at(turn)), call);
        make(rt, calls, supply)?;
        if !supply.was_refused() {
            return Ok(turn);
        }
    }
    Err("refused at every turn".into())
}

/// Whether words are read from a call on.
fn reads_words(calls: Calls, call: usize) -> bool {
    match calls {
        Calls::Words => true,
        Calls::Of(_) => call == 0,
        _ => false,
    }
}

/// Each size of blocks in turn is short.
fn refuse_sizes<H: AllocGlobal + Threads + Wait + Abort + Sync>(
    rt: &H,
    calls: Calls,
    supply: &mut Supply,
    call: usize,
) -> Result<usize, Fail> {
    let mut refusals = 0usize;
    for number in 0..SIZES - 1 {
        for spare in SPARE {
            let short = Short {
                number,
                blocks: 0,
                spare,
                has_long: reads_words(calls, call),
            };
            let turns = refuse_size(rt, calls, supply, call, short)?;
            refusals = refusals.saturating_add(turns);
            if turns == 0 || turns == most_blocks(number) {
                break;
            }
        }
    }
    Ok(refusals)
}

/// How many blocks of a size are tried at most: more are asked for of the two smallest ones.
fn most_blocks(number: usize) -> usize {
    if number < 2 { 48 } else { 12 }
}

/// One block more of the size that is short at each turn, until no allocation is refused.
fn refuse_size<H: AllocGlobal + Threads + Wait + Abort + Sync>(
    rt: &H,
    calls: Calls,
    supply: &mut Supply,
    call: usize,
    short: Short,
) -> Result<usize, Fail> {
    let most = most_blocks(short.number);
    for blocks in 0..most {
        supply.begin_turn(Left::Blocks(Short { blocks, ..short }), call);
        make(rt, calls, supply)?;
        if !supply.was_refused() {
            return Ok(blocks);
        }
    }
    Ok(most)
}
