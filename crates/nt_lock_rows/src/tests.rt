//! Boards that workers filled, with the entries that must be there.

use crate::board::Board;
use crate::crowd::filled;
use std::test::Fail;

/// How many entries of this worker are on the board.
fn count_of(board: &Board, worker: u32) -> u64 {
    let mut count = 0u64;
    for made in &board.workers {
        if *made == worker {
            count = count.wrapping_add(1);
        }
    }
    count
}

/// The workers of the entries, the digit of the newest last.
fn workers_of(board: &Board) -> u64 {
    let mut line = 0u64;
    for made in &board.workers {
        line = line.wrapping_mul(10).wrapping_add(u64::from(*made));
    }
    line
}

/// One thread after another: how many workers, how many entries each, and the workers of the
/// entries that are left, and whether a turn was refused. There is room for five.
const ROWS: &[(u32, u64, u64, bool)] = &[
    (1, 0, 0, false),
    (1, 5, 11_111, false),
    (1, 6, 11_111, true),
    (3, 1, 123, false),
    (3, 2, 11_223, true),
    (3, 5, 11_111, true),
    (64, 1, 12_345, true),
];

#[test]
fn workers_take_turns(rt: HostRuntime) -> Result<(), Fail> {
    for (workers, count, left, failed) in ROWS {
        if *workers > 0 && *workers <= 64 {
            let board = filled(&rt, rt.alloc(), *workers, 1, *count).ok_or("no memory")?;
            assert!(rt; workers_of(&board) == *left && board.failed == *failed);
        }
    }
    Ok(())
}

#[test]
fn threads_take_turns(rt: HostRuntime) -> Result<(), Fail> {
    let board = filled(&rt, rt.alloc(), 2, 2, 2).ok_or("no memory")?;
    assert!(rt; board.workers.len() == 4 && !board.failed);
    assert!(rt; count_of(&board, 1) == 2 && count_of(&board, 2) == 2);
    let board = filled(&rt, rt.alloc(), 3, 3, 4).ok_or("no memory")?;
    assert!(rt; board.workers.len() == 5 && board.failed);
    Ok(())
}
