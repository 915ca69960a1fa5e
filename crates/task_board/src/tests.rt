//! The answers of a board with two seats, typed from the rules.
use super::*;
use base_core::NoMemory;
use std::alloc::AllocGlobal;
use std::process::Abort;
use std::test::Fail;

#[derive(Clone, Copy)]
enum Call {
    Post(u64),
    Claim(u32),
    Settle(u32, u64),
    Lose(u32, u64),
    Withdraw(u64),
    Close,
}

/// A number that isn't done, and the seat that holds it.
type Left = (u64, Option<u32>);

/// What is called; the number that is posted, claimed or kept; then the least that waits and the least that is left.
type Step = (Call, Option<u64>, Option<u64>, Option<Left>);

const STEPS: [Step; 22] = [
    (Call::Claim(1), None, None, None),
    (Call::Post(5), Some(0), Some(0), Some((0, None))),
    (Call::Post(9), Some(1), Some(0), Some((0, None))),
    (Call::Post(7), Some(2), Some(0), Some((0, None))),
    (Call::Claim(1), Some(0), Some(1), Some((0, Some(1)))),
    (Call::Claim(2), Some(1), Some(2), Some((0, Some(1)))),
    // Another seat's result, one of a number that waits, and one of no row.
    (Call::Settle(2, 0), None, Some(2), Some((0, Some(1)))),
    (Call::Settle(1, 2), None, Some(2), Some((0, Some(1)))),
    (Call::Settle(1, 8), None, Some(2), Some((0, Some(1)))),
    // A lost task goes back to its place, and is the next that is claimed.
    (Call::Lose(2, 0), None, Some(2), Some((0, Some(1)))),
    (Call::Lose(1, 0), None, Some(0), Some((0, None))),
    (Call::Claim(2), Some(0), Some(2), Some((0, Some(2)))),
    (Call::Settle(2, 0), Some(0), Some(2), Some((1, Some(2)))),
    (Call::Settle(2, 0), None, Some(2), Some((1, Some(2)))),
    // The block of a held row goes and comes again; the late result of its first row is dropped.
    (Call::Withdraw(9), None, Some(2), Some((2, None))),
    (Call::Post(9), Some(3), Some(2), Some((2, None))),
    (Call::Settle(2, 1), None, Some(2), Some((2, None))),
    (Call::Withdraw(7), None, Some(3), Some((3, None))),
    (Call::Claim(1), Some(3), None, Some((3, Some(1)))),
    (Call::Settle(1, 3), Some(3), None, None),
    (Call::Close, None, None, None),
    (Call::Settle(1, 3), None, None, None),
];

fn answer(
    rt: &(impl Abort + AllocGlobal),
    board: &mut Board<u64, u64>,
    call: Call,
) -> Result<Option<u64>, NoMemory> {
    match call {
        Call::Post(block) => {
            assert!(rt; !board.has_row(block) && board.posted() < 1000);
            return Ok(Some(board.post(block, block)?));
        }
        Call::Claim(seat) => return Ok(board.claim(seat)),
        Call::Settle(seat, number) => {
            let settled = board.settle(seat, number, number);
            return Ok((settled == Settled::Kept).then_some(number));
        }
        Call::Lose(seat, number) => board.lose(seat, number),
        Call::Withdraw(block) => board.withdraw(block),
        Call::Close => board.close(),
    }
    Ok(None)
}

#[test]
fn two_seats_share_the_rows(rt: HostRuntime) -> Result<(), Fail> {
    let mut board: Board<u64, u64> = Board::new(rt.alloc());
    board.reserve(2)?;
    for (call, expected, waiting, left) in STEPS {
        assert_eq!(rt; answer(&rt, &mut board, call)?, expected);
        assert_eq!(rt; board.least_waiting(), waiting);
        assert_eq!(rt; board.least_left(), left);
        assert_eq!(rt; board.all_done(), left.is_none());
    }
    Ok(())
}

#[test]
fn places_of_rows_that_went_are_used_again(rt: HostRuntime) -> Result<(), Fail> {
    let mut board: Board<u64, u64> = Board::new(rt.alloc());
    for number in 0..40 {
        assert_eq!(rt; answer(&rt, &mut board, Call::Post(number))?, Some(number));
        assert_eq!(rt; board.claim(1), Some(number));
        assert_eq!(rt; board.work(number).copied(), Some(number));
        if number % 2 == 0 {
            board.withdraw(number);
        } else {
            assert_eq!(rt;
                answer(&rt, &mut board, Call::Settle(1, number))?,
                Some(number)
            );
            assert_eq!(rt; board.result(number).copied(), Some(number));
        }
        assert_eq!(rt; board.has_row(number), number % 2 == 1);
        assert!(rt; board.all_done());
    }
    Ok(())
}
