//! Tests of `pl_board::board` in one thread.
ghost use Rattle.std.specs.Prelude.{◌≡◌};
ghost use Rattle.pl_board.specs.Seats.{IsBlankOf};
ghost use Rattle.pl_board.specs.States.{fresh};

use crate::rows::{Counts, Rows, board_of, counts_of};
use pl_board::board::Board;
use pl_board::books::Blanks;
use pl_board::piece::Posted;
use pl_board::state::BoardState;
use pl_board::task::Task;
use pl_frame::error::PolarsResult;
use std::alloc::Global;
use std::marker::Brand;
use std::sync::Wait;
use std::sync::ledger::Ledger;
use std::test::Fail;

// One of two seats posts a piece of another board.
fn one_seat_strays<T: Task, P: Ledger, S: Ledger, R: Ledger, C: Ledger, W: Wait>(
    rt: &W,
    alloc: Global,
    state: BoardState<'_, Rows>,
    blanks: Blanks,
) -> PolarsResult<Option<Counts>>
    requires fresh { state ≡ fresh state.setup }
    requires task { state.setup ≡ T.setup }
    requires handed_out { IsBlankOf blanks.handed_out T.name T.parts 2 }
    requires posts { IsBlankOf blanks.posts P.name P.parts 2 }
    requires seats { IsBlankOf blanks.seats S.name S.parts 2 }
    requires running { IsBlankOf blanks.running R.name R.parts 2 }
    requires clean { IsBlankOf blanks.clean C.name C.parts 2 }
{
    let mut other = board_of(alloc, b"1\n", None)?;
    let Some(piece) = other.take()? else {
        return Ok(None);
    };
    let (board, mut seats) = Board::<Rows, T, P, S, R, C>::new(alloc, state, 2, blanks)?;
    let stored = board.post(rt, &mut seats[0], Posted::new(piece, Rows(1)));
    let counts = counts_of(&board.finish(seats));
    Ok(if stored { None } else { Some(counts) })
}

fn counts_where_one_seat_strays<W: Wait>(rt: &W, alloc: Global) -> PolarsResult<Option<Counts>> {
    let state = board_of(alloc, b"1\n2\n", None)?;
    one_seat_strays::<Brand, Brand, Brand, Brand, Brand, W>(rt, alloc, state, Blanks::new(2))
}

#[test]
fn a_result_of_another_board_strays(rt: HostRuntime) -> Result<(), Fail> {
    let counts = counts_where_one_seat_strays(&rt, rt.alloc())?;
    assert!(rt; counts == Some((0, 0, 2, 2, 1, Some(0))));
    Ok(())
}
