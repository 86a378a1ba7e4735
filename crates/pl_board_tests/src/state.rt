//! Tests of `pl_board::state`.
use crate::rows::{Rows, board_of};
use pl_board::piece::Posted;
use std::test::Fail;

#[test]
fn stops_where_the_front_has_rows_enough(rt: HostRuntime) -> Result<(), Fail> {
    let mut board = board_of(rt.alloc(), b"1\n2\n", Some(1))?;
    let Some(piece) = board.take()? else {
        return Err("a piece".into());
    };
    assert!(rt; board.awaits(&piece));
    assert!(rt; board.post(Posted::new(piece, Rows(1))));
    assert!(rt; board.take()?.is_none());
    let Some(posted) = board.result(0) else {
        return Err("a result".into());
    };
    assert!(rt; posted.piece().to() == 2 && posted.done().0 == 1);
    Ok(())
}
