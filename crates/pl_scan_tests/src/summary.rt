//! Tests of `pl_scan::summary`.

use pl_scan::closes::closes;
use pl_scan::comment::CommentPrefix;
use pl_scan::dialect::dialect_ok;
use pl_scan::line_cuts::line_cuts;
use pl_scan::summary::{LineState, PieceSummary, ends_line, summary};
use std::test::Fail;

const TEXT: &[u8] = b"x\"y\n\"c\nd\"\n";

fn of_piece(piece: &[u8], prefix: Option<&CommentPrefix>) -> Option<PieceSummary> {
    if !dialect_ok(b',', Some(b'"'), b'\n', prefix) {
        return None;
    }
    if ends_line(piece, b'\n') {
        Some(summary(piece, b',', Some(b'"'), b'\n', prefix))
    } else {
        None
    }
}

fn told(from_start: LineState, from_open: LineState) -> Option<PieceSummary> {
    Some(PieceSummary {
        from_start,
        from_open,
    })
}

#[test]
fn states_and_ranges_of_pieces_of_any_size(rt: HostRuntime) -> Result<(), Fail> {
    let start = LineState::Start;
    let open = LineState::Open;
    for (size, ends, states) in [
        (1, [4, 7, 10].as_slice(), [start, start, open].as_slice()),
        (4, &[4, 10], &[start, start]),
        (7, &[7, 10], &[start, open]),
    ] {
        let cuts = line_cuts(rt.alloc(), TEXT, size, b'\n')?;
        assert!(rt; cuts.as_slice() == ends);
        let mut state = start;
        let mut from = 0;
        for (i, &end) in cuts.iter().enumerate() {
            assert!(rt; states.get(i) == Some(&state));
            if let Some(piece) = TEXT.get(from..end) {
                if let Some(summary) = of_piece(piece, None) {
                    state = summary.behind(state);
                }
            }
            from = end;
        }
    }
    Ok(())
}

#[test]
fn an_open_field_is_closed_by_the_next_quote(rt: HostRuntime) {
    let turned = of_piece(b"\"c\n", None);
    assert!(rt; turned == told(LineState::Open, LineState::Start));
    if let Some(turned) = turned {
        let both = Some(turned.then(&turned));
        assert!(rt; both == told(LineState::Start, LineState::Open));
    }
}

#[test]
fn what_a_quote_means_depends_on_where_it_stands(rt: HostRuntime) {
    let prefix = CommentPrefix::new_single(b'#');
    for (piece, from_start, from_open) in [
        (b"#\"\n".as_slice(), LineState::Start, LineState::Start),
        (b"1\n#\"\n2\n", LineState::Start, LineState::Start),
        (b"a\",\"b\n", LineState::Open, LineState::Open),
        (b"\"a\"b\n", LineState::Start, LineState::Open),
        (b"\"a\"\r\n", LineState::Start, LineState::Open),
        (b"1\n", LineState::Start, LineState::Open),
    ] {
        assert!(rt; of_piece(piece, Some(&prefix)) == told(from_start, from_open));
    }
}

#[test]
fn texts_of_many_quotes_and_marks_end_as_closes_tells(rt: HostRuntime) {
    let mut seed = 1u64;
    for turn in 0..200usize {
        let len = 64 + turn % 137;
        let mut text = [b'\n'; 200];
        for place in 0..len - 1 {
            seed = seed
                .wrapping_mul(6364136223846793005)
                .wrapping_add(1442695040888963407);
            text[place] = b"a,\"\n"[(seed >> 62) as usize];
        }
        let piece = &text[..len];
        let state = match closes(piece, b',', Some(b'"'), b'\n', None) {
            true => LineState::Start,
            false => LineState::Open,
        };
        let told = of_piece(piece, None);
        assert!(rt;
            matches!(told, Some(summary) if summary.from_start == state),
            "of {piece:?}"
        );
    }
}
