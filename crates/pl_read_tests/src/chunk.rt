//! Tests of `pl_read::chunk`: a range of an input on its own.
ghost use Rattle.std.specs.Prelude.{◌≡◌, ◌<◌, ◌≤◌, length};

use crate::given::{add, name};
use pl_board::piece::{Done, Posted};
use pl_board::ranges::cut_into_ranges;
use pl_board::state::BoardState;
use pl_cells::init_buffers::first_unreadable;
use pl_cells::null_values::NullValuesCompiled;
use pl_frame::column::Value;
use pl_frame::data_type::DataType;
use pl_frame::frame::DataFrame;
use pl_frame::schema::Schema;
use pl_options::parse_options::CsvParseOptions;
use pl_read::chunk::{ChunkDone, ChunkEnd, read_chunk};
use pl_scan::dialect::Dialect;
use std::alloc::Global;
use std::process::Abort;
use std::sync::Wait;
use std::thread::Threads;

// What is read of a range of an input of one column of strings, in which `NA` is null.
fn read_between(
    rt: &impl Abort,
    alloc: Global,
    bytes: &[u8],
    begin: usize,
    stop: usize,
    last: bool,
) -> ChunkDone
    requires begin { begin ≤ stop }
    requires stop { stop ≤ length bytes.now }
{
    let mut schema = Schema::new(alloc);
    add(rt, alloc, &mut schema, "a", DataType::String);
    let options = CsvParseOptions::new();
    let null_values = NullValuesCompiled::AllColumnsSingle(name(rt, alloc, "NA"));
    assert!(rt; options.has_dialect() && schema.len() == 1);
    assert!(rt; first_unreadable(&[0], &schema).is_none());
    let done = read_chunk(
        alloc,
        bytes,
        &options,
        &schema,
        false,
        &[0],
        begin,
        Some(&null_values),
        stop,
        last,
    );
    drop(options);
    drop(null_values);
    done.expect(rt, "a chunk")
}

#[test]
fn a_record_that_may_go_on_is_left(rt: HostRuntime) {
    let done = read_between(&rt, rt.alloc(), b"x\nNA\n\"c\n", 0, 8, false);
    assert!(rt; done.end == ChunkEnd::Open);
    match done.frame.columns() {
        [column] => {
            assert!(rt; column.len() == 2 && column.get(1) == Value::Null);
        }
        _ => panic!(rt; "one column is read"),
    }
}

// Two records, the second of which has a line end that a count of quotes takes for its end.
const MISLEADING: &[u8; 10] = b"x\"y\n\"c\nd\"\n";

// What the board is told of a chunk.
#[derive(Drop)]
struct Told {
    rows: usize,
    closed: bool,
}

impl Done for Told {
    ghost use Rattle.pl_board.specs.declared.event.Mark.{Mark};
    ghost use Rattle.std.specs.Prelude.{false};

    ghost holds_for = { λ _ _. Unit {0} };

    ghost mark = { λ told. record { rows = told.rows; closed = told.closed; stops = false } };

    fn rows(&self) -> usize {
        self.rows
    }

    fn closed(&self) -> bool {
        self.closed
    }

    fn stops(&self) -> bool {
        false
    }
}

// The rows that were read of the text and the bytes of the ranges that were read for them.
#[derive(Clone, Copy)]
struct Tally {
    rows: usize,
    bytes: usize,
}

impl Tally {
    // Counts a range. Its rows are to be the next ones of the text.
    fn count(&mut self, rt: &impl Abort, frame: &DataFrame, bytes: usize) {
        let wanted = ["x\"y", "c\nd"];
        let [column] = frame.columns() else {
            panic!(rt; "one column is read");
        };
        for row in 0..column.len() {
            let at = self.rows.saturating_add(row);
            assert!(rt; at < 2 && column.get(row) == Value::Text(wanted[at]));
        }
        self.rows = self.rows.saturating_add(column.len());
        self.bytes = self.bytes.saturating_add(bytes);
    }
}

// The text, read by chunks: the ranges that a board hands out, up to the first that does not close, and the rest.
fn read_in_chunks<W: Abort + Threads + Wait + Sync>(
    rt: &W,
    alloc: Global,
    piece_size: usize,
) -> Tally
    requires { 0 < piece_size }
{
    let dialect = Dialect {
        separator: b',',
        quote_char: Some(b'"'),
        eol_char: b'\n',
        comment_prefix: None,
    };
    assert!(rt; dialect.is_valid());
    let ends = cut_into_ranges(rt, alloc, MISLEADING, &dialect, piece_size, 2).expect(rt, "ends");
    let mut board: BoardState<'_, Told> = BoardState::new(MISLEADING, ends, None);
    let mut tally = Tally { rows: 0, bytes: 0 };
    let mut end = 0;
    for _ in 0..MISLEADING.len() {
        let Some(piece) = board.take().expect(rt, "memory") else {
            break;
        };
        let (from, to) = (piece.from(), piece.to());
        assert!(rt; from == end && from <= to && to <= MISLEADING.len());
        let chunk = read_between(rt, alloc, MISLEADING, from, to, false);
        let closed = chunk.end == ChunkEnd::Closed;
        let rows = chunk.frame.height();
        assert!(rt; board.post(Posted::new(piece, Told { rows, closed })));
        if !closed {
            tally.bytes = tally.bytes.saturating_add(to - from);
            break;
        }
        tally.count(rt, &chunk.frame, to - from);
        end = to;
    }
    assert!(rt; end <= MISLEADING.len());
    let rest = read_between(rt, alloc, MISLEADING, end, MISLEADING.len(), true);
    assert!(rt; rest.end == ChunkEnd::Closed);
    tally.count(rt, &rest.frame, MISLEADING.len() - end);
    tally
}

#[test]
fn each_byte_of_sound_ranges_is_read_once(rt: HostRuntime) {
    for piece_size in [1, 4, 7, 64] {
        let tally = read_in_chunks(&rt, rt.alloc(), piece_size);
        assert!(rt; tally.rows == 2 && tally.bytes == 10);
    }
}
