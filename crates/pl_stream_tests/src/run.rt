//! Tests of `pl_stream::run`.

use crate::words::words_of;
use pl_frame::sink::MemSink;
use pl_frame::source::MemSource;
use pl_stream::run::run_stream;
use std::alloc::Global;
use std::process::Abort;

const SALES: &[u8] =
    b"# export of March\nid,day,shop,amount,note\n1,2024-02-29,Oslo,12.50,\"fine, thanks\"\n2,2024-03-01,NA,-3,\n3,NA,Bergen,n/a,\"say \"\"hi\"\"\"\n4,2024-03-02,-,7,ok\n";

const SALES_TEXT: &[u8] =
    b"id,day,shop,amount,note\n1,2024-02-29,Oslo,12.50,\"fine, thanks\"\n2,2024-03-01,,-3,\n3,,Bergen,,\"say \"\"hi\"\"\"\n4,2024-03-02,,7,ok\n";

// Words, with blanks between them, an input, and what a run over it has to answer.
struct Row {
    words: &'static str,
    input: &'static [u8],
    status: u8,
    out: &'static [u8],
    err: &'static [u8],
}

const ROWS: [Row; 15] = [
    // One text, however the input is cut.
    Row {
        words: "--comment # --nulls NA,n/a,- --schema id:int64,day:date,shop:string,amount:string,note:string --piece 1",
        input: SALES,
        status: 0,
        out: SALES_TEXT,
        err: b"",
    },
    Row {
        words: "--comment # --nulls NA,n/a,- --schema id:int64,day:date,shop:string,amount:string,note:string --piece 7",
        input: SALES,
        status: 0,
        out: SALES_TEXT,
        err: b"",
    },
    Row {
        words: "--comment # --nulls NA,n/a,- --schema id:int64,day:date,shop:string,amount:string,note:string --piece 262144",
        input: SALES,
        status: 0,
        out: SALES_TEXT,
        err: b"",
    },
    // A record that no line end follows; an input of no records; rows behind the limit, which nobody judges.
    Row {
        words: "--schema a:int64 --row-index n",
        input: b"a\n7\n8",
        status: 0,
        out: b"n,a\n0,7\n1,8\n",
        err: b"",
    },
    Row {
        words: "--schema a:int64",
        input: b"a\n",
        status: 0,
        out: b"a\n",
        err: b"",
    },
    Row {
        words: "--schema a:int64 --limit 1",
        input: b"a\n7\nx\n",
        status: 0,
        out: b"a\n7\n",
        err: b"",
    },
    // A fault comes after the text of the records before it.
    Row {
        words: "--schema a:int64 --piece 2",
        input: b"a\n7\nx\n",
        status: 24,
        out: b"a\n7\n",
        err: b"refusal 14 record 1 column 0 value\n",
    },
    Row {
        words: "--schema a:int64 --row-index n --row-offset 18446744073709551615 --piece 1",
        input: b"a\n7\n8\n",
        status: 25,
        out: b"n,a\n18446744073709551615,7\n",
        err: b"refusal 15 index\n",
    },
    Row {
        words: "--schema a:int64",
        input: b"\x1f\x8b\x08\x00",
        status: 14,
        out: b"",
        err: b"refusal 4 compressed\n",
    },
    // No schema, a column of categories, no column, words without a meaning, an option that may not have its value.
    Row {
        words: "--sep ;",
        input: b"a\n7\n",
        status: 30,
        out: b"",
        err: b"no schema\n",
    },
    Row {
        words: "--schema a:int64,b:category",
        input: b"a,b\n7,x\n",
        status: 31,
        out: b"",
        err: b"category column 1\n",
    },
    Row {
        words: "--schema a:int64 --projection=",
        input: b"a\n7\n",
        status: 2,
        out: b"",
        err: b"words\n",
    },
    Row {
        words: "--make 4",
        input: b"",
        status: 2,
        out: b"",
        err: b"words\n",
    },
    Row {
        words: "--schema a:int64 --piece 0",
        input: b"a\n7\n",
        status: 12,
        out: b"",
        err: b"refusal 2 option\n",
    },
    Row {
        words: "--schema a:int64 --out-quote xFF",
        input: b"a\n7\n",
        status: 13,
        out: b"",
        err: b"refusal 3 quote\n",
    },
];

// Whether a run over the input answers so.
fn is_answered(rt: &impl Abort, alloc: Global, row: &Row) -> bool {
    let words = words_of(rt, alloc, row.words);
    let mut source = MemSource::new(row.input);
    let mut out = MemSink::new(alloc);
    let mut err = MemSink::new(alloc);
    let status = run_stream(alloc, &words, &mut source, &mut out, &mut err);
    status == row.status && out.received() == row.out && err.received() == row.err
}

#[test]
fn each_row_is_answered(rt: HostRuntime) {
    for row in &ROWS {
        assert!(rt; is_answered(&rt, rt.alloc(), row));
    }
}
