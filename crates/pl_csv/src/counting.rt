//! How many rows the text at a path has.
ghost use Rattle.std.specs.Prelude.{◌≡◌, ◌↔◌, ◌≤◌, ℕ, List, true, false, None, Some, Ok, Err, if◌then◌else◌, OnOk, IfOk, IfErr, IsErrOf};
ghost use Rattle.pl_frame.specs.Causes.{Rose};
ghost use Rattle.pl_frame.specs.Dialect.{marks, IsDialect};
ghost use Rattle.pl_frame.specs.declared.error.PolarsError.TheVariants as error;
ghost use Rattle.pl_scan.specs.Comment.{prefix_of};
ghost use Rattle.pl_scan.specs.RowCount.{row_count};
ghost use Rattle.pl_frame.specs.Compression.{is_compressed};
ghost use Rattle.pl_read.specs.CsvReader.{AnswersUnlessFailed};
ghost use Rattle.pl_csv.specs.Counting.{CameWhole, HoldsSome, IsCountOf, no_dialect, compressed, counted, IsCountFault};

use crate::read_all::{LIMIT, ReadAllFault, read_all};
use pl_frame::compression::is_compressed;
use pl_frame::error::{ComputeFault, OpFault, PolarsError, PolarsResult};
use pl_frame::opener::Opener;
use pl_frame::read_all::BLOCK_SIZE;
use pl_frame::source::Source;
use pl_scan::comment::CommentPrefix;
use pl_scan::dialect::dialect_ok;
use pl_scan::row_counter::RowCounter;
use pl_scan::rows::count_rows_from_slice;
use std::alloc::Global;

// The most bytes that a mark of a compressed stream has.
const MARK_SIZE: usize = 4;

// What a count answers, where this many rows were counted.
fn unless_compressed(has_mark: bool, rows: usize) -> PolarsResult<usize>
    ensures { result ≡ if has_mark then Err compressed else Ok rows }
{
    if has_mark {
        Err(PolarsError::ComputeError(ComputeFault::Compressed))
    } else {
        Ok(rows)
    }
}

// What a count of the rows of all that is left of a source answers, under a dialect without comments. What came is not kept.
fn count_by_blocks<So: Source>(
    alloc: Global,
    source: &mut So,
    separator: u8,
    quote_char: Option<u8>,
    eol_char: u8,
    has_header: bool,
) -> Result<PolarsResult<usize>, ReadAllFault>
    requires { IsDialect (marks separator quote_char eol_char) None }
    ensures read { IfOk result (λ answer. CameWhole (So.left source.old) (So.left source.new) (λ bytes.
        answer ≡ counted has_header (marks separator quote_char eol_char) None bytes)) }
    ensures failed { IsErrOf result ReadAllFault.Source → Rose (So.faults source.old) (So.faults source.new) }
    ensures later { So.faults source.old ≤ So.faults source.new }
{
    let mut counter = RowCounter::new(separator, quote_char, eol_char);
    let mut front = Vec::new(alloc);
    let mut length = 0;
    let mut block = [0u8; BLOCK_SIZE];
    loop {
        let count = match source.read(&mut block) {
            Ok(count) => count,
            Err(_) => return Err(ReadAllFault::Source),
        };
        if count == 0 {
            let rows = counter.rows(has_header);
            return Ok(unless_compressed(is_compressed(&front), rows));
        }
        if count > LIMIT - length {
            return Err(ReadAllFault::TooLong);
        }
        let wanting = count.min(MARK_SIZE - front.len());
        if front.extend_from_slice(&block[..wanting]).is_err() {
            return Err(ReadAllFault::OutOfMemory);
        }
        counter.add(&block[..count]);
        length += count;
    }
}

// What a count of the rows of bytes answers under a dialect.
fn count_rows_of_bytes(
    bytes: &[u8],
    separator: u8,
    quote_char: Option<u8>,
    comment_prefix: Option<&CommentPrefix>,
    eol_char: u8,
    has_header: bool,
) -> PolarsResult<usize>
    requires { IsDialect (marks separator quote_char eol_char) (prefix_of comment_prefix) }
    ensures { result ≡ counted has_header (marks separator quote_char eol_char) (prefix_of comment_prefix.entry) bytes.now }
{
    if is_compressed(bytes) {
        return Err(PolarsError::ComputeError(ComputeFault::Compressed));
    }
    count_rows_from_slice(
        bytes,
        separator,
        quote_char,
        comment_prefix,
        eol_char,
        has_header,
    )
}

// Reads all that is left of a source, and keeps nothing of it.
fn drain<So: Source>(source: &mut So) -> Result<(), ReadAllFault>
    ensures read { OnOk result (CameWhole (So.left source.old) (So.left source.new) (λ bytes. Unit {0})) }
    ensures failed { IsErrOf result ReadAllFault.Source → Rose (So.faults source.old) (So.faults source.new) }
    ensures later { So.faults source.old ≤ So.faults source.new }
{
    let mut length = 0;
    let mut block = [0u8; BLOCK_SIZE];
    loop {
        let count = match source.read(&mut block) {
            Ok(count) => count,
            Err(_) => return Err(ReadAllFault::Source),
        };
        if count == 0 {
            return Ok(());
        }
        if count > LIMIT - length {
            return Err(ReadAllFault::TooLong);
        }
        length += count;
    }
}

// What a count of the rows of all that is left of a source answers. Only under a dialect with comments what came is kept.
fn count_source<So: Source>(
    alloc: Global,
    source: &mut So,
    separator: u8,
    quote_char: Option<u8>,
    comment_prefix: Option<&CommentPrefix>,
    eol_char: u8,
    has_header: bool,
) -> Result<PolarsResult<usize>, ReadAllFault>
    ensures read { IfOk result (λ answer. CameWhole (So.left source.old) (So.left source.new) (λ bytes.
        IsCountOf has_header (marks separator quote_char eol_char) (prefix_of comment_prefix.entry) bytes answer)) }
    ensures failed { IsErrOf result ReadAllFault.Source → Rose (So.faults source.old) (So.faults source.new) }
    ensures later { So.faults source.old ≤ So.faults source.new }
{
    if !dialect_ok(separator, quote_char, eol_char, comment_prefix) {
        return match drain(source) {
            Ok(()) => Ok(Err(PolarsError::InvalidOperation(OpFault::Dialect))),
            Err(fault) => Err(fault),
        };
    }
    if comment_prefix.is_none() {
        return count_by_blocks(alloc, source, separator, quote_char, eol_char, has_header);
    }
    match read_all(alloc, source, LIMIT) {
        Ok(bytes) => Ok(count_rows_of_bytes(
            &bytes,
            separator,
            quote_char,
            comment_prefix,
            eol_char,
            has_header,
        )),
        Err(fault) => Err(fault),
    }
}

// What a count of the rows at a path answers. The source is closed before the answer.
fn count_path<O: Opener>(
    alloc: Global,
    opener: &mut O,
    path: &str,
    separator: u8,
    quote_char: Option<u8>,
    comment_prefix: Option<&CommentPrefix>,
    eol_char: u8,
    has_header: bool,
) -> Result<PolarsResult<usize>, ReadAllFault>
    ensures read { IfOk result (λ answer. HoldsSome (O.holds opener.old path.now) (λ bytes.
        IsCountOf has_header (marks separator quote_char eol_char) (prefix_of comment_prefix.entry) bytes answer)) }
    ensures failed { IsErrOf result ReadAllFault.Source → Rose (O.faults opener.old) (O.faults opener.new) }
    ensures later { O.faults opener.old ≤ O.faults opener.new }
    ensures stays { (other : List ℕ) → O.holds opener.new other ≡ O.holds opener.old other }
{
    let mut source = match opener.open_path(path) {
        Ok(source) => source,
        Err(_) => return Err(ReadAllFault::Source),
    };
    let answer = count_source(
        alloc,
        &mut source,
        separator,
        quote_char,
        comment_prefix,
        eol_char,
        has_header,
    );
    opener.close(source);
    answer
}

/// The number of rows of the text at a path, as `count_rows_from_slice` counts them. The source that is opened is read
/// to its end and closed before the answer.
///
/// Refuses `IO` only where the opener's count of faults rose, then what is no dialect, then a compressed text, and want of
/// memory; a text of more than 2^36 bytes is answered as want of memory.
pub fn count_rows<O: Opener>(
    alloc: Global,
    opener: &mut O,
    path: &str,
    separator: u8,
    quote_char: Option<u8>,
    comment_prefix: Option<&CommentPrefix>,
    eol_char: u8,
    has_header: bool,
) -> PolarsResult<usize>
    // Each answer comes only by its cause.
    ensures rows { IfOk result (λ n. IsDialect (marks separator quote_char eol_char) (prefix_of comment_prefix.entry)
        × HoldsSome (O.holds opener.old path.now) (λ bytes. (is_compressed bytes ≡ false)
        × (row_count has_header (marks separator quote_char eol_char) (prefix_of comment_prefix.entry) bytes ≡ n))) }
    ensures io { IsErrOf result error.IO → Rose (O.faults opener.old) (O.faults opener.new) }
    ensures dialect { IsErrOf result no_dialect → ¬ IsDialect (marks separator quote_char eol_char) (prefix_of comment_prefix.entry) }
    ensures compressed { IsErrOf result compressed → IsDialect (marks separator quote_char eol_char) (prefix_of comment_prefix.entry)
        × HoldsSome (O.holds opener.old path.now) (λ bytes. is_compressed bytes ≡ true) }
    ensures known { IfErr result IsCountFault }

    // And it comes where its cause holds, up to want of memory and a count that rose.
    ensures no_dialect { (¬ IsDialect (marks separator quote_char eol_char) (prefix_of comment_prefix.entry))
        → AnswersUnlessFailed result (Err no_dialect) (O.faults opener.old) (O.faults opener.new) }
    ensures told { (bytes : List ℕ) → O.holds opener.old path.now ≡ Some bytes
        → IsDialect (marks separator quote_char eol_char) (prefix_of comment_prefix.entry)
        → AnswersUnlessFailed result (counted has_header (marks separator quote_char eol_char) (prefix_of comment_prefix.entry) bytes) (O.faults opener.old) (O.faults opener.new) }
    ensures later { O.faults opener.old ≤ O.faults opener.new }
    ensures stays { (other : List ℕ) → O.holds opener.new other ≡ O.holds opener.old other }
{
    let answer = count_path(
        alloc,
        opener,
        path,
        separator,
        quote_char,
        comment_prefix,
        eol_char,
        has_header,
    );
    match answer {
        Ok(answer) => answer,
        Err(ReadAllFault::Source) => Err(PolarsError::IO),
        Err(ReadAllFault::TooLong) => Err(PolarsError::OutOfMemory),
        Err(ReadAllFault::OutOfMemory) => Err(PolarsError::OutOfMemory),
    }
}
