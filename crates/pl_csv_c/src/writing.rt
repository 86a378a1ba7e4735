//! Columns of the host as the text of a frame.
ghost use Rattle.std.specs.Prelude.{◌≡◌, ◌≢◌, ℕ, List, All, map, length, IfOk, OnOk, IfErr};
ghost use Rattle.pl_csv_c.specs.Fault.{IsRefusedAs};
ghost use Rattle.pl_csv_c.specs.HostColumns.{host_column, IsSound};
ghost use Rattle.pl_csv_c.specs.Writing.{fault_of, IsColumnFault, IsFrameFault, IsHostText, HasNoHostText, IsWritten, IsUnwritten};
ghost use Rattle.pl_frame.specs.Frame.{IsFrame};

use crate::bytes::{BytesView, hand_out};
use crate::fault::refuse;
use crate::frame_text::frame_text;
use crate::given::given_of;
use crate::host_column::HostColumn;
use crate::host_made::{Unmade, made_column};
use pl_csv::run::Refusal;
use pl_frame::column::Column;
use pl_frame::error::{ComputeFault, FaultKind, OpFault, PolarsError, PolarsResult};
use pl_frame::frame::DataFrame;
use pl_rows::push::push;
use pl_write::options::CsvWriterOptions;
use std::alloc::Global;

// The fault of a column at a place.
fn fault_of(host: &HostColumn<'_>, place: usize, unmade: Unmade) -> PolarsError
    ensures { result ≡ fault_of host.now place unmade }
{
    match unmade {
        Unmade::Name => PolarsError::InvalidOperation(OpFault::Option),
        Unmade::Type => PolarsError::ComputeError(ComputeFault::Dtype { column: place }),
        Unmade::Row { row } => PolarsError::ComputeError(ComputeFault::Record {
            row,
            column: place,
            kind: if host.dtype == 10 {
                FaultKind::Utf8
            } else {
                FaultKind::Value
            },
        }),
        Unmade::OutOfMemory => PolarsError::OutOfMemory,
    }
}

// The columns that the arrays of the host mean. Refuses the first that means none, and want of memory.
fn made_columns(alloc: Global, hosts: &[HostColumn<'_>]) -> PolarsResult<Vec<Column>>
    ensures columns { IfOk result (λ columns. columns.items ≡ map host_column hosts.now) }
    ensures sound { OnOk result (All IsSound hosts.now) }
    ensures refused { IfErr result (IsColumnFault hosts.now) }
{
    let mut columns = Vec::new(alloc);
    for place in 0..hosts.len() {
        let host = &hosts[place];
        match made_column(alloc, host) {
            Ok(column) => match push(&mut columns, column) {
                Ok(()) => {}
                Err(_) => return Err(PolarsError::OutOfMemory),
            },
            Err(unmade) => return Err(fault_of(host, place, unmade)),
        }
    }
    Ok(columns)
}

// The frame that the arrays of the host mean. Refuses the first column that means none, then columns of several heights, then the first
// name that an earlier column has, and want of memory.
fn made_frame(alloc: Global, hosts: &[HostColumn<'_>]) -> PolarsResult<DataFrame>
    ensures frame { IfOk result (λ frame. frame ≡ map host_column hosts.now) }
    ensures sound { OnOk result (All IsSound hosts.now) }
    ensures refused { IfErr result (IsFrameFault hosts.now) }
{
    let columns = match made_columns(alloc, hosts) {
        Ok(columns) => columns,
        Err(fault) => return Err(fault),
    };
    if !DataFrame::have_one_height(&columns) {
        return Err(PolarsError::InvalidOperation(OpFault::Option));
    }
    DataFrame::new(alloc, columns)
}

// The text of that frame. Refuses, before the frame, a quote that is not ASCII.
fn text_of_hosts(
    alloc: Global,
    hosts: &[HostColumn<'_>],
    write: &CsvWriterOptions,
) -> PolarsResult<Vec<u8>>
    ensures text { IfOk result (λ text. IsHostText write.now hosts.now text.items) }
    ensures refused { IfErr result (HasNoHostText write.now hosts.now) }
{
    if !write.serialize_options.quote_char.is_ascii() {
        return Err(PolarsError::ComputeError(ComputeFault::Quote));
    }
    let frame = match made_frame(alloc, hosts) {
        Ok(frame) => frame,
        Err(fault) => return Err(fault),
    };
    match frame_text(alloc, frame.columns(), write) {
        Ok(text) => Ok(text),
        Err(_) => Err(PolarsError::OutOfMemory),
    }
}

// The same, by words.
fn text_given(alloc: Global, hosts: &[HostColumn<'_>], words: &[&[u8]]) -> Result<Vec<u8>, Refusal>
    ensures text { IfOk result (λ text. IsWritten (map (λ word. word.now) words.now) hosts.now text.items) }
    ensures refused { IfErr result (IsUnwritten (map (λ word. word.now) words.now) hosts.now) }
{
    let given = match given_of(alloc, words) {
        Ok(given) => given,
        Err(refusal) => return Err(refusal),
    };
    match text_of_hosts(alloc, hosts, &given.write) {
        Ok(text) => Ok(text),
        Err(fault) => Err(Refusal::Polars(fault)),
    }
}

/// Hands out the text of the frame of these columns, written as the words say; what they say of reading has no part in it. At any status
/// but 0 nothing is written but the fault line.
#[unsafe(no_mangle)]
pub extern "C" fn pl_csv_write(
    alloc: Global,
    columns: &[HostColumn<'_>],
    words: &[&[u8]],
    text: &mut BytesView,
    line: &mut [u8],
    line_len: &mut usize,
) -> u32
    // Status 0: the words have a meaning, the columns mean a frame, and bytes are handed out, as many as its text has. No line is told.
    ensures written { result ≡ 0 → (written : List ℕ) × IsWritten (map (λ word. word.now) words.now) columns.now written × (text.new.len ≡ length written) }
    ensures silent { result ≡ 0 → (line.new ≡ line.old) × (line_len.new ≡ 0) }

    // Each other status comes only by its cause, whose line is told, and no bytes are handed out.
    ensures refused { result ≢ 0 → IsRefusedAs (IsUnwritten (map (λ word. word.now) words.now) columns.now) result line.old line.new line_len.new }
    ensures same { result ≢ 0 → text.new ≡ text.old }
{
    let written = match text_given(alloc, columns, words) {
        Ok(written) => written,
        Err(refusal) => return refuse(alloc, refusal, line, line_len),
    };
    match hand_out(alloc, written, text) {
        Ok(()) => {
            *line_len = 0;
            0
        }
        Err(_) => {
            let wanting = Refusal::Polars(PolarsError::OutOfMemory);
            refuse(alloc, wanting, line, line_len)
        }
    }
}
