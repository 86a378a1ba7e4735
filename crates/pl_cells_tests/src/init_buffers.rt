//! Tests of `pl_cells::init_buffers`: one buffer with each call of it. How the texts of other types are read, `pl_csv_replay` tries. Buffers
//! and columns go to `drop`: one that is dropped where it stands makes the proof of its function long.

use crate::given::name;
use pl_cells::buffer::Buffer;
use pl_cells::cell_fault::CellFault;
use pl_cells::init_buffers::init_buffers;
use pl_cells::utf8::CsvEncoding;
use pl_frame::column::Column;
use pl_frame::data_type::DataType;
use pl_frame::schema::Schema;
use std::alloc::Global;
use std::process::Abort;

// A buffer of a column `a` of whole numbers.
fn buffer_of(rt: &impl Abort, alloc: Global) -> Buffer {
    let mut schema = Schema::new(alloc);
    let added = schema.with_column(name(rt, alloc, "a"), DataType::Int64);
    drop(added.expect(rt, "a column"));
    assert!(rt; schema.len() == 1);
    let buffers = init_buffers(alloc, &[0], 4, &schema, Some(b'"'), CsvEncoding::Utf8);
    let mut buffers = buffers.expect(rt, "buffers");
    buffers.pop().expect(rt, "a buffer")
}

// What is wrong with a field that is added.
fn fault(buffer: &mut Buffer, field: &[u8]) -> Option<CellFault> {
    buffer.add(field, false, false, true).err()
}

// Puts a number and a null into a buffer, and what it cuts off again.
fn fill(rt: &impl Abort, buffer: &mut Buffer) {
    assert!(rt; fault(buffer, b"x") == Some(CellFault::Value));
    assert!(rt; buffer.len() == 0);
    assert!(rt; fault(buffer, b" 5") == None);
    buffer.add_null(true).expect(rt, "a null");
    assert!(rt; fault(buffer, b"6") == None);
    buffer.truncate(2);
}

// Puts the numbers of a buffer behind those of another.
fn join(rt: &impl Abort, buffer: &mut Buffer, other: &Buffer) {
    let (Ok(DataType::Int64), Ok(DataType::Int64)) = (buffer.dtype(), other.dtype()) else {
        panic!(rt; "no numbers");
    };
    buffer
        .reserve_for(other.len(), other.text_bytes())
        .expect(rt, "room");
    buffer.append(other).expect(rt, "room");
}

// The column `a` of a number and a null, twice.
fn wanted(rt: &impl Abort, alloc: Global) -> Column {
    let mut numbers = Vec::new(alloc);
    for number in [Some(5), None, Some(5), None] {
        numbers.push(number).expect(rt, "a number");
    }
    let column = Column::whole(alloc, name(rt, alloc, "a"), DataType::Int64, numbers);
    column.expect(rt, "a column")
}

#[test]
fn cells_are_added_and_joined(rt: HostRuntime) {
    let mut buffer = buffer_of(&rt, rt.alloc());
    let mut other = buffer_of(&rt, rt.alloc());
    fill(&rt, &mut buffer);
    fill(&rt, &mut other);
    join(&rt, &mut buffer, &other);
    drop(other);
    let column = buffer.into_series().expect(&rt, "a column");
    let wanted = wanted(&rt, rt.alloc());
    assert!(rt; column == wanted);
    drop(column);
    drop(wanted);
}
