//! What is told of each kind of fault.

use crate::reading::{read_a_file, read_two_columns, read_without_a_schema};
use anyhow::Result;
use pl_frame::error::{ComputeFault, NoDataFault, PolarsError, PolarsResult};
use pl_frame::frame::DataFrame;
use std::alloc::Global;
use std::fs::Files;
use std::sync::Wait;
use std::thread::Threads;

/// Prints what a fault means to whoever gave the input.
pub fn tell(rt: &impl Print, fault: &PolarsError) -> Result<()> {
    match fault {
        PolarsError::ComputeError(ComputeFault::Record { row, column, kind }) => {
            println!(rt; "row {row}, column {column}: {kind:?}")?
        }
        PolarsError::ComputeError(fault) => println!(rt; "this cannot be read: {fault:?}")?,
        PolarsError::NoData(NoDataFault::Empty) => println!(rt; "there is no header")?,
        PolarsError::NoData(NoDataFault::Skip) => println!(rt; "too much is skipped")?,
        PolarsError::ColumnNotFound(name) => println!(rt; "there is no column {name}")?,
        PolarsError::Duplicate { name, at } => println!(rt; "{name} stands twice: {at:?}")?,
        PolarsError::InvalidOperation(fault) => println!(rt; "wrong options: {fault:?}")?,
        PolarsError::OutOfBounds { index, length } => {
            println!(rt; "no column {index} among {length}")?
        }
        PolarsError::EmptyProjection => println!(rt; "no column is asked for")?,
        PolarsError::IO => println!(rt; "a file or a device failed")?,
        PolarsError::OutOfMemory => println!(rt; "out of memory")?,
    }
    Ok(())
}

// Prints the number of rows.
fn tell_rows(rt: &impl Print, rows: usize) -> Result<()> {
    println!(rt; "{rows} rows")?;
    Ok(())
}

// Tells the fault of a read that has one.
fn tell_fault(rt: &impl Print, answer: PolarsResult<DataFrame>) -> Result<()> {
    let told = match &answer {
        Ok(frame) => tell_rows(rt, frame.height()),
        Err(fault) => tell(rt, fault),
    };
    drop(answer);
    told
}

/// Reads inputs with faults.
pub fn show_faults<R: Print + Files + Threads + Wait + Sync>(rt: &R, alloc: Global) -> Result<()> {
    tell_fault(rt, read_a_file(rt, alloc, "no_such_file.csv"))?;
    tell_fault(
        rt,
        read_two_columns(rt, alloc, b"id,name,amount\n1,Anna,2.50\n2,Otto,much\n"),
    )?;
    tell_fault(rt, read_without_a_schema(rt, alloc, b"n\n1\n2,3\n"))?;
    tell_fault(rt, read_without_a_schema(rt, alloc, b""))?;
    tell_fault(rt, read_without_a_schema(rt, alloc, b"n\n\"1\n"))?;
    Ok(())
}
