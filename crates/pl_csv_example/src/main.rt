//! A program over the libraries, which docs/library.md quotes: it reads a file, looks at its cells, makes a frame and writes it, and does each of
//! the other tasks of that page once.
#![tactic(auto)]

mod batching;
mod converting;
mod counting;
mod faults;
mod joining;
mod looking;
mod making;
mod reading;
mod testing;
mod writing;

use anyhow::Result;
use pl_csv::adapters::WriteSink;
use pl_frame::error::PolarsResult;
use pl_frame::frame::DataFrame;
use pl_frame::sink::Sink;
use pl_frame::source::MemSource;
use std::alloc::Global;
use std::fs::Files;
use std::sync::Wait;
use std::thread::Threads;

const ORDERS: &[u8] = b"id,name,amount\n1,Anna,2.50\n2,\"Berg, Otto\",\n3,,-3\n";

// Prints a title.
fn title(rt: &impl Print, text: &str) -> Result<()> {
    println!(rt; "-- {text}")?;
    Ok(())
}

// Prints what is in a frame that was read, under a title.
fn show(rt: &impl Print, text: &str, answer: PolarsResult<DataFrame>) -> Result<()> {
    let frame = answer?;
    title(rt, text)?;
    looking::show(rt, &frame)
}

// Prints what is in a frame of orders, and the total of their amounts.
fn show_orders(rt: &impl Print, answer: PolarsResult<DataFrame>) -> Result<()> {
    let frame = answer?;
    looking::show(rt, &frame)?;
    let total = looking::total(&frame, "amount");
    println!(rt; "total: {total:?} hundredths")?;
    Ok(())
}

// Reads frames, and shows what is in them.
fn read<R: Print + Files + AllocGlobal + Threads + Wait + Sync>(rt: &R) -> Result<()> {
    let alloc = rt.alloc();
    title(rt, "the cells of a file")?;
    show_orders(rt, reading::read_a_file(rt, alloc, "orders.csv"))?;
    let answer = reading::read_without_a_schema(rt, alloc, ORDERS);
    show(rt, "without a schema", answer)?;
    let answer = reading::read_two_columns(rt, alloc, ORDERS);
    show(rt, "two columns", answer)?;
    let answer = reading::read_with_nulls(rt, alloc, b"n\nNA\n7\n");
    show(rt, "texts that mean null", answer)?;
    let answer = testing::read_rows_with_amount(rt, alloc, ORDERS);
    show(rt, "the rows with an amount", answer)?;
    let answer = joining::read_joined(rt, alloc, b"n\n1\n", b"2\n");
    show(rt, "two sources, one after the other", answer)
}

// Writes a frame of prices twice, in batches.
fn write_twice<W: Threads + Sync, S: Sink>(
    rt: &W,
    alloc: Global,
    frame: DataFrame,
    out: &mut S,
) -> PolarsResult<()> {
    let schema = making::schema_of_prices(alloc)?;
    let batches = vec![in alloc; frame.try_clone()?, frame]?;
    batching::write_in_batches(rt, alloc, &schema, &batches, out)
}

// Makes frames, and writes them.
fn write<R: Print + AllocGlobal + Threads + Sync, S: Sink>(rt: &R, out: &mut S) -> Result<()> {
    let alloc = rt.alloc();
    let frame = making::make_prices(alloc)?;
    title(rt, "a frame that was made")?;
    writing::write_a_frame(rt, alloc, &frame, out)?;
    title(rt, "the same, twice, in batches")?;
    write_twice(rt, alloc, frame, out)?;
    Ok(())
}

// Reads and writes in one.
fn convert<R: Print + AllocGlobal + Threads + Wait + Sync, S: Sink>(
    rt: &R,
    out: &mut S,
) -> Result<()> {
    let alloc = rt.alloc();
    title(rt, "semicolons for commas")?;
    converting::with_semicolons(rt, alloc, &mut MemSource::new(ORDERS), out)?;
    title(rt, "the frame as well")?;
    let rows = converting::with_frame(rt, alloc, ORDERS, out)?.height();
    println!(rt; "{rows} rows")?;
    Ok(())
}

// Looks for a schema alone, and counts.
fn count<R: Print + Files + AllocGlobal + Threads + Wait + Sync>(rt: &R) -> Result<()> {
    let alloc = rt.alloc();
    title(rt, "a schema alone")?;
    looking::show_schema(rt, &reading::infer_a_schema(alloc, ORDERS)?)?;
    title(rt, "rows")?;
    let rows = counting::count_the_rows(rt, alloc, "orders.csv")?;
    println!(rt; "{rows} rows in the file")?;
    let rows = batching::count_orders(rt, alloc, ORDERS)?;
    println!(rt; "{rows} rows in batches")?;
    Ok(())
}

fn main(rt: HostRuntime) -> Result<()> {
    let mut out = WriteSink::new(rt.stdout());
    read(&rt)?;
    write(&rt, &mut out)?;
    convert(&rt, &mut out)?;
    count(&rt)?;
    title(&rt, "faults")?;
    faults::show_faults(&rt, rt.alloc())?;
    Ok(())
}
