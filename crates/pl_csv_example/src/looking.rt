//! What is in a frame.

use anyhow::Result;
use pl_frame::column::{Column, Value};
use pl_frame::frame::DataFrame;
use pl_frame::schema::Schema;

/// Prints the name of a column, its type and its cells.
pub fn show_column(rt: &impl Print, column: &Column) -> Result<()> {
    print!(rt; "{} {:?}:", column.name(), column.dtype())?;
    for row in 0..column.len() {
        match column.get(row) {
            Value::Null => print!(rt; " null")?,
            Value::Boolean(truth) => print!(rt; " {truth}")?,
            Value::Whole(number) => print!(rt; " {number}")?,
            Value::Text(text) => print!(rt; " {text:?}")?,
        }
    }
    println!(rt; "")?;
    Ok(())
}

/// Prints each column of a frame.
pub fn show(rt: &impl Print, frame: &DataFrame) -> Result<()> {
    for column in frame.columns() {
        show_column(rt, column)?;
    }
    Ok(())
}

/// The sum of a column of numbers, where there is such a column and the sum fits. Nulls don't count.
pub fn total(frame: &DataFrame, name: &str) -> Option<i128> {
    let column = frame.columns().iter().find(|column| column.name() == name)?;
    let mut total: i128 = 0;
    for row in 0..column.len() {
        if let Value::Whole(number) = column.get(row) {
            total = total.checked_add(number)?;
        }
    }
    Some(total)
}

/// Prints each name of a schema with its type.
pub fn show_schema(rt: &impl Print, schema: &Schema) -> Result<()> {
    for place in 0..schema.len() {
        let (name, dtype) = schema.entry(place);
        println!(rt; "{name} {dtype:?}")?;
    }
    Ok(())
}
