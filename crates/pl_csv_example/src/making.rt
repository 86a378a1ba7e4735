//! A frame that is made of values.

use crate::reading::add_column;
use pl_frame::column::Column;
use pl_frame::data_type::DataType;
use pl_frame::error::PolarsResult;
use pl_frame::frame::DataFrame;
use pl_frame::name::PlSmallStr;
use pl_frame::schema::Schema;
use std::alloc::Global;

// Prices have two digits after the point, and are kept in hundredths.
const PRICE: DataType = DataType::Decimal(None, Some(2));

/// Two fruits with their prices, of which one is not known.
pub fn make_prices(alloc: Global) -> PolarsResult<DataFrame> {
    let apple = PlSmallStr::from_str(alloc, "apple")?;
    let pear = PlSmallStr::from_str(alloc, "pear, ripe")?;
    let fruits = vec![in alloc; Some(apple), Some(pear)]?;
    let prices = vec![in alloc; Some(120), None]?;
    let fruit = PlSmallStr::from_str(alloc, "fruit")?;
    let price = PlSmallStr::from_str(alloc, "price")?;
    let mut columns = Vec::new(alloc);
    columns.push(Column::text(alloc, fruit, DataType::String, fruits)?)?;
    columns.push(Column::whole(alloc, price, PRICE, prices)?)?;
    DataFrame::new(alloc, columns)
}

/// The names and types of that frame.
pub fn schema_of_prices(alloc: Global) -> PolarsResult<Schema> {
    let mut schema = Schema::new(alloc);
    let name = PlSmallStr::from_str(alloc, "fruit")?;
    add_column(&mut schema, name, DataType::String)?;
    let name = PlSmallStr::from_str(alloc, "price")?;
    add_column(&mut schema, name, PRICE)?;
    Ok(schema)
}
