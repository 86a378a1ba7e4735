//! Columns that are made of what the host gives.
ghost use Rattle.std.specs.Prelude.{◌≡◌, true, false, length, IfOk, OnOk, IfErr, IsSome, Some};
ghost use Rattle.std.specs.Str.{is_utf8};
ghost use Rattle.pl_csv_c.specs.HostCells.{IsRowFault};
ghost use Rattle.pl_csv_c.specs.HostColumns.{host_cells, AreWhole, host_column, host_type, is_in_words, IsSound};
ghost use Rattle.pl_csv_c.specs.HostMade.{IsKind, IsUnmade};
ghost use Rattle.pl_frame.specs.Columns.{is_number, is_enum};
ghost use Rattle.pl_frame.specs.Types.{is_readable};

use crate::host_cells::{EnumCells, NarrowCells, Untaken, WideCells, take_rows};
use crate::host_column::{HostColumn, checked_text};
use crate::host_type::host_type;
use pl_frame::codes::CodesBuilder;
use pl_frame::column::{Column, ColumnFault};
use pl_frame::data_type::{DataType, TimeUnit};
use pl_frame::name::PlSmallStr;
use pl_frame::numbers::Numbers;
use pl_frame::texts::Texts;
use std::alloc::Global;

/// Why no column is made of what the host gives.
#[derive(Clone, Copy, Debug, PartialEq, Eq)]
pub enum Unmade {
    /// The name is not UTF-8.
    Name,
    /// No type is given whose values can be read.
    Type,
    /// The row has no value of the type, though its flag is set.
    Row { row: usize },
    OutOfMemory,
}

// Truth values as a column.
fn boolean_column(alloc: Global, name: PlSmallStr, host: &HostColumn<'_>) -> Result<Column, Untaken>
    ensures column { IfOk result (λ column. column ≡ record { name = name; dtype = DataType.Boolean; values = host_cells DataType.Boolean host.now }) }
    ensures whole { OnOk result (AreWhole DataType.Boolean host.now (length host.now.present.now)) }
    ensures refused { IfErr result (IsRowFault DataType.Boolean host.now) }
{
    let mut truths: Numbers<bool> = Numbers::new(alloc);
    match take_rows(&mut truths, host) {
        Ok(()) => Ok(Column::from_booleans(name, truths)),
        Err(fault) => Err(fault),
    }
}

// Numbers that stand in 64 bits as a column.
fn narrow_column(
    alloc: Global,
    name: PlSmallStr,
    dtype: DataType,
    host: &HostColumn<'_>,
) -> Result<Column, Untaken>
    requires number { is_number dtype ≡ true }
    requires readable { is_readable dtype ≡ true }
    requires narrow { is_in_words dtype ≡ false }
    ensures column { IfOk result (λ column. column ≡ record { name = name; dtype = dtype; values = host_cells dtype host.now }) }
    ensures whole { OnOk result (AreWhole dtype host.now (length host.now.present.now)) }
    ensures refused { IfErr result (IsRowFault dtype host.now) }
{
    let Some(range) = dtype.range() else {
        unreachable!()
    };
    let mut cells = NarrowCells {
        numbers: Numbers::new(alloc),
        range,
    };
    match take_rows(&mut cells, host) {
        Ok(()) => Ok(Column::from_narrow(name, dtype, cells.numbers)),
        Err(fault) => Err(fault),
    }
}

// Numbers that stand in two words as a column.
fn wide_column(
    alloc: Global,
    name: PlSmallStr,
    dtype: DataType,
    host: &HostColumn<'_>,
) -> Result<Column, Untaken>
    requires number { is_number dtype ≡ true }
    requires readable { is_readable dtype ≡ true }
    requires wide { is_in_words dtype ≡ true }
    ensures column { IfOk result (λ column. column ≡ record { name = name; dtype = dtype; values = host_cells dtype host.now }) }
    ensures whole { OnOk result (AreWhole dtype host.now (length host.now.present.now)) }
    ensures refused { IfErr result (IsRowFault dtype host.now) }
{
    let Some(range) = dtype.range() else {
        unreachable!()
    };
    let mut cells = WideCells {
        numbers: Numbers::new(alloc),
        range,
    };
    match take_rows(&mut cells, host) {
        Ok(()) => Ok(Column::from_wide(name, dtype, cells.numbers)),
        Err(fault) => Err(fault),
    }
}

// Texts as a column.
fn string_column(alloc: Global, name: PlSmallStr, host: &HostColumn<'_>) -> Result<Column, Untaken>
    ensures column { IfOk result (λ column. column ≡ record { name = name; dtype = DataType.String; values = host_cells DataType.String host.now }) }
    ensures whole { OnOk result (AreWhole DataType.String host.now (length host.now.present.now)) }
    ensures refused { IfErr result (IsRowFault DataType.String host.now) }
{
    let mut texts = Texts::new(alloc);
    match take_rows(&mut texts, host) {
        Ok(()) => Ok(Column::from_string(name, texts)),
        Err(fault) => Err(fault),
    }
}

// Categories by first appearance as a column.
fn categorical_column(
    alloc: Global,
    name: PlSmallStr,
    host: &HostColumn<'_>,
) -> Result<Column, Untaken>
    ensures column { IfOk result (λ column. column ≡ record { name = name; dtype = DataType.Categorical; values = host_cells DataType.Categorical host.now }) }
    ensures whole { OnOk result (AreWhole DataType.Categorical host.now (length host.now.present.now)) }
    ensures refused { IfErr result (IsRowFault DataType.Categorical host.now) }
{
    let mut texts = CodesBuilder::new(alloc);
    match take_rows(&mut texts, host) {
        Ok(()) => Ok(Column::from_categories(name, texts.into_codes())),
        Err(fault) => Err(fault),
    }
}

// Categories of an enum, which are those of the host, as a column.
fn enum_column(
    alloc: Global,
    name: PlSmallStr,
    dtype: DataType,
    host: &HostColumn<'_>,
) -> Result<Column, Untaken>
    requires kind { is_enum dtype ≡ true }
    requires readable { is_readable dtype ≡ true }
    requires given { host_type host.now ≡ Some dtype }
    ensures column { IfOk result (λ column. column ≡ record { name = name; dtype = dtype; values = host_cells dtype host.now }) }
    ensures whole { OnOk result (AreWhole dtype host.now (length host.now.present.now)) }
    ensures refused { IfErr result (IsRowFault dtype host.now) }
{
    let mut cells = EnumCells {
        alloc,
        texts: Vec::new(alloc),
    };
    match take_rows(&mut cells, host) {
        Ok(()) => match Column::text(alloc, name, dtype, cells.texts) {
            Ok(column) => Ok(column),
            Err(ColumnFault::OutOfRange { .. }) => unreachable!(),
            Err(ColumnFault::OutOfMemory) => Err(Untaken::OutOfMemory),
        },
        Err(fault) => Err(fault),
    }
}

// How the cells of a type are taken.
#[derive(Clone, Copy)]
enum Kind {
    Truths,
    Narrow,
    Wide,
    Strings,
    Categories,
    Enum,
}

// How the cells of a type that can be read are taken.
fn kind_of(dtype: &DataType) -> Kind
    requires { is_readable dtype.now ≡ true }
    ensures { IsKind result dtype.now }
{
    match dtype {
        DataType::Boolean => Kind::Truths,
        DataType::String => Kind::Strings,
        DataType::Categorical => Kind::Categories,
        DataType::Enum(_) => Kind::Enum,
        DataType::Int128 => Kind::Wide,
        DataType::UInt64 => Kind::Wide,
        DataType::Datetime(TimeUnit::Nanoseconds) => Kind::Wide,
        DataType::Decimal(_, _) => Kind::Wide,
        DataType::Null => unreachable!(),
        _ => Kind::Narrow,
    }
}

// A column of a type that can be read.
fn typed_column(
    alloc: Global,
    name: PlSmallStr,
    dtype: DataType,
    host: &HostColumn<'_>,
) -> Result<Column, Untaken>
    requires readable { is_readable dtype ≡ true }
    requires given { host_type host.now ≡ Some dtype }
    ensures column { IfOk result (λ column. column ≡ record { name = name; dtype = dtype; values = host_cells dtype host.now }) }
    ensures whole { OnOk result (AreWhole dtype host.now (length host.now.present.now)) }
    ensures refused { IfErr result (IsRowFault dtype host.now) }
{
    match kind_of(&dtype) {
        Kind::Truths => boolean_column(alloc, name, host),
        Kind::Narrow => narrow_column(alloc, name, dtype, host),
        Kind::Wide => wide_column(alloc, name, dtype, host),
        Kind::Strings => string_column(alloc, name, host),
        Kind::Categories => categorical_column(alloc, name, host),
        Kind::Enum => enum_column(alloc, name, dtype, host),
    }
}

// The type of a column, where its values can be read.
fn readable_type(alloc: Global, host: &HostColumn<'_>) -> Result<DataType, Unmade>
    ensures given { IfOk result (λ dtype. host_type host.now ≡ Some dtype) }
    ensures readable { IfOk result (λ dtype. is_readable dtype ≡ true) }
    ensures refused { IfErr result (IsUnmade host.now) }
{
    match host_type(alloc, host) {
        Ok(Some(dtype)) => {
            if dtype.readable() {
                Ok(dtype)
            } else {
                Err(Unmade::Type)
            }
        }
        Ok(None) => Err(Unmade::Type),
        Err(_) => Err(Unmade::OutOfMemory),
    }
}

// The name of a column.
fn host_name(alloc: Global, host: &HostColumn<'_>) -> Result<PlSmallStr, Unmade>
    ensures name { IfOk result (λ name. name ≡ host.now.name.now) }
    ensures utf8 { OnOk result (is_utf8 host.now.name.now ≡ true) }
    ensures refused { IfErr result (IsUnmade host.now) }
{
    let Some(name) = checked_text(host.name) else {
        return Err(Unmade::Name);
    };
    match PlSmallStr::from_str(alloc, name) {
        Ok(name) => Ok(name),
        Err(_) => Err(Unmade::OutOfMemory),
    }
}

/// The column that the arrays of the host mean. Refuses a name that is not UTF-8, then a type whose values can't be read, then the first
/// row that has no value of the type though its flag is set, and want of memory.
pub(crate) fn made_column(alloc: Global, host: &HostColumn<'_>) -> Result<Column, Unmade>
    ensures column { IfOk result (λ column. column ≡ host_column host.now) }
    ensures sound { OnOk result (IsSound host.now) }
    ensures refused { IfErr result (IsUnmade host.now) }
{
    let name = host_name(alloc, host)?;
    let dtype = readable_type(alloc, host)?;
    match typed_column(alloc, name, dtype, host) {
        Ok(column) => Ok(column),
        Err(Untaken::Row { row }) => Err(Unmade::Row { row }),
        Err(Untaken::OutOfMemory) => Err(Unmade::OutOfMemory),
    }
}
