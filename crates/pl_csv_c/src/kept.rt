//! Frames that are kept until they are freed: each column as arrays, and the views that show where they lie.
ghost use Rattle.std.specs.Prelude.{◌≡◌, ◌++◌, ◌∷◌, [], List, length, count_by, is_none, IfOk, OnOk};
ghost use Rattle.pl_csv_c.specs.Views.{IsViewOf, IsKeptOf, AreKept, IsFrameKept};
ghost use Rattle.pl_frame.specs.Frame.{ColumnValue};

use crate::arrays::{Arrays, arrays_of};
use crate::type_numbers::{precision_of, scale_of, type_number, unit_number};
use crate::views::{ColumnView, TextView};
use pl_frame::column::Column;
use pl_frame::data_type::DataType;
use pl_frame::frame::DataFrame;
use pl_rows::push::push;
use std::alloc::{AllocError, Global};

/// A column that is kept: its name, its cells, and the views of its categories.
#[derive(Drop)]
pub struct KeptColumn {
    pub name: Vec<u8>,
    pub arrays: Arrays,
    pub categories: Vec<TextView>,
}

/// A frame that is kept, with the views of its columns.
#[derive(Drop)]
pub struct KeptFrame {
    pub columns: Vec<KeptColumn>,
    pub views: Vec<ColumnView>,
    pub height: usize,
}

// Views of texts.
fn text_views(alloc: Global, texts: &[Vec<u8>]) -> Result<Vec<TextView>, AllocError>
    ensures { IfOk result (λ views. length views.items ≡ length texts.now) }
{
    let mut views = Vec::new(alloc);
    for text in texts {
        let view = TextView {
            at: text.as_ptr(),
            len: text.len(),
        };
        push(&mut views, view)?;
    }
    Ok(views)
}

// A column that is kept. Refuses only want of memory.
fn keep_column(alloc: Global, column: &Column) -> Result<KeptColumn, AllocError>
    ensures { IfOk result (IsKeptOf column.now) }
{
    let name = Vec::from_slice(alloc, column.name().as_bytes())?;
    let arrays = arrays_of(alloc, column)?;
    let categories = text_views(alloc, &arrays.categories)?;
    Ok(KeptColumn {
        name,
        arrays,
        categories,
    })
}

// The view of a column that is kept, of this type and with so many nulls.
pub(crate) fn view_of(dtype: &DataType, nulls: usize, kept: &KeptColumn) -> ColumnView
    ensures { (column : ColumnValue) → dtype.now ≡ column.dtype → nulls ≡ count_by is_none column.values → IsViewOf column kept.now result }
{
    let arrays = &kept.arrays;
    ColumnView {
        name: TextView {
            at: kept.name.as_ptr(),
            len: kept.name.len(),
        },
        dtype: type_number(dtype),
        unit: unit_number(dtype),
        precision: precision_of(dtype),
        scale: scale_of(dtype),
        present: arrays.present.as_ptr(),
        present_len: arrays.present.len(),
        numbers: arrays.numbers.as_ptr(),
        numbers_len: arrays.numbers.len(),
        words: arrays.words.as_ptr(),
        words_len: arrays.words.len(),
        ends: arrays.ends.as_ptr(),
        ends_len: arrays.ends.len(),
        bytes: arrays.bytes.as_ptr(),
        bytes_len: arrays.bytes.len(),
        categories: kept.categories.as_ptr(),
        categories_len: kept.categories.len(),
        null_count: nulls,
    }
}

// Puts a column and its view behind others. Refuses only want of memory.
fn keep_next(alloc: Global, frame: &mut KeptFrame, column: &Column) -> Result<(), AllocError>
    ensures kept { (columns : List ColumnValue) → AreKept columns frame.old.columns.items frame.old.views.items
        → OnOk result (AreKept (columns ++ column.now ∷ []) frame.new.columns.items frame.new.views.items) }
    ensures height { frame.new.height ≡ frame.old.height }
{
    let kept = keep_column(alloc, column)?;
    let view = view_of(column.dtype(), column.null_count(), &kept);
    push(&mut frame.columns, kept)?;
    push(&mut frame.views, view)?;
    Ok(())
}

/// A frame that is kept. Each column is let go as soon as it stands in arrays. Refuses only want of memory.
pub fn keep(alloc: Global, frame: DataFrame) -> Result<KeptFrame, AllocError>
    ensures { IfOk result (IsFrameKept frame) }
{
    let mut kept = KeptFrame {
        columns: Vec::new(alloc),
        views: Vec::new(alloc),
        height: frame.height(),
    };
    for column in frame.into_columns() {
        keep_next(alloc, &mut kept, &column)?;
    }
    Ok(kept)
}
