//! Which columns are read, and a column of row numbers, as words give them.
ghost use Rattle.std.specs.Prelude.{◌≡◌, None, Some, IfOk, IsErrOf};
ghost use Rattle.std.specs.Option.{option_map};
ghost use Rattle.pl_words.specs.ColumnWords.{names_of, places_of, types_of, row_index_by, row_index_of};

use crate::arguments::Arguments;
use crate::from_text::{FromText, meant, read_list};
use crate::option_values::parse_offset;
use crate::splitting::{copy_text, split_texts};
use crate::words::WordsFault;
use pl_options::column_lists::{ColumnNames, ColumnPlaces, DataTypes};
use pl_options::row_index::RowIndex;
use std::alloc::Global;

// LIST of names.
impl FromText for ColumnNames {
    ghost meaning = { names_of };

    fn from_text(alloc: Global, text: &str) -> Result<Self, WordsFault> {
        Ok(ColumnNames::new(split_texts(alloc, text, b',')?))
    }
}

// LIST of NUM.
impl FromText for ColumnPlaces {
    ghost meaning = { places_of };

    fn from_text(alloc: Global, text: &str) -> Result<Self, WordsFault> {
        Ok(ColumnPlaces::new(read_list(alloc, text)?))
    }
}

// LIST of TYPE.
impl FromText for DataTypes {
    ghost meaning = { types_of };

    fn from_text(alloc: Global, text: &str) -> Result<Self, WordsFault> {
        Ok(DataTypes::new(read_list(alloc, text)?))
    }
}

// A column of row numbers of this name. Refuses an offset without a name or without a meaning, and want of memory.
fn read_row_index(
    alloc: Global,
    name: Option<&str>,
    offset: Option<&str>,
) -> Result<Option<RowIndex>, WordsFault>
    ensures given { IfOk result (λ given. row_index_by (option_map (λ t. t.now) name.entry) (option_map (λ t. t.now) offset.entry) ≡ Some given) }
    ensures refused { IsErrOf result WordsFault.Words → row_index_by (option_map (λ t. t.now) name.entry) (option_map (λ t. t.now) offset.entry) ≡ None }
{
    match (name, offset) {
        (None, None) => Ok(None),
        (None, Some(_)) => Err(WordsFault::Words),
        (Some(name), None) => {
            let name = copy_text(alloc, name)?;
            Ok(Some(RowIndex { name, offset: 0 }))
        }
        (Some(name), Some(offset)) => {
            let offset = meant(parse_offset(offset))?;
            let name = copy_text(alloc, name)?;
            Ok(Some(RowIndex { name, offset }))
        }
    }
}

/// The column of row numbers, if one is asked for. Refuses an offset without a name or without a meaning, and want of
/// memory.
#[tactic(auto, unfolding(crate::specs::Arguments::is_option))]
pub(crate) fn row_index_of(
    alloc: Global,
    arguments: &Arguments<'_>,
) -> Result<Option<RowIndex>, WordsFault>
    ensures given { IfOk result (λ given. row_index_of arguments.now ≡ Some given) }
    ensures refused { IsErrOf result WordsFault.Words → row_index_of arguments.now ≡ None }
{
    let name = arguments.value_under("--row-index");
    let offset = arguments.value_under("--row-offset");
    read_row_index(alloc, name, offset)
}
