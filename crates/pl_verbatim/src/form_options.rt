//! The form of rows that are written otherwise than they were read, by the options.
ghost use Rattle.std.specs.Prelude.{◌≡◌, ◌<◌, ℕ, true, not, List, [], ◌∷◌, ◌++◌, Some, IfOk};
ghost use Rattle.std.specs.Bool.{OnTrue};
ghost use Rattle.pl_frame.specs.declared.data_type.DataType.{DataType};
ghost use Rattle.pl_frame.specs.Types.{is_numeric};
ghost use Rattle.pl_text.specs.FrameText.{WriteOptions, is_bare, written_null};
ghost use Rattle.std.specs.Option.{option_map};
ghost use Rattle.pl_write.specs.Options.{cell_options};
ghost use Rattle.pl_verbatim.specs.Changes.{IsAlike, IsFormOf};
ghost use Rattle.pl_verbatim.specs.Nulls.{are_alike, AreStarts, AreStartsOf};
ghost use Rattle.pl_verbatim.specs.Kinds.{IsKindOf};

use crate::form::Form;
use crate::kinds::Kind;
use pl_cells::null_values::NullValuesCompiled;
use pl_frame::name::PlSmallStr;
use pl_write::options::{QuoteStyle, SerializeOptions};
use std::alloc::{AllocError, Global};

// What is written of a null. Refuses only want of memory.
fn null_of(alloc: Global, options: &SerializeOptions) -> Result<Vec<u8>, AllocError>
    ensures { IfOk result (λ null. null.items ≡ written_null (cell_options options.now)) }
{
    let text = options.null.as_str().as_bytes();
    let mut null = Vec::new(alloc);
    if options.quote_style == QuoteStyle::Always {
        null.push(options.quote_char)?;
        null.extend_from_slice(text)?;
        null.push(options.quote_char)?;
        return Ok(null);
    }
    null.extend_from_slice(text)?;
    Ok(null)
}

// Equal texts, where there are such. Refuses only want of memory.
fn nulls_of(nulls: Option<&NullValuesCompiled>) -> Result<Option<NullValuesCompiled>, AllocError>
    ensures { IfOk result (λ copy. copy ≡ option_map (λ nulls. nulls.now) nulls.entry) }
{
    let Some(nulls) = nulls else {
        return Ok(None);
    };
    match nulls.try_clone() {
        Ok(copy) => Ok(Some(copy)),
        Err(_) => Err(AllocError),
    }
}

// Marks the byte with which a text begins, unless it is empty.
fn mark_start(starts: &mut [bool; 256], text: &PlSmallStr)
    ensures { (texts : List (List ℕ)) → AreStarts texts starts.old → AreStarts (texts ++ text.now ∷ []) starts.new }
{
    let bytes = text.as_str().as_bytes();
    if !bytes.is_empty() {
        starts[bytes[0] as usize] = true;
    }
}

// Whether one of these texts begins with a byte.
fn starts_among(texts: &[PlSmallStr]) -> [bool; 256]
    ensures { AreStarts texts.now result }
{
    let mut starts = [false; 256];
    for text in texts {
        mark_start(&mut starts, text);
    }
    starts
}

// Whether one of the texts that mean null begins with a byte.
fn starts_of(nulls: &NullValuesCompiled) -> [bool; 256]
    requires { are_alike (Some nulls.now) ≡ true }
    ensures { AreStartsOf (Some nulls.now) result }
{
    match nulls {
        NullValuesCompiled::AllColumnsSingle(text) => {
            let mut starts = [false; 256];
            mark_start(&mut starts, text);
            starts
        }
        NullValuesCompiled::AllColumns(texts) => starts_among(texts.texts()),
        NullValuesCompiled::Columns(_) => [false; 256],
    }
}

// The same where there may be none.
fn starts_where(nulls: Option<&NullValuesCompiled>) -> [bool; 256]
    requires { are_alike (option_map (λ nulls. nulls.now) nulls) ≡ true }
    ensures { AreStartsOf (option_map (λ nulls. nulls.now) nulls.entry) result }
{
    match nulls {
        Some(nulls) => starts_of(nulls),
        None => [false; 256],
    }
}

impl Form {
    /// The form of these options, where these texts mean null. Refuses only want of memory.
    pub(crate) fn of(
        alloc: Global,
        options: &SerializeOptions,
        nulls: Option<&NullValuesCompiled>,
    ) -> Result<Form, AllocError>
        requires style { (cell_options options.now).style < 3 }
        requires alike { are_alike (option_map (λ nulls. nulls.now) nulls) ≡ true }
        ensures form { IfOk result (IsFormOf (cell_options options.now) options.now.quote_char) }
        ensures nulls { IfOk result (λ form. form.nulls ≡ option_map (λ nulls. nulls.now) nulls.entry) }
    {
        Ok(Form {
            nulls: nulls_of(nulls)?,
            starts: starts_where(nulls),
            separator: options.separator,
            quotes_numbers: options.quote_style == QuoteStyle::Always,
            quotes_values: options.quote_style != QuoteStyle::Necessary,
            null: null_of(alloc, options)?,
            terminator: Vec::from_slice(alloc, options.line_terminator.as_str().as_bytes())?,
        })
    }

    /// Whether only nulls are written otherwise than they are read, where this separator stands between fields.
    pub(crate) fn is_alike(&self, separator: u8) -> bool
        ensures { OnTrue result (IsAlike self.now separator) }
    {
        self.separator == separator
            && !self.quotes_values
            && matches!(self.terminator.as_slice(), [b'\n'])
    }

    /// Whether a value of a kind that is no text stands between quotes.
    #[inline(always)]
    pub(crate) fn quotes(&self, kind: Kind) -> bool
        ensures { (o : WriteOptions) (quote : ℕ) (type : DataType) → IsFormOf o quote self.now → IsKindOf type kind → result ≡ not (is_bare o.style (is_numeric type)) }
    {
        match kind {
            Kind::Whole {
                digits: _,
                is_signed: _,
            } => self.quotes_numbers,
            Kind::Decimal {
                digits: _,
                scale: _,
            } => self.quotes_numbers,
            Kind::Text => self.quotes_values,
            Kind::Boolean => self.quotes_values,
            Kind::Date => self.quotes_values,
            Kind::Datetime { places: _ } => self.quotes_values,
            Kind::Passed => false,
        }
    }
}
