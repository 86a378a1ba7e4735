//! Texts among the categories of an enum.
ghost use Rattle.std.specs.Prelude.{◌≡◌, refl, ◌++◌, ◌∷◌, [], None, Some, position, take, IfOk, IsOkUnless, OnOk, OnErr};
ghost use Rattle.std.specs.Str.{bytes_eq};
ghost use Rattle.pl_frame.specs.declared.data_type.DataType.TheVariants as dtype;
ghost use Rattle.pl_frame.specs.declared.error.PolarsError.TheVariants as error;
ghost use Rattle.pl_frame.specs.Columns.{text_cells};
ghost use Rattle.pl_frame.specs.Names.{first_repeat};

use crate::cell_fault::CellFault;
use crate::text_types::{TextType, as_text};
use crate::utf8::CsvEncoding;
use pl_frame::column::Column;
use pl_frame::data_type::{Categories, DataType};
use pl_frame::error::{PolarsError, PolarsResult};
use pl_frame::name::PlSmallStr;
use pl_frame::numbers::Numbers;
use pl_frame::places::Places;
use std::alloc::{AllocError, Global};
use std::marker::Model;

// Categories of which none stands twice. The place of each is found by its hash.
#[derive(Drop)]
struct FoundCategories {
    texts: Categories,
    places: Places,
}

impl Model for FoundCategories {
    ghost use Rattle.std.specs.Prelude.{◌≡◌, ℕ, List};

    ghost Value = { List (List ℕ) };

    ghost view = { λ c. c.texts };

    ghost invariant = { λ c. c.places ≡ c.texts };
}

impl FoundCategories {
    // Refuses only want of memory.
    fn new(alloc: Global, texts: Categories) -> PolarsResult<Self>
        requires { first_repeat texts ≡ None }
        ensures made { IfOk result (λ categories. categories ≡ texts) }
        ensures refused { IsOkUnless result error.OutOfMemory }
    {
        match Places::new(alloc, texts.texts()) {
            Ok(places) => Ok(FoundCategories { texts, places }),
            Err(_) => Err(PolarsError::OutOfMemory),
        }
    }

    // The place of a text.
    #[inline]
    fn find(&self, text: &str) -> Option<usize>
        ensures { result ≡ position (bytes_eq text.now) self.now }
    {
        self.places.find(text)
    }

    // Equal categories. Refuses only want of memory.
    fn copy_texts(&self) -> PolarsResult<Categories>
        ensures equal { IfOk result (λ texts. texts ≡ self.now) }
        ensures refused { IsOkUnless result error.OutOfMemory }
    {
        self.texts.try_clone()
    }

    fn into_texts(self) -> Categories
        ensures { result ≡ self }
    {
        let FoundCategories { texts, places: _ } = self;
        texts
    }
}

/// Texts among categories, with nulls: for each text the place where it stands among them.
#[derive(Drop)]
pub struct EnumTexts {
    categories: FoundCategories,
    places: Numbers<u64>,
}

impl Model for EnumTexts {
    ghost use Rattle.pl_frame.specs.Categories.{decoded};
    ghost use Rattle.pl_cells.specs.EnumPlaces.{EnumValue, ArePlaces};

    ghost Value = { EnumValue };

    ghost view = { λ t. record { categories = t.categories; texts = decoded t.categories t.places } };

    ghost invariant = { λ t. ArePlaces t.categories t.places };
}

impl EnumTexts {
    /// No texts among these categories. Refuses only want of memory.
    pub(crate) fn new(alloc: Global, categories: Categories) -> PolarsResult<Self>
        requires { first_repeat categories ≡ None }
        ensures empty { IfOk result (λ texts. texts ≡ record { categories = categories; texts = [] }) }
        ensures refused { IsOkUnless result error.OutOfMemory }
    {
        let categories = FoundCategories::new(alloc, categories)?;
        Ok(EnumTexts {
            categories,
            places: Numbers::new(alloc),
        })
    }

    // Puts the text of a place at the end.
    #[inline]
    fn push_place(&mut self, place: usize, text: &str) -> Result<(), AllocError>
        requires { position (bytes_eq text.now) self.old.categories ≡ Some place }
        ensures ok { OnOk result (self.new ≡ record { categories = self.old.categories; texts = self.old.texts ++ Some text.now ∷ [] }) }
        ensures err { OnErr result (self.new ≡ self.old) }
    {
        self.places.push(place as u64)
    }

    // Puts texts among the same categories at the end.
    fn append(&mut self, other: &EnumTexts) -> Result<(), AllocError>
        requires { self.old.categories ≡ other.now.categories }
        ensures ok { OnOk result (self.new ≡ record { categories = self.old.categories; texts = self.old.texts ++ other.now.texts }) }
        ensures err { OnErr result (self.new ≡ self.old) }
    {
        self.places.append(&other.places)
    }

    // Keeps so many texts, or all if there are fewer.
    fn truncate(&mut self, len: usize)
        ensures { self.new ≡ record { categories = self.old.categories; texts = take len self.old.texts } }
    {
        self.places.truncate(len)
    }

    // The place of a text among the categories.
    #[inline]
    fn place_of(&self, text: &str) -> Option<usize>
        ensures { result ≡ position (bytes_eq text.now) self.now.categories }
    {
        self.categories.find(text)
    }
}

// Enums.
impl TextType for EnumTexts {
    ghost dtype = { λ t. dtype.Enum (Some t.categories) };

    ghost values = { λ t. text_cells t.texts };

    ghost all_text = { λ _. refl };

    fn data_type(&self) -> PolarsResult<DataType> {
        let categories = self.categories.copy_texts()?;
        Ok(DataType::Enum(Some(categories)))
    }

    #[inline]
    fn count(&self) -> usize {
        self.places.len()
    }

    fn make_room(&mut self, additional: usize, _bytes: usize) -> Result<(), AllocError> {
        self.places.reserve(additional)
    }

    #[inline]
    fn text_bytes(&self) -> usize {
        0
    }

    fn add_all(&mut self, other: &Self) -> Result<(), AllocError> {
        self.append(other)
    }

    fn cut_back(&mut self, len: usize) {
        self.truncate(len)
    }

    #[inline]
    fn add_missing(&mut self, _is_null: bool) -> Result<(), AllocError> {
        self.places.push_null()
    }

    #[inline]
    fn add_text(
        &mut self,
        _alloc: Global,
        text: &[u8],
        _encoding: CsvEncoding,
    ) -> Result<(), CellFault> {
        let Some(text) = as_text(text) else {
            return Err(CellFault::Utf8);
        };
        match self.place_of(text) {
            Some(place) => self.push_place(place, text)?,
            None => return Err(CellFault::Value),
        }
        Ok(())
    }

    fn column(self, name: PlSmallStr) -> Column {
        let EnumTexts { categories, places } = self;
        Column::from_enum(name, DataType::Enum(Some(categories.into_texts())), places)
    }

    fn packed(&self, _alloc: Global, name: PlSmallStr) -> Result<Column, AllocError> {
        let Ok(categories) = self.categories.copy_texts() else {
            return Err(AllocError);
        };
        let places = self.places.try_clone()?;
        Ok(Column::from_enum(name, DataType::Enum(Some(categories)), places))
    }
}
