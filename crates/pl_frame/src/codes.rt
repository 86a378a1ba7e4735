//! Texts as codes beside a dictionary.
ghost use Rattle.std.specs.Prelude.{◌≡◌, ◌+◌, ◌<◌, [], ◌∷◌, ◌++◌, take, length, ◌==◌, OnOk, OnErr, IfOk, IfSome, IfNone, None, Some, slice_get, count_by, is_none, position, unwrap_or};
ghost use Rattle.std.specs.Str.{bytes_eq};
ghost use Rattle.pl_frame.specs.Categories.{code_of, dictionary_of};
ghost use Rattle.pl_frame.specs.Optional.{AreAllUtf8};
ghost use Rattle.pl_frame.specs.Translated.{AreTranslated};

use crate::data_type::copy_texts;
use crate::name::PlSmallStr;
use crate::numbers::Numbers;
use indexmap::IndexSet;
use std::alloc::{AllocError, Global};
use std::marker::Model;

/// A list of texts with nulls: each text once in a dictionary, in order of first appearance, and for each place the
/// number of its text there.
#[derive(Debug, Drop)]
pub struct Codes {
    codes: Numbers<u64>,
    dictionary: Vec<PlSmallStr>,
}

impl Model for Codes {
    ghost use Rattle.std.specs.Prelude.{ℕ, List, Option};
    ghost use Rattle.pl_frame.specs.Categories.{decoded, HaveDictionary};

    ghost Value = { List (Option (List ℕ)) };

    ghost view = { λ c. decoded c.dictionary.items c.codes };

    ghost invariant = { λ c. HaveDictionary c.dictionary.items c.codes };
}

#[tactic(auto, using(crate::proofs::CategoryLaws::coding))]
impl Codes {
    /// No texts, without taking memory.
    pub fn new(alloc: Global) -> Self
        ensures { result ≡ [] }
    {
        Codes {
            codes: Numbers::new(alloc),
            dictionary: Vec::new(alloc),
        }
    }

    /// How many texts there are, nulls among them, without taking memory.
    #[inline]
    pub fn len(&self) -> usize
        ensures len { result ≡ length self.now }
        ensures utf8 { AreAllUtf8 self.now }
    {
        self.codes.len()
    }

    /// Equal texts. Refuses only want of memory.
    pub fn try_clone(&self) -> Result<Self, AllocError>
        ensures { IfOk result (λ texts. texts ≡ self.now) }
    {
        let codes = self.codes.try_clone()?;
        match copy_texts(*self.dictionary.allocator(), &self.dictionary) {
            Ok(dictionary) => Ok(Codes { codes, dictionary }),
            Err(_) => Err(AllocError),
        }
    }

    /// The texts that occur, each once, in order of first appearance, without taking memory.
    #[inline]
    pub fn dictionary(&self) -> &[PlSmallStr]
        ensures { result.now ≡ dictionary_of self.now }
    {
        &self.dictionary
    }

    /// The place in the dictionary of the text at a place, or a null, without taking memory.
    #[inline]
    pub fn code(&self, i: usize) -> Option<u64>
        requires { i < length self.now }
        ensures code { result ≡ code_of (dictionary_of self.now) (unwrap_or (slice_get self.now i) None) }
        ensures null { is_none result ≡ is_none (unwrap_or (slice_get self.now i) None) }
    {
        self.codes.get(i)
    }

    /// The text at a place, or a null, without taking memory.
    #[inline]
    pub fn get(&self, i: usize) -> Option<&str>
        requires { i < length self.now }
        ensures null { IfNone result (slice_get self.now i ≡ Some None) }
        ensures text { IfSome result (λ text. slice_get self.now i ≡ Some (Some text.now)) }
    {
        match self.codes.get(i) {
            Some(code) => Some(self.dictionary[code as usize].as_str()),
            None => None,
        }
    }

    /// How many nulls there are, without taking memory.
    pub fn null_count(&self) -> usize
        ensures { result ≡ count_by is_none self.now }
    {
        self.codes.null_count()
    }

    // Makes room for so many more. Refuses only want of memory; the texts stay as they are.
    fn reserve(&mut self, additional: usize) -> Result<(), AllocError>
        ensures { self.new ≡ self.old }
    {
        self.codes.reserve(additional)
    }

    /// Keeps so many texts, or all if there are fewer, without taking memory. The dictionary loses the texts that only the
    /// others have.
    #[tactic(auto, using(crate::proofs::CutLaws::cut_codes))]
    pub fn truncate(&mut self, len: usize)
        ensures { self.new ≡ take len self.old }
    {
        let distinct = self.distinct_before(len);
        self.codes.truncate(len);
        self.dictionary.truncate(distinct);
    }

    // How many texts occur before a place: as each gets its code at its first appearance, one more than the greatest code.
    fn distinct_before(&self, len: usize) -> usize
        ensures { result ≡ length (dictionary_of (take len self.now)) }
    {
        let mut distinct: usize = 0;
        for i in 0..len.min(self.codes.len()) {
            distinct = self.distinct_with(distinct, i);
        }
        distinct
    }

    // How many texts occur up to a place, where so many occur before it.
    #[inline]
    fn distinct_with(&self, before: usize, i: usize) -> usize
        requires place { i < length self.now }
        requires before { before ≡ length (dictionary_of (take i self.now)) }
        ensures { result ≡ length (dictionary_of (take (i + 1) self.now)) }
    {
        match self.codes.get(i) {
            Some(code) if code as usize >= before => code as usize + 1,
            _ => before,
        }
    }

    // Puts a null at the end.
    #[inline]
    fn push_null(&mut self) -> Result<(), AllocError>
        ensures ok { OnOk result (self.new ≡ self.old ++ None ∷ []) }
        ensures err { OnErr result (self.new ≡ self.old) }
    {
        self.codes.push_null()
    }

    // Puts the text of a code at the end.
    #[inline]
    fn push_code(&mut self, code: usize, text: &str) -> Result<(), AllocError>
        requires { position (bytes_eq text.now) (dictionary_of self.old) ≡ Some code }
        ensures ok { OnOk result (self.new ≡ self.old ++ Some text.now ∷ []) }
        ensures err { OnErr result (self.new ≡ self.old) }
    {
        self.codes.push(code as u64)
    }

    // Puts a text at the end that is not in the dictionary.
    fn push_new(&mut self, text: &str) -> Result<(), AllocError>
        requires { position (bytes_eq text.now) (dictionary_of self.old) ≡ None }
        ensures ok { OnOk result (self.new ≡ self.old ++ Some text.now ∷ []) }
        ensures err { OnErr result (self.new ≡ self.old) }
    {
        let alloc = *self.dictionary.allocator();
        let Ok(name) = PlSmallStr::from_str(alloc, text) else {
            return Err(AllocError);
        };
        self.dictionary.reserve(1)?;
        let code = self.dictionary.len() as u64;
        self.codes.push(code)?;
        self.dictionary.push_reserved(name);
        Ok(())
    }
}

/// Texts and nulls, put one behind the other, and kept as codes. A text that occurred before is found by its hash.
#[derive(Debug, Drop)]
pub struct CodesBuilder {
    kept: Codes,
    places: IndexSet<String>,
}

impl Model for CodesBuilder {
    ghost use Rattle.std.specs.Prelude.{◌≡◌, ℕ, List, Option, map, string_bytes};
    ghost use Rattle.pl_frame.specs.Categories.{dictionary_of};

    ghost Value = { List (Option (List ℕ)) };

    ghost view = { λ b. b.kept };

    // The texts of the dictionary are also the keys of a set, which finds them.
    ghost invariant = { λ b. map string_bytes b.places.keys ≡ dictionary_of b.kept };
}

impl CodesBuilder {
    /// No texts, without taking memory.
    pub fn new(alloc: Global) -> Self
        ensures { result ≡ [] }
    {
        CodesBuilder {
            kept: Codes::new(alloc),
            places: IndexSet::new(alloc),
        }
    }

    /// How many texts there are, nulls among them, without taking memory.
    #[inline]
    pub fn len(&self) -> usize
        ensures { result ≡ length self.now }
    {
        self.kept.len()
    }

    /// Whether there are none, without taking memory.
    #[inline]
    pub fn is_empty(&self) -> bool
        ensures { result ≡ (length self.now == 0) }
    {
        self.kept.len() == 0
    }

    /// Puts a text at the end. Refuses only want of memory, and is then as it was.
    #[inline]
    pub fn push(&mut self, text: &str) -> Result<(), AllocError>
        ensures ok { OnOk result (self.new ≡ self.old ++ Some text.now ∷ []) }
        ensures err { OnErr result (self.new ≡ self.old) }
    {
        match self.places.get_index_of(text) {
            Some(code) => self.kept.push_code(code, text),
            None => self.push_new(text),
        }
    }

    // Puts a text at the end that did not occur.
    fn push_new(&mut self, text: &str) -> Result<(), AllocError>
        requires { position (bytes_eq text.now) (dictionary_of self.old) ≡ None }
        ensures ok { OnOk result (self.new ≡ self.old ++ Some text.now ∷ []) }
        ensures err { OnErr result (self.new ≡ self.old) }
    {
        let Ok(key) = String::from_str(*self.places.allocator(), text) else {
            return Err(AllocError);
        };
        let Ok(_) = self.places.insert(key) else {
            return Err(AllocError);
        };
        let pushed = self.kept.push_new(text);
        if pushed.is_err() {
            self.places.pop();
        }
        pushed
    }

    /// Puts a null at the end. Refuses only want of memory, and is then as it was.
    #[inline]
    pub fn push_null(&mut self) -> Result<(), AllocError>
        ensures ok { OnOk result (self.new ≡ self.old ++ None ∷ []) }
        ensures err { OnErr result (self.new ≡ self.old) }
    {
        self.kept.push_null()
    }

    /// Makes room for so many more. Refuses only want of memory; the texts stay as they are.
    pub fn reserve(&mut self, additional: usize) -> Result<(), AllocError>
        ensures { self.new ≡ self.old }
    {
        self.kept.reserve(additional)
    }

    /// Puts other texts behind these. Each text of their dictionary is looked up once, by its hash. Refuses only want of
    /// memory, and is then as it was.
    pub fn append(&mut self, other: &CodesBuilder) -> Result<(), AllocError>
        ensures ok { OnOk result (self.new ≡ self.old ++ other.now) }
        ensures err { OnErr result (self.new ≡ self.old) }
    {
        let len = self.kept.len();
        let appended = self.append_codes(&other.kept);
        if appended.is_err() {
            self.truncate(len);
        }
        appended
    }

    // Puts other texts behind these. After want of memory the first of them may stand there.
    pub(crate) fn append_codes(&mut self, other: &Codes) -> Result<(), AllocError>
        ensures ok { OnOk result (self.new ≡ self.old ++ other.now) }
        ensures err { OnErr result (take (length self.old) self.new ≡ self.old) }
    {
        self.kept.reserve(other.len())?;
        let mut translated = Vec::new(*self.places.allocator());
        translated.resize(other.dictionary().len(), None)?;
        for i in 0..other.len() {
            self.append_at(other, i, &mut translated)?;
        }
        Ok(())
    }

    // Puts the text of a place of others at the end. For each text of their dictionary that was put there before, the table
    // has its code here.
    #[inline]
    fn append_at(
        &mut self,
        other: &Codes,
        i: usize,
        translated: &mut [Option<usize>],
    ) -> Result<(), AllocError>
        requires place { i < length other.now }
        requires table { AreTranslated (dictionary_of self.old) (dictionary_of other.now) translated.old }
        ensures ok { OnOk result (self.new ≡ self.old ++ unwrap_or (slice_get other.now i) None ∷ []) }
        ensures err { OnErr result (self.new ≡ self.old) }
        ensures table { AreTranslated (dictionary_of self.new) (dictionary_of other.now) translated.new }
    {
        let Some(code) = other.code(i) else {
            return self.push_null();
        };
        let code = code as usize;
        let text = other.dictionary()[code].as_str();
        match translated[code] {
            Some(own) => self.push_known(own, text),
            None => {
                translated[code] = Some(self.push_coded(text)?);
                Ok(())
            }
        }
    }

    // Puts the text of a code at the end.
    #[inline]
    fn push_known(&mut self, code: usize, text: &str) -> Result<(), AllocError>
        requires { position (bytes_eq text.now) (dictionary_of self.old) ≡ Some code }
        ensures ok { OnOk result (self.new ≡ self.old ++ Some text.now ∷ []) }
        ensures err { OnErr result (self.new ≡ self.old) }
    {
        self.kept.push_code(code, text)
    }

    // Puts a text at the end, and answers its code.
    fn push_coded(&mut self, text: &str) -> Result<usize, AllocError>
        ensures ok { OnOk result (self.new ≡ self.old ++ Some text.now ∷ []) }
        ensures err { OnErr result (self.new ≡ self.old) }
        ensures code { IfOk result (λ code. position (bytes_eq text.now) (dictionary_of self.new) ≡ Some code) }
    {
        match self.places.get_index_of(text) {
            Some(code) => {
                self.push_known(code, text)?;
                Ok(code)
            }
            None => {
                let code = self.places.len();
                self.push_new(text)?;
                Ok(code)
            }
        }
    }

    /// Keeps so many texts, or all if there are fewer, without taking memory.
    pub fn truncate(&mut self, len: usize)
        ensures { self.new ≡ take len self.old }
    {
        self.kept.truncate(len);
        self.places.truncate(self.kept.dictionary().len());
    }

    /// The texts as codes, without taking memory.
    pub fn into_codes(self) -> Codes
        ensures { result ≡ self }
    {
        let CodesBuilder { kept, places: _ } = self;
        kept
    }
}
