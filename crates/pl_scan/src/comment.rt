//! Comment prefixes.
ghost use Rattle.std.specs.Prelude.{◌≡◌, ◌↔◌, IsTrue, IfOk, IsOkUnless, Some, nat_eq, not, ◌==◌};
ghost use Rattle.std.specs.List.{starts_with, list_all};
ghost use Rattle.pl_frame.specs.Dialect.{IsCommentPrefix};
ghost use Rattle.pl_frame.specs.declared.error.PolarsError.TheVariants as error;
ghost use Rattle.pl_scan.specs.declared.comment.CommentPrefix.TheVariants.{Single, Multi};
ghost use Rattle.pl_scan.specs.Comment.{prefix_bytes, prefix_of, prefix_from, is_comment};

use pl_frame::error::PolarsResult;
use pl_frame::name::PlSmallStr;
use std::alloc::Global;

/// What a comment begins with.
#[derive(Debug, Drop, PartialEq, Eq)]
pub enum CommentPrefix {
    /// This byte.
    Single(u8),
    /// This text.
    Multi(PlSmallStr),
}

// Whether no byte of the text is this one.
fn lacks(text: &[u8], byte: u8) -> bool
    ensures { result ≡ list_all (λ x. not (x == byte)) text.now }
{
    text.iter().all(|x| *x != byte)
}

impl CommentPrefix {
    /// A prefix of one byte.
    pub fn new_single(prefix: u8) -> Self
        ensures { result ≡ Single prefix }
    {
        CommentPrefix::Single(prefix)
    }

    /// A prefix of any length, without taking memory.
    pub fn new_multi(prefix: PlSmallStr) -> Self
        ensures { result ≡ Multi prefix }
    {
        CommentPrefix::Multi(prefix)
    }

    /// One ASCII byte gives `Single`, any other text `Multi`. Refuses only want of memory.
    pub fn new_from_str(alloc: Global, prefix: &str) -> PolarsResult<CommentPrefix>
        ensures made { IfOk result (λ made. made ≡ prefix_from prefix.now) }
        ensures refused { IsOkUnless result error.OutOfMemory }
    {
        match prefix.as_bytes() {
            [byte] if byte.is_ascii() => Ok(CommentPrefix::Single(*byte)),
            _ => Ok(CommentPrefix::Multi(PlSmallStr::from_str(alloc, prefix)?)),
        }
    }

    /// An equal prefix. Refuses only want of memory.
    pub fn try_clone(&self) -> PolarsResult<CommentPrefix>
        ensures equal { IfOk result (λ prefix. prefix ≡ self.now) }
        ensures refused { IsOkUnless result error.OutOfMemory }
    {
        Ok(match self {
            CommentPrefix::Single(byte) => CommentPrefix::Single(*byte),
            CommentPrefix::Multi(text) => CommentPrefix::Multi(text.try_clone()?),
        })
    }

    /// Whether the line begins with the prefix.
    pub fn is_prefix_of(&self, line: &[u8]) -> bool
        ensures { result ≡ starts_with nat_eq line.now (prefix_bytes self.now) }
    {
        match self {
            CommentPrefix::Single(byte) => line.starts_with(&[*byte]),
            CommentPrefix::Multi(text) => line.starts_with(text.as_str().as_bytes()),
        }
    }

    /// Whether the prefix has bytes, but not the line end.
    pub fn is_valid_for(&self, eol_char: u8) -> bool
        ensures { IsTrue result ↔ IsCommentPrefix eol_char (Some (prefix_bytes self.now)) }
    {
        match self {
            CommentPrefix::Single(byte) => *byte != eol_char,
            CommentPrefix::Multi(text) => {
                let bytes = text.as_str().as_bytes();
                !bytes.is_empty() && lacks(bytes, eol_char)
            }
        }
    }
}

/// Whether the line begins with the comment prefix, where there is one.
pub fn is_comment_line(line: &[u8], comment_prefix: Option<&CommentPrefix>) -> bool
    ensures { result ≡ is_comment (prefix_of comment_prefix.entry) line.now }
{
    match comment_prefix {
        Some(prefix) => prefix.is_prefix_of(line),
        None => false,
    }
}
