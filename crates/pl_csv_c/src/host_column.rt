//! Columns of the host's own, and what their rows hold.
ghost use Rattle.std.specs.Prelude.{◌≡◌, ◌+◌, ◌*◌, ◌^◌, option_map};
ghost use Rattle.std.specs.Int.{cast_signed, w128};
ghost use Rattle.pl_csv_c.specs.HostColumns.{checked_text, is_set, number_at, wide_at, text_at, category_at};

use pl_cells::utf8::validate_utf8;

/// A column of the host's own, or a view of one: `struct pl_csv_column` of the header, which says what stands in which array.
#[repr(C)]
#[derive(Drop)]
pub struct HostColumn<'a> {
    pub name: &'a [u8],
    pub dtype: u32,
    pub unit: u32,
    pub precision: u32,
    pub scale: u32,
    pub present: &'a [bool],
    pub numbers: &'a [i64],
    pub words: &'a [u64],
    pub ends: &'a [usize],
    pub bytes: &'a [u8],
    pub categories: &'a [&'a [u8]],
    pub null_count: usize,
}

/// Bytes as a text, where they are UTF-8.
#[inline]
pub(crate) fn checked_text(bytes: &[u8]) -> Option<&str>
    ensures { option_map (λ text. text.now) result ≡ checked_text bytes.now }
{
    if validate_utf8(bytes) {
        Some(unsafe { str::from_utf8_unchecked(bytes) })
    } else {
        None
    }
}

// The number of two words of 64 bits, the low one first, by two's complement.
#[inline]
fn two_words(low: u64, high: u64) -> i128
    ensures { result ≡ cast_signed w128 (high * 2 ^ 64 + low) }
{
    let number = u128::from(high) * 0x1_0000_0000_0000_0000 + u128::from(low);
    number.cast_signed()
}

/// Whether the flag of a row says that it has a value.
#[inline]
pub(crate) fn is_set(column: &HostColumn<'_>, row: usize) -> bool
    ensures { result ≡ is_set column.now row }
{
    match column.present.get(row) {
        Some(set) => *set,
        None => false,
    }
}

/// The number of a row, in 64 bits.
#[inline]
pub(crate) fn number_at(column: &HostColumn<'_>, row: usize) -> Option<i64>
    ensures { result ≡ number_at column.now row }
{
    match column.numbers.get(row) {
        Some(number) => Some(*number),
        None => None,
    }
}

/// The number of a row, in two words of 64 bits.
#[inline]
pub(crate) fn wide_at(column: &HostColumn<'_>, row: usize) -> Option<i128>
    ensures { result ≡ wide_at column.now row }
{
    if row < column.words.len() / 2 {
        Some(two_words(column.words[2 * row], column.words[2 * row + 1]))
    } else {
        None
    }
}

/// The text of a row.
#[inline]
pub(crate) fn text_at<'a>(column: &HostColumn<'a>, row: usize) -> Option<&'a str>
    ensures { option_map (λ text. text.now) result ≡ text_at column.now row }
{
    let ends = column.ends;
    if ends.len() < 2 || row > ends.len() - 2 {
        return None;
    }
    let begin = ends[row];
    let end = ends[row + 1];
    if begin <= end && end <= column.bytes.len() {
        checked_text(&column.bytes[begin..end])
    } else {
        None
    }
}

/// The category that the number of a row names.
#[inline]
pub(crate) fn category_at<'a>(column: &HostColumn<'a>, row: usize) -> Option<&'a str>
    ensures { option_map (λ text. text.now) result ≡ category_at column.now row }
{
    let place = usize::try_from(number_at(column, row)?).ok()?;
    checked_text(column.categories.get(place)?)
}
