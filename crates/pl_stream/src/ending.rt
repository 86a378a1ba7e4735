//! The records of an input that ended, of what is kept.
ghost use Rattle.std.specs.Prelude.{◌≡◌};
ghost use Rattle.std.specs.Option.{option_copied};
ghost use Rattle.pl_options.specs.Text.{marks_of, comment_of};
ghost use Rattle.pl_scan.specs.Start.{pass_items};
ghost use Rattle.pl_stream.specs.declared.place.Place.TheVariants as spot;
ghost use Rattle.pl_stream.specs.Stream.{data_at, behind_header, behind_items, behind_ends};

use crate::place::Place;
use pl_options::parse_options::CsvParseOptions;
use pl_options::read_options::CsvReadOptions;
use pl_read::preparing::keeps_ends;
use pl_scan::start;
use pl_scan::start::{behind_comments, data_of, skip_lines_naive, without_ends};

// What stands behind so many items, where there are so many.
fn pass_items<'a>(bytes: &'a [u8], options: &CsvParseOptions, count: usize) -> Option<&'a [u8]>
    ensures { option_copied result ≡ pass_items (marks_of options.now) (comment_of options.now) count bytes.now }
{
    start::behind_items(
        bytes,
        options.separator,
        options.quote_char,
        options.eol_char,
        options.comment_prefix.as_ref(),
        count,
    )
}

// The records behind the comments, the header and the items that are skipped behind it.
fn behind_header<'a>(bytes: &'a [u8], options: &CsvReadOptions) -> Option<&'a [u8]>
    ensures { option_copied result ≡ behind_header options.now bytes.now }
{
    let parse_options = &options.parse_options;
    let comment_prefix = parse_options.comment_prefix.as_ref();
    let rest = behind_comments(
        bytes,
        parse_options.separator,
        parse_options.quote_char,
        parse_options.eol_char,
        comment_prefix,
    );
    let rest = start::behind_header(
        rest,
        parse_options.separator,
        parse_options.quote_char,
        parse_options.eol_char,
        comment_prefix,
        options.has_header,
    );
    pass_items(rest, parse_options, options.skip_rows_after_header)
}

// The records behind so many items, and that.
fn behind_items<'a>(bytes: &'a [u8], options: &CsvReadOptions, count: usize) -> Option<&'a [u8]>
    ensures { option_copied result ≡ behind_items options.now count bytes.now }
{
    match pass_items(bytes, &options.parse_options, count) {
        Some(rest) => behind_header(rest, options),
        None => None,
    }
}

// The records behind leading line ends, unless these are kept, and that.
fn behind_ends<'a>(bytes: &'a [u8], options: &CsvReadOptions) -> Option<&'a [u8]>
    ensures { option_copied result ≡ behind_ends options.now bytes.now }
{
    if keeps_ends(options) {
        return behind_items(bytes, options, options.skip_rows);
    }
    let rest = without_ends(bytes, options.parse_options.eol_char);
    behind_items(rest, options, options.skip_rows)
}

// The records of an input that has its first byte.
fn data_from_start<'a>(bytes: &'a [u8], options: &CsvReadOptions) -> Option<&'a [u8]>
    ensures { option_copied result ≡ data_at options.now spot.Start bytes.now }
{
    let parse_options = &options.parse_options;
    data_of(
        bytes,
        parse_options.separator,
        parse_options.quote_char,
        parse_options.eol_char,
        keeps_ends(options),
        options.skip_lines,
        options.skip_rows,
        options.skip_rows_after_header,
        parse_options.comment_prefix.as_ref(),
        options.has_header,
    )
}

/// The records of what stands at a place, where there are as many items as are to be skipped.
pub(crate) fn data_at<'a>(
    bytes: &'a [u8],
    options: &CsvReadOptions,
    place: Place,
) -> Option<&'a [u8]>
    ensures { option_copied result ≡ data_at options.now place bytes.now }
{
    match place {
        Place::Start => data_from_start(bytes, options),
        Place::Lines(left) => {
            let rest = skip_lines_naive(bytes, options.parse_options.eol_char, left);
            behind_ends(rest, options)
        }
        Place::Ends => behind_ends(bytes, options),
        Place::Rows(left) => behind_items(bytes, options, left),
        Place::Header => behind_header(bytes, options),
        Place::Behind(left) => pass_items(bytes, &options.parse_options, left),
        Place::Records | Place::Full => Some(bytes),
    }
}
