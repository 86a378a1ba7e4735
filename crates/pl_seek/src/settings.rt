//! What of the options of a read tells where its records begin.

/// What of the options of a read tells where its records begin, beside the comment prefix.
#[derive(Clone, Copy, Debug, Drop, PartialEq, Eq)]
pub struct Settings {
    /// What stands between two fields.
    pub separator: u8,
    /// What a quoted field begins and ends with; `None` where fields are not quoted.
    pub quote_char: Option<u8>,
    /// What ends a record.
    pub eol_char: u8,
    /// Whether the first record is a header.
    pub has_header: bool,
    /// Whether line ends in front of the first record are kept.
    pub keep_ends: bool,
    /// How many items are skipped in front of the header.
    pub skip_rows: usize,
    /// How many lines are skipped before anything else.
    pub skip_lines: usize,
    /// How many records are skipped behind the header.
    pub skip_rows_after_header: usize,
}
