//! What the words mean, made by manual/make of docs/command-line.md.

/// A word, or a value in capitals, and what it means.
pub(crate) struct Meaning {
    pub word: &'static str,
    pub text: &'static str,
}

/// How the program is called, and what all words mean.
pub(crate) static ALL: &str =
    "pl_csv [words] < input > output\npl_csv multi [--slice=A-B] [words] -- PATH.. > output\npl_csv seek build K PATH [words] > index\npl_csv seek slice A L PATH INDEX [words] > output\npl_csv stream [words] < input > output\npl_csv help [word]\npl_csv version\n\nHow the input is read\n\n  --schema SCHEMA\n      the columns, with their types\n      left out: names and types are inferred (docs/types.md, \"Inference\")\n\n  --overwrite SCHEMA\n      names and types in place of inferred ones, by name or else by place\n      left out: the inferred ones stay\n\n  --infer NUM or all\n      from how many items types are inferred, or from all\n      left out: 100\n\n  --dates\n      dates, times and datetimes are inferred too\n      left out: such texts are strings\n\n  --allow-empty\n      an input without a record has no columns\n      left out: it is refused\n\n  --dtypes TYPE,..\n      the types of the first columns, in place of those in the schema, be it\n      given or inferred\n      left out: the types are those in the schema\n\n  --sep BYTE\n      the separator\n      left out: the comma\n\n  --quote BYTE or none\n      the quote; with none fields are not quoted\n      left out: \"\n\n  --eol BYTE\n      the line end\n      left out: the line feed\n\n  --comment TEXT\n      what a comment line begins with\n      left out: there are no comments\n\n  --skip-lines NUM\n      how many lines are skipped at the head\n      left out: 0\n\n  --skip-rows NUM\n      how many rows are skipped before the header\n      left out: 0\n\n  --skip-after NUM\n      how many rows are skipped after the header\n      left out: 0\n\n  --limit NUM\n      how many records are read\n      left out: all\n\n  --columns NAME,..\n      which columns are read\n      left out: all\n\n  --projection NUM,..\n      which columns are read, by their places in the schema, from 0\n      left out: all\n\n  --row-index NAME\n      the name of a column of row numbers, which stands in front\n      left out: there is none\n\n  --row-offset NUM\n      the number of the first row, of 1 to 20 digits up to\n      18446744073709551615; only beside --row-index\n      left out: 0\n\n  --workers NUM\n      how many threads read, and print the text; 64 at most, and fewer where\n      the address space is limited\n      left out: 4\n\n  --piece NUM\n      how many bytes of the data are taken at a time, about\n      left out: 262144\n\n  --no-header\n      the first record is data\n      left out: the first record is a header\n\n  --null TEXT\n      a field that is this text, with its quotes, means null in every column\n      left out: only a missing text is null\n\n  --nulls TEXT,..\n      a field that is one of these texts, with its quotes, means null in every\n      column\n      left out: only a missing text is null\n\n  --null-of NAME=TEXT,..\n      a field that is this text, with its quotes, means null in the column of\n      that name\n      left out: only a missing text is null\n\n  --lossy\n      parts of strings that are not UTF-8 are replaced\n      left out: they are a fault\n\n  --keep-missing\n      a missing text of a column of strings is the empty text\n      left out: it is null\n\n  --truncate\n      more fields than columns are passed over\n      left out: they are a fault\n\n  --ignore-errors\n      a cell without a value, or that is not UTF-8, is null\n      left out: it is a fault\n\nHow the output is written\n\n  --out-sep BYTE\n      the separator\n      left out: the comma\n\n  --out-quote BYTE\n      the quote\n      left out: \"\n\n  --out-null TEXT\n      the text of a null\n      left out: the empty text\n\n  --out-eol lf or crlf\n      what ends a line: a line feed, or a carriage return and a line feed\n      left out: the line feed\n\n  --style necessary, always, nonnumeric or never\n      when a cell is quoted\n      left out: necessary\n\n  --out-no-header\n      the line of the names is left out\n      left out: the names stand in the first line\n\n  --out-bom\n      a byte order mark stands in front\n      left out: there is none\n\n  --batch NUM\n      how many rows are a batch, 0 counting as 1; the output is the same\n      whatever the number\n      left out: 1024\n\nAn input that is made\n\n  --make NUM\n      an input of this number of rows, up to 1000000, is made and converted,\n      and one line tells its size; beside it only --workers and --piece may\n      stand\n      left out: standard input is converted\n\nValues\n\n  BYTE\n      one ASCII character, or x and two hexadecimal digits of either case. The\n      one character x is the byte x; x09 is the tab, xC3 the byte 195\n\n  NUM\n      1 to 18 decimal digits, of --row-offset up to 20, without a sign. Leading\n      zeros are allowed\n\n  TEXT\n      any text. A comment text of one ASCII character is that byte; any other\n      is compared as a whole\n\n  NAME\n      the name of a column\n\n  NAME=TEXT\n      cut at its first =; both may be empty, and a part without = has no\n      meaning\n\n  SCHEMA\n      entries NAME:TYPE with a comma between them. NAME holds no colon and no\n      comma, and may be empty. No name stands twice\n\n  TYPE\n      one of the words that are listed as types\n\n  ,..\n      a list, cut at each comma. A part may be empty: --nulls NA, gives the\n      texts NA and the empty one, and --columns a, the names a and the empty\n      one. A list of NUM or TYPE has no empty part, as none of them is empty\n\nTYPE\n\n  boolean\n      Boolean\n\n  int8, int16, int32, int64, int128\n      whole numbers with a sign, of 8 to 128 bits\n\n  uint8, uint16, uint32, uint64\n      whole numbers without a sign\n\n  string\n      String\n\n  category\n      Categorical\n\n  enum/A/B/..\n      Enum with the categories between the slashes, each of which may be empty\n\n  date, time\n      Date, Time\n\n  datetime/ms, datetime/us, datetime/ns\n      Datetime in milli-, micro- or nanoseconds\n\n  decimal/P/S, decimal/-/S\n      Decimal of the precision P, or of none, and the scale S; both of one or\n      two digits\n\n  enum, decimal, null\n      types that can't be read: the words have a meaning, and every input is\n      refused\n\nMany files\n\n  multi\n      files are read and joined; it is the first word\n      left out: standard input is read\n\n  --slice=A-B\n      of the rows of all files, numbered from 0, those from A on and before B,\n      both NUM; it is the first word behind multi\n      left out: all rows\n\n  --\n      behind it stand the paths; a path may be any text, also one that begins\n      with -\n      left out: the words have no meaning\n\nAn index\n\n  seek\n      an index of a file is built or used; it is the first word\n\n  build K PATH\n      behind seek: the index of the file at PATH is written, with the place of\n      every record whose number is a multiple of K; K is a NUM above 0\n\n  slice A L PATH INDEX\n      behind seek: of the file at PATH the records from the one with the number\n      A on, at most L, are written; INDEX is the path of its index. A and L are\n      NUM, and the first record has the number 0\n\nA stream\n\n  stream\n      each record is written as soon as its line end came; it is the first word\n";

/// What each word means.
pub(crate) static MEANINGS: [Meaning; 52] = [
    Meaning {
        word: "--schema",
        text: "  --schema SCHEMA\n      the columns, with their types\n      left out: names and types are inferred (docs/types.md, \"Inference\")\n",
    },
    Meaning {
        word: "--overwrite",
        text: "  --overwrite SCHEMA\n      names and types in place of inferred ones, by name or else by place\n      left out: the inferred ones stay\n",
    },
    Meaning {
        word: "--infer",
        text: "  --infer NUM or all\n      from how many items types are inferred, or from all\n      left out: 100\n",
    },
    Meaning {
        word: "--dates",
        text: "  --dates\n      dates, times and datetimes are inferred too\n      left out: such texts are strings\n",
    },
    Meaning {
        word: "--allow-empty",
        text: "  --allow-empty\n      an input without a record has no columns\n      left out: it is refused\n",
    },
    Meaning {
        word: "--dtypes",
        text: "  --dtypes TYPE,..\n      the types of the first columns, in place of those in the schema, be it\n      given or inferred\n      left out: the types are those in the schema\n",
    },
    Meaning {
        word: "--sep",
        text: "  --sep BYTE\n      the separator\n      left out: the comma\n",
    },
    Meaning {
        word: "--quote",
        text: "  --quote BYTE or none\n      the quote; with none fields are not quoted\n      left out: \"\n",
    },
    Meaning {
        word: "--eol",
        text: "  --eol BYTE\n      the line end\n      left out: the line feed\n",
    },
    Meaning {
        word: "--comment",
        text: "  --comment TEXT\n      what a comment line begins with\n      left out: there are no comments\n",
    },
    Meaning {
        word: "--skip-lines",
        text: "  --skip-lines NUM\n      how many lines are skipped at the head\n      left out: 0\n",
    },
    Meaning {
        word: "--skip-rows",
        text: "  --skip-rows NUM\n      how many rows are skipped before the header\n      left out: 0\n",
    },
    Meaning {
        word: "--skip-after",
        text: "  --skip-after NUM\n      how many rows are skipped after the header\n      left out: 0\n",
    },
    Meaning {
        word: "--limit",
        text: "  --limit NUM\n      how many records are read\n      left out: all\n",
    },
    Meaning {
        word: "--columns",
        text: "  --columns NAME,..\n      which columns are read\n      left out: all\n",
    },
    Meaning {
        word: "--projection",
        text: "  --projection NUM,..\n      which columns are read, by their places in the schema, from 0\n      left out: all\n",
    },
    Meaning {
        word: "--row-index",
        text: "  --row-index NAME\n      the name of a column of row numbers, which stands in front\n      left out: there is none\n",
    },
    Meaning {
        word: "--row-offset",
        text: "  --row-offset NUM\n      the number of the first row, of 1 to 20 digits up to\n      18446744073709551615; only beside --row-index\n      left out: 0\n",
    },
    Meaning {
        word: "--workers",
        text: "  --workers NUM\n      how many threads read, and print the text; 64 at most, and fewer where\n      the address space is limited\n      left out: 4\n",
    },
    Meaning {
        word: "--piece",
        text: "  --piece NUM\n      how many bytes of the data are taken at a time, about\n      left out: 262144\n",
    },
    Meaning {
        word: "--no-header",
        text: "  --no-header\n      the first record is data\n      left out: the first record is a header\n",
    },
    Meaning {
        word: "--null",
        text: "  --null TEXT\n      a field that is this text, with its quotes, means null in every column\n      left out: only a missing text is null\n",
    },
    Meaning {
        word: "--nulls",
        text: "  --nulls TEXT,..\n      a field that is one of these texts, with its quotes, means null in every\n      column\n      left out: only a missing text is null\n",
    },
    Meaning {
        word: "--null-of",
        text: "  --null-of NAME=TEXT,..\n      a field that is this text, with its quotes, means null in the column of\n      that name\n      left out: only a missing text is null\n",
    },
    Meaning {
        word: "--lossy",
        text: "  --lossy\n      parts of strings that are not UTF-8 are replaced\n      left out: they are a fault\n",
    },
    Meaning {
        word: "--keep-missing",
        text: "  --keep-missing\n      a missing text of a column of strings is the empty text\n      left out: it is null\n",
    },
    Meaning {
        word: "--truncate",
        text: "  --truncate\n      more fields than columns are passed over\n      left out: they are a fault\n",
    },
    Meaning {
        word: "--ignore-errors",
        text: "  --ignore-errors\n      a cell without a value, or that is not UTF-8, is null\n      left out: it is a fault\n",
    },
    Meaning {
        word: "--out-sep",
        text: "  --out-sep BYTE\n      the separator\n      left out: the comma\n",
    },
    Meaning {
        word: "--out-quote",
        text: "  --out-quote BYTE\n      the quote\n      left out: \"\n",
    },
    Meaning {
        word: "--out-null",
        text: "  --out-null TEXT\n      the text of a null\n      left out: the empty text\n",
    },
    Meaning {
        word: "--out-eol",
        text: "  --out-eol lf or crlf\n      what ends a line: a line feed, or a carriage return and a line feed\n      left out: the line feed\n",
    },
    Meaning {
        word: "--style",
        text: "  --style necessary, always, nonnumeric or never\n      when a cell is quoted\n      left out: necessary\n",
    },
    Meaning {
        word: "--out-no-header",
        text: "  --out-no-header\n      the line of the names is left out\n      left out: the names stand in the first line\n",
    },
    Meaning {
        word: "--out-bom",
        text: "  --out-bom\n      a byte order mark stands in front\n      left out: there is none\n",
    },
    Meaning {
        word: "--batch",
        text: "  --batch NUM\n      how many rows are a batch, 0 counting as 1; the output is the same\n      whatever the number\n      left out: 1024\n",
    },
    Meaning {
        word: "--make",
        text: "  --make NUM\n      an input of this number of rows, up to 1000000, is made and converted,\n      and one line tells its size; beside it only --workers and --piece may\n      stand\n      left out: standard input is converted\n",
    },
    Meaning {
        word: "BYTE",
        text: "  BYTE\n      one ASCII character, or x and two hexadecimal digits of either case. The\n      one character x is the byte x; x09 is the tab, xC3 the byte 195\n",
    },
    Meaning {
        word: "NUM",
        text: "  NUM\n      1 to 18 decimal digits, of --row-offset up to 20, without a sign. Leading\n      zeros are allowed\n",
    },
    Meaning {
        word: "TEXT",
        text: "  TEXT\n      any text. A comment text of one ASCII character is that byte; any other\n      is compared as a whole\n",
    },
    Meaning {
        word: "NAME",
        text: "  NAME\n      the name of a column\n",
    },
    Meaning {
        word: "NAME=TEXT",
        text: "  NAME=TEXT\n      cut at its first =; both may be empty, and a part without = has no\n      meaning\n",
    },
    Meaning {
        word: "SCHEMA",
        text: "  SCHEMA\n      entries NAME:TYPE with a comma between them. NAME holds no colon and no\n      comma, and may be empty. No name stands twice\n",
    },
    Meaning {
        word: "TYPE",
        text: "  TYPE\n      one of the words that are listed as types\n",
    },
    Meaning {
        word: ",..",
        text: "  ,..\n      a list, cut at each comma. A part may be empty: --nulls NA, gives the\n      texts NA and the empty one, and --columns a, the names a and the empty\n      one. A list of NUM or TYPE has no empty part, as none of them is empty\n",
    },
    Meaning {
        word: "multi",
        text: "  multi\n      files are read and joined; it is the first word\n      left out: standard input is read\n",
    },
    Meaning {
        word: "--slice=A-B",
        text: "  --slice=A-B\n      of the rows of all files, numbered from 0, those from A on and before B,\n      both NUM; it is the first word behind multi\n      left out: all rows\n",
    },
    Meaning {
        word: "--",
        text: "  --\n      behind it stand the paths; a path may be any text, also one that begins\n      with -\n      left out: the words have no meaning\n",
    },
    Meaning {
        word: "seek",
        text: "  seek\n      an index of a file is built or used; it is the first word\n",
    },
    Meaning {
        word: "build",
        text: "  build K PATH\n      behind seek: the index of the file at PATH is written, with the place of\n      every record whose number is a multiple of K; K is a NUM above 0\n",
    },
    Meaning {
        word: "slice",
        text: "  slice A L PATH INDEX\n      behind seek: of the file at PATH the records from the one with the number\n      A on, at most L, are written; INDEX is the path of its index. A and L are\n      NUM, and the first record has the number 0\n",
    },
    Meaning {
        word: "stream",
        text: "  stream\n      each record is written as soon as its line end came; it is the first word\n",
    },
];
