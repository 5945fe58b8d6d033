//! The commands of the command line: their words and options, and what their help says.

/// What the program does.
pub(crate) const ABOUT: &str = "\
Prints the data cube of feeds of facts: the aggregates of every group, over every choice of
dimensions. Each feed is a CSV file of inserts, updates and deletes; the cube is that of the facts
which are present in the end.";

/// The program's version, by the rules of Semantic Versioning 2.0.0. It stands here alone.
pub(crate) const VERSION: &str = "1.32.0";

/// The forms of a command line.
pub(crate) const USAGE: &str = "datacube < FEED
       datacube table [OPTIONS] FILE...
       datacube schema [OPTIONS] FILE
       datacube check SCHEMA
       datacube print [OPTIONS] SCHEMA FEED...
       datacube refusals [OPTIONS] SCHEMA FEED...
       datacube slice [OPTIONS] SCHEMA CELL FEED...
       datacube drill [OPTIONS] SCHEMA CELL DIM FEED...
       datacube rollup [OPTIONS] SCHEMA CELL DIM FEED...
       datacube live [OPTIONS] SCHEMA [FEED...]
       datacube merge [OPTIONS] SCHEMA CUBE...
       datacube explain [CODE...]";

/// What the help says below the commands.
pub(crate) const AFTER_HELP: &str = "\
Without a command, the feed on standard input is read under the sample schema (the
dimensions region and kind, the measure amount), and its cube goes to standard output:

  datacube < examples/first/feed.csv

Exit status:
  0  done
  1  a feed or a CUBE was refused, a run failed, or the writing failed
  2  the command line, CELL, DIM or CODE was refused
  3  the schema couldn't be read, or was refused
  4  done, but at least one line of a feed was refused (`datacube refusals` says which), or,
     in `live` or with --store, a change

A failure prints one line on standard error, `datacube: CODE`, and `datacube explain CODE`
says what the code means and how to mend it. On a terminal, and with --why, which each command
takes, more lines say where and why. Each command has its own `--help`.
docs/FORMATS.md describes the formats of schemas, feeds, cells and cubes.";

/// What the help of `table` says below its words.
const AFTER_TABLE: &str = "\
Each FILE is a CSV file with a header. The first one is looked at, its first 10,000 records or as
many as end within 16 MiB, and a schema is made of it, that `datacube schema` writes; all are read
by the names of its columns, each as a source of its own.

COLUMNS is one CSV record of columns of the header. For --by a column may have `:` and a number
behind it, for its first so many characters, and for --of `:` and its number of decimals:
  datacube table sales.csv
  datacube table --by city,when:7 --of price:2 sales.csv

What isn't given is guessed: measures are columns of numbers that are added, dimensions are dates,
by days and months, and columns of few different texts.

With --where only facts of which CONDITION holds are counted: a dimension or a measure, one of
`=`, `!=`, `<`, `<=`, `>` and `>=`, and a value; with `=` and `!=` several values, with commas
between them. \\N is null:
  --where city=York,Leeds --where 'price>=10' --where 'kind!=\\N'

Exit status: 0 done, 1 a run failed, 2 wrong words or `no columns`, 4 done, with lines refused.
`datacube explain CODE` explains what a failure prints.";

/// What the help of `schema` says below its words.
const AFTER_SCHEMA: &str = "\
The schema is made of the first 10,000 records of FILE, or of as many as end within 16 MiB, and of
COLUMNS. It may be changed and kept, for `datacube print` and the other commands:
  datacube schema sales.csv > sales.toml
  datacube print sales.toml sales.csv

COLUMNS is one CSV record of columns of the header. For --by a column may have `:` and a number
behind it, for its first so many characters, and for --of `:` and its number of decimals:
  datacube schema --by city,when:7 --of price:2 sales.csv

What isn't given is guessed: measures are columns of numbers that are added, dimensions are dates,
by days and months, and columns of few different texts. Each column that is left out stands in a
comment, with why.

Exit status: 0 done, 1 FILE couldn't be read, 2 wrong words or `no columns`.
`datacube explain CODE` explains what a failure prints.";

/// What the help of `print` says below its words.
const AFTER_PRINT: &str = "\
Each FEED is a source of its own, numbered from 1: the same id in two feeds names two facts.
With --partial each mean, variance, distinct count and percentile has beside it what it is
made of: `datacube merge` makes one cube of several that were printed so, each of other facts.

With --json each line is one of JSON, and with --aligned the columns are aligned, for people;
neither goes with the other or with --partial.

With --where only facts of which CONDITION holds are counted: a dimension or a measure, one of
`=`, `!=`, `<`, `<=`, `>` and `>=`, and a value; with `=` and `!=` several values, with commas
between them. \\N is null:
  --where city=York,Leeds --where 'price>=10' --where 'kind!=\\N'

With --store the changes that FILE keeps of `datacube live` come after the feeds, of which there
may be none then; FILE stays as it is.

Exit status: 0 done, 1 a run failed, 2 wrong words, 3 wrong schema, 4 done, with lines refused.
`datacube explain CODE` explains what a failure prints.";

/// What the help of a command with feeds says of them.
const AFTER_FEEDS: &str = "\
Each FEED is a source of its own, numbered from 1: the same id in two feeds names two facts.
With --store the changes that FILE keeps of `datacube live` come after the feeds, of which there
may be none then; FILE stays as it is.

Exit status: 0 done, 1 a run failed, 2 wrong words, 3 wrong schema, 4 done, with lines refused.
`datacube explain CODE` explains what a failure prints.";

/// What the help of `slice` says below its words.
const AFTER_SLICE: &str = "\
CELL is one CSV record with a field for each dimension of the schema, in their order:
  =TEXT  this text (`=` alone is the empty text)
  \\N     null
  \\A     ALL, the dimension is aggregated over
  ?      anything, ALL and null too

For the dimensions region and kind:
  datacube slice shop.toml '=west,?' feed.csv    every line of region west
  datacube slice shop.toml '?,\\A' feed.csv       every line that aggregates over kind

Put CELL in single quotes, so that the shell leaves it as it is.

With --json each line is one of JSON, and with --aligned the columns are aligned, for people;
neither goes with the other.

With --where only facts of which CONDITION holds are counted: a dimension or a measure, one of
`=`, `!=`, `<`, `<=`, `>` and `>=`, and a value; with `=` and `!=` several values, with commas
between them. \\N is null:
  --where city=York,Leeds --where 'price>=10' --where 'kind!=\\N'

With --store the changes that FILE keeps of `datacube live` come after the feeds, of which there
may be none then; FILE stays as it is.

Exit status: 0 done, 1 a run failed, 2 wrong words, 3 wrong schema, 4 done, with lines refused.
`datacube explain CODE` explains what a failure prints.";

/// What the help of `drill` says below its words.
const AFTER_DRILL: &str = "\
CELL is one CSV record with a field for each dimension of the schema, in their order:
  =TEXT  this text (`=` alone is the empty text)
  \\N     null
  \\A     ALL, the dimension is aggregated over
It has to be ALL in the dimension DIM, and the lines that are printed have each value there.

For the dimensions region and kind:
  datacube drill shop.toml '=west,\\A' kind feed.csv    region west, kind by kind
  datacube drill shop.toml '\\A,\\A' region feed.csv     the grand total, region by region

Put CELL in single quotes, so that the shell leaves it as it is.

With --json each line is one of JSON, and with --aligned the columns are aligned, for people;
neither goes with the other.

With --where only facts of which CONDITION holds are counted: a dimension or a measure, one of
`=`, `!=`, `<`, `<=`, `>` and `>=`, and a value; with `=` and `!=` several values, with commas
between them. \\N is null:
  --where city=York,Leeds --where 'price>=10' --where 'kind!=\\N'

With --store the changes that FILE keeps of `datacube live` come after the feeds, of which there
may be none then; FILE stays as it is.

Exit status: 0 done, 1 a run failed, 2 wrong words, 3 wrong schema, 4 done, with lines refused.
`datacube explain CODE` explains what a failure prints.";

/// What the help of `rollup` says below its words.
const AFTER_ROLLUP: &str = "\
CELL is one CSV record with a field for each dimension of the schema, in their order:
  =TEXT  this text (`=` alone is the empty text)
  \\N     null
  \\A     ALL, the dimension is aggregated over
The line that is printed has ALL in the dimension DIM, where CELL may have it already, and
what CELL has in the others.

For the dimensions region and kind:
  datacube rollup shop.toml '=west,=tea' kind feed.csv    region west, over all kinds
  datacube rollup shop.toml '=west,\\A' region feed.csv    the grand total

Put CELL in single quotes, so that the shell leaves it as it is.

With --json each line is one of JSON, and with --aligned the columns are aligned, for people;
neither goes with the other.

With --where only facts of which CONDITION holds are counted: a dimension or a measure, one of
`=`, `!=`, `<`, `<=`, `>` and `>=`, and a value; with `=` and `!=` several values, with commas
between them. \\N is null:
  --where city=York,Leeds --where 'price>=10' --where 'kind!=\\N'

With --store the changes that FILE keeps of `datacube live` come after the feeds, of which there
may be none then; FILE stays as it is.

Exit status: 0 done, 1 a run failed, 2 wrong words, 3 wrong schema, 4 done, with lines refused.
`datacube explain CODE` explains what a failure prints.";

/// What the help of `live` says below its words.
const AFTER_LIVE: &str = "\
The feeds are read first; then each CSV record on standard input, which has no header, is a
change or a question:
  SOURCE,RECORD...           a data record of a feed, as a change of source SOURCE, 1 to 64
  print                      the whole cube
  slice,FIELD...             the lines that CELL matches, whose fields these are
  drill,DIM,FIELD...         the lines one step below CELL along DIM
  rollup,DIM,FIELD...        the line one step above CELL along DIM
  refusals                   the refused lines of all sources so far
  refusals,SOURCE,RECORD     those of this source after this record, 0 for all of it
  sync                       nothing: all before it is taken, and certain in the store

For the dimensions region and kind:
  3,I,a7,west,tea,2          source 3 inserts the fact a7
  slice,=west,?              every line of region west

A change has no answer. A question is answered before the next record is read: by `ok N`, a
line end and N bytes, the text that the command of that name prints; or by a code alone.

With --store each change is kept in FILE, a SQLite database that is made where it isn't there:
all changes before an answer are certain once a byte of it is out, whatever ends the program.
The next start with this FILE, this SCHEMA and these feeds takes the kept changes after the
feeds, and goes on from there. One program at a time has it open; its codes are D1 to D9.

Exit status: 0 done, 1 it failed, 2 wrong words, 3 wrong schema, 4 done, with lines of feeds
or changes refused. `datacube explain CODE` explains a code.";

/// What the help of `merge` says below its words.
const AFTER_MERGE: &str = "\
Each CUBE was printed by `print --partial` or `merge --partial` under the same schema, and its
facts count in full: no two may share facts. A path may not stand twice; at most 64 are taken.
With --partial what is printed can be merged again, so that merges nest to any depth.

Lines are printed as the cubes are read, and a fault further down leaves them printed, with
exit status 1. With --check all cubes are read to their ends before the first line is printed.

For two feeds on two machines:
  datacube print --partial shop.toml east.csv > east.cube
  datacube print --partial shop.toml west.csv > west.cube
  datacube merge shop.toml east.cube west.cube

Exit status: 0 done, 1 a cube is at fault (as `datacube explain M5` says), 2 wrong words,
3 wrong schema.";

/// What the help of `explain` says below its word.
const AFTER_EXPLAIN: &str = "\
CODE is what stands on standard error, as S4, 'G3 1 F3' or 'feed 2 unreadable', with or without
`datacube: ` before it, a code that `live` answers, as Q1, or a number in the last column of
`datacube refusals`, as 6. It may be several words:
  datacube explain datacube: G3 1 F3

Without it, all codes are explained.

Exit status: 0 done, 2 there is no such code.";

/// How a word or an option is given.
pub(crate) enum Form<'a> {
    /// One word.
    One,
    /// At least one word, where there are any.
    Several,
    /// An option without a value.
    Flag,
    /// An option whose value may be any text, and what the help calls that.
    Text(&'a str),
    /// An option that may be given several times, each time with any text, and what the help calls that.
    Texts(&'a str),
    /// An option whose value is a number from 1 to this bound, and its default, if it has one.
    Number(u64, &'a [&'a str]),
    /// An option whose value is a number from the first bound to the second.
    Between(u64, u64),
}

/// A word or an option of a command.
pub(crate) struct Word<'a> {
    /// What it is called.
    pub(crate) name: &'a str,
    /// How it is given.
    pub(crate) form: Form<'a>,
    /// Whether it has to be there.
    pub(crate) is_needed: bool,
    /// What the help says of it.
    pub(crate) help: &'a str,
}

/// A command.
pub(crate) struct Line<'a> {
    /// What it is called.
    pub(crate) name: &'a str,
    /// What it does.
    pub(crate) about: &'a str,
    /// What its help says below its words, if anything.
    pub(crate) after: Option<&'a str>,
    /// Its words and options.
    pub(crate) words: &'a [Word<'a>],
    /// Whether the feeds and the options of a run come behind these.
    pub(crate) is_run: bool,
    /// Its options behind those.
    pub(crate) options: &'a [Word<'a>],
}

// The schema file.
const SCHEMA: Word = Word {
    name: "SCHEMA",
    form: Form::One,
    is_needed: true,
    help: "The schema file: TOML, at most 1048576 bytes",
};

// The columns that are dimensions.
const BY: Word = Word {
    name: "by",
    form: Form::Text("COLUMNS"),
    is_needed: false,
    help: "The columns that are dimensions, 1 to 8, with `:` and a number the first so many characters; guessed where left out",
};

// The columns that are measures.
const OF: Word = Word {
    name: "of",
    form: Form::Text("COLUMNS"),
    is_needed: false,
    help: "The columns that are measures, 1 to 4, with `:` and a number that many decimals; guessed where left out",
};

// The number of builders.
const BUILDERS: Word = Word {
    name: "builders",
    form: Form::Number(8, &["1"]),
    is_needed: false,
    help: "How many threads build the cube, 1 to 8; what is printed is the same",
};

// The capacity of the rings.
const RING: Word = Word {
    name: "ring",
    form: Form::Number(65536, &["64"]),
    is_needed: false,
    help: "How many lots of records may wait between a feed and a builder, 1 to 65536; fewer than 64 are of one record each",
};

// The share of the feeds that is read.
const SHARD: Word = Word {
    name: "shard",
    form: Form::Text("J/N"),
    is_needed: false,
    help: "Reads only the lines whose id is in share J of N, N up to 65536; the prints of all shares, made with --partial, merge to the whole",
};

// How many bytes a record of a feed may have.
const MAX_RECORD: Word = Word {
    name: "max-record",
    form: Form::Text("SIZE"),
    is_needed: false,
    help: "How many bytes a record of a feed may have before its line end, as 500, 64K, 1M or 2G, 1024G at most; a longer one is the fault F6. Where left out 1M with columns by name, else as many as there are",
};

// The number of threads.
const THREADS: Word = Word {
    name: "threads",
    form: Form::Number(16, &[]),
    is_needed: false,
    help: "How many threads, 1 to 16, fill, sort and print the cube, and for one builder take the feeds, 8 at most; where left out as many as the machine has, in live half as many more, and at most 16",
};

// For no progress.
const QUIET: Word = Word {
    name: "quiet",
    form: Form::Flag,
    is_needed: false,
    help: "Shows no progress on standard error, where that is a terminal",
};

// For more lines where a command fails.
const WHY: Word = Word {
    name: "why",
    form: Form::Flag,
    is_needed: false,
    help: "Says more where it fails: the file, the line, the column, the value, what was wanted and how to mend it; on a terminal it does so anyway",
};

// A condition for facts.
const WHERE: Word = Word {
    name: "where",
    form: Form::Texts("CONDITION"),
    is_needed: false,
    help: "Counts only facts of which CONDITION holds, as city=York,Leeds or 'price>=10'; where it is given several times, of which all hold",
};

// For refused lines that are failures.
const STRICT: Word = Word {
    name: "strict",
    form: Form::Flag,
    is_needed: false,
    help: "Fails where a line is refused, and writes nothing then",
};

// How many cells the cube may have.
const MAX_CELLS: Word = Word {
    name: "max-cells",
    form: Form::Text("N"),
    is_needed: false,
    help: "Fails where the whole cube has more than N cells, and writes nothing then; N is 1 to 9223372036854775807",
};

// For a store of which nothing is supposed after a torn write.
const WARY: Word = Word {
    name: "wary",
    form: Form::Flag,
    is_needed: false,
    help: "Supposes nothing of what a torn write leaves of the store, and syncs twice a commit; does nothing without --store",
};

// For lines of JSON.
const JSON: Word = Word {
    name: "json",
    form: Form::Flag,
    is_needed: false,
    help: "Writes a line of JSON for each line of the cube",
};

// For aligned columns.
const ALIGNED: Word = Word {
    name: "aligned",
    form: Form::Flag,
    is_needed: false,
    help: "Writes columns that are aligned, to be read by people; means are rounded",
};

// The most columns that an aligned line takes.
const WIDTH: Word = Word {
    name: "width",
    form: Form::Between(20, 10000),
    is_needed: false,
    help: "How many columns a line takes at most, 20 to 10000; where left out as many as COLUMNS says, on a terminal; does nothing without --aligned",
};

/// The feeds and the options of a run.
pub(crate) const RUN_WORDS: [Word; 10] = [
    Word {
        name: "FEED",
        form: Form::Several,
        is_needed: false,
        help: "The feeds: CSV files, 1 to 64; with --store none to 64",
    },
    RING,
    SHARD,
    MAX_RECORD,
    BUILDERS,
    THREADS,
    QUIET,
    WHY,
    Word {
        name: "store",
        form: Form::Text("FILE"),
        is_needed: false,
        help: "Takes the changes that this file keeps of `datacube live` after the feeds, and changes none",
    },
    WARY,
];

/// The commands over files of people's own, whose schema is made.
pub(crate) const OWN_FILES: [Line; 2] = [
    Line {
        name: "table",
        about: "Prints the whole cube of CSV files without a schema, by the names of their columns",
        after: Some(AFTER_TABLE),
        words: &[
            Word {
                name: "FILE",
                form: Form::Several,
                is_needed: true,
                help: "The files: CSV with a header, 1 to 64",
            },
            BY,
            OF,
            RING,
            SHARD,
            MAX_RECORD,
            BUILDERS,
            THREADS,
            QUIET,
            WHY,
        ],
        is_run: false,
        options: &[JSON, ALIGNED, WIDTH, WHERE, STRICT, MAX_CELLS],
    },
    Line {
        name: "schema",
        about: "Writes a schema that reads a CSV file by the names of its columns",
        after: Some(AFTER_SCHEMA),
        words: &[
            Word {
                name: "FILE",
                form: Form::One,
                is_needed: true,
                help: "The file: CSV with a header",
            },
            BY,
            OF,
            WHY,
        ],
        is_run: false,
        options: &[],
    },
];

/// The commands that say whether a schema is right, what its cube is and what is refused.
pub(crate) const PRINTS: [Line; 3] = [
    Line {
        name: "check",
        about: "Says whether a schema file is right: `ok`, or the code of its first fault",
        after: None,
        words: &[SCHEMA, WHY],
        is_run: false,
        options: &[],
    },
    Line {
        name: "print",
        about: "Prints the whole cube of all feeds, as CSV",
        after: Some(AFTER_PRINT),
        words: &[SCHEMA],
        is_run: true,
        options: &[
            Word {
                name: "partial",
                form: Form::Flag,
                is_needed: false,
                help: "With what means, variances, distinct counts and percentiles are made of too, so that cubes can be merged",
            },
            JSON,
            ALIGNED,
            WIDTH,
            WHERE,
            STRICT,
            MAX_CELLS,
        ],
    },
    Line {
        name: "refusals",
        about: "Lists the refused lines of all feeds, as CSV: source, record, code",
        after: Some(AFTER_FEEDS),
        words: &[SCHEMA],
        is_run: true,
        options: &[],
    },
];

/// The commands for parts of a cube.
pub(crate) const VIEWS: [Line; 3] = [
    Line {
        name: "slice",
        about: "Prints the lines of the cube that CELL matches, as CSV",
        after: Some(AFTER_SLICE),
        words: &[
            SCHEMA,
            Word {
                name: "CELL",
                form: Form::One,
                is_needed: true,
                help: "What the lines have in each dimension, as '=west,?'; see below",
            },
        ],
        is_run: true,
        options: &[JSON, ALIGNED, WIDTH, WHERE, STRICT, MAX_CELLS],
    },
    Line {
        name: "drill",
        about: "Prints the lines one step below CELL: those with each value of dimension DIM, as CSV",
        after: Some(AFTER_DRILL),
        words: &[
            SCHEMA,
            Word {
                name: "CELL",
                form: Form::One,
                is_needed: true,
                help: "The line to start from, as '=west,\\A'; see below",
            },
            Word {
                name: "DIM",
                form: Form::One,
                is_needed: true,
                help: "The name of the dimension to drill down along",
            },
        ],
        is_run: true,
        options: &[JSON, ALIGNED, WIDTH, WHERE, STRICT, MAX_CELLS],
    },
    Line {
        name: "rollup",
        about: "Prints the line one step above CELL: the one with ALL in dimension DIM, as CSV",
        after: Some(AFTER_ROLLUP),
        words: &[
            SCHEMA,
            Word {
                name: "CELL",
                form: Form::One,
                is_needed: true,
                help: "The line to start from, as '=west,=tea'; see below",
            },
            Word {
                name: "DIM",
                form: Form::One,
                is_needed: true,
                help: "The name of the dimension to roll up along",
            },
        ],
        is_run: true,
        options: &[JSON, ALIGNED, WIDTH, WHERE, STRICT, MAX_CELLS],
    },
];

/// The commands for sessions, for printed cubes and for codes.
pub(crate) const SESSIONS: [Line; 3] = [
    Line {
        name: "live",
        about: "Keeps the cube right change by change, and answers questions in between",
        after: Some(AFTER_LIVE),
        words: &[
            SCHEMA,
            Word {
                name: "FEED",
                form: Form::Several,
                is_needed: false,
                help: "The feeds that are read first: CSV files, none to 64",
            },
            RING,
            SHARD,
            MAX_RECORD,
            THREADS,
            QUIET,
            WHY,
            Word {
                name: "store",
                form: Form::Text("FILE"),
                is_needed: false,
                help: "Keeps each change in this file before an answer shows it, and begins with those it has",
            },
            WARY,
            Word {
                name: "commit-every",
                form: Form::Number(1_000_000, &["10000"]),
                is_needed: false,
                help: "How many changes wait for a commit at most, 1 to 1000000; where the input rests, and before an answer, none do; does nothing without --store",
            },
        ],
        is_run: false,
        options: &[],
    },
    Line {
        name: "merge",
        about: "Prints the cube of all the facts of printed cubes, as CSV",
        after: Some(AFTER_MERGE),
        words: &[
            SCHEMA,
            Word {
                name: "CUBE",
                form: Form::Several,
                is_needed: true,
                help: "The cubes: files that were printed with --partial, 1 to 64",
            },
            Word {
                name: "partial",
                form: Form::Flag,
                is_needed: false,
                help: "Writes the partial form again, so that what is printed can be merged too",
            },
            Word {
                name: "check",
                form: Form::Flag,
                is_needed: false,
                help: "Reads all cubes to their ends before it writes",
            },
            QUIET,
            WHY,
        ],
        is_run: false,
        options: &[],
    },
    Line {
        name: "explain",
        about: "Says what a code means, what causes it, and how to mend it",
        after: Some(AFTER_EXPLAIN),
        words: &[
            Word {
                name: "CODE",
                form: Form::Several,
                is_needed: false,
                help: "The code, as S4, or what a failure printed, as G3 1 F3; all codes where it is left out",
            },
            WHY,
        ],
        is_run: false,
        options: &[],
    },
];
