//! The printed text, read back (RFC 4180).
ghost use Rattle.std.specs.Prelude.{◌≡◌, ◌++◌, ◌^◌, ◌<◌, ℕ, ◌≤◌, List, [], ◌∷◌, codes, length, map};
ghost use Rattle.std.specs.List.{AllByRecursion, flat_map};
ghost use Rattle.csv.specs.Reading.{records, default_config};
ghost use Rattle.cube_core.specs.Layout.{Layout, IsSchema, sample_layout};
ghost use Rattle.cube_core.specs.Cube.{AreRows};
ghost use Rattle.cube_laws.specs.Lines.{sample_row};
ghost use Rattle.cube_laws.specs.Told.{CanBePrinted};
ghost use Rattle.cube_merge.specs.Lawful.{IsLawfulRow};
ghost use Rattle.std.specs.Str.Parse.{digits_value};
ghost use Rattle.cube_core.specs.Text.{line, header_fields, row_fields, text_of_rows, units_text};
ghost use Rattle.cube_core.specs.declared.fact.Fact.{Fact};
ghost use Rattle.cube_core.specs.declared.key.Row.{Row};

/// The records of printed lines are the very fields that were printed, whatever bytes they hold, where each line
/// has a field (RFC 4180; a line of no field would read as one empty field).
pub fn lines_read_back()
    ensures { (lines : List (List (List ℕ))) →
        AllByRecursion (λ fields. 1 ≤ length fields) lines →
        records default_config (flat_map line lines) ≡ lines }
{}

/// The records of a printed cube are the fields of its header and of each of its rows (RFC 4180).
///
/// No byte order mark is taken off the start: the text may begin with one, as part of the first dimension's name,
/// and a reader that took it off would lose it.
pub fn cube_reads_back()
    ensures { (s : Layout) (facts : List Fact) (rows : List Row) →
        IsSchema s → AreRows s facts rows →
        records default_config (text_of_rows s rows) ≡ header_fields s ∷ map (row_fields s) rows }
{}

/// A row of a cube has a coordinate for each dimension, none of them the text that stands for null, a grouping set that
/// the schema keeps, and answers of the kinds of their aggregates, in their ranges, each mean and each variance in
/// lowest terms, values ascending, no least value above the greatest, those of a measure null, or no values, together,
/// where its count is 0, but for the variance of a sample, which may be null where the others aren't; and it counts a
/// fact, if it isn't the grand total; where the facts fit and can be counted, and no text is
/// counted (this project's choice).
pub fn rows_of_a_cube_are_of_its_schema()
    ensures { (s : Layout) (facts : List Fact) (rows : List Row) →
        CanBePrinted s facts → s.text_places ≡ [] → AreRows s facts rows →
        AllByRecursion (IsLawfulRow s) rows }
{}

/// Rows of a schema are told by their text: two lists of them that are printed alike are one list (RFC 4180; SQL:1999:
/// GROUPING tells ALL from null; the spellings of numbers are this project's choice).
pub fn rows_are_told_by_their_text()
    ensures { (s : Layout) (rows others : List Row) →
        IsSchema s → AllByRecursion (IsLawfulRow s) rows →
        AllByRecursion (IsLawfulRow s) others → text_of_rows s rows ≡ text_of_rows s others →
        rows ≡ others }
{}

/// A number of units of 10^-k is printed with k digits behind its point and some before it, and all of them are those of the
/// number of units (this project's choice).
pub fn printed_digits_are_of_the_units()
    ensures { (k n : ℕ) → 1 ≤ k → n < 10 ^ 64 →
        (whole : List ℕ) × (behind : List ℕ) × (units_text k n ≡ whole ++ 46 ∷ behind)
        × (1 ≤ length whole) × (length behind ≡ k) × (digits_value 10 (whole ++ behind) ≡ n) }
{}

/// The columns of the sample schema's header, and how null, counts, numbers and fractions are written (SQL:1999: GROUPING
/// columns; the spellings are this project's choice).
pub fn columns_and_answers_are_spelled_so()
    ensures header { text_of_rows sample_layout []
        ≡ codes "region,kind,grouping(region),grouping(kind),count(*),sum(amount),min(amount),max(amount),avg(amount)\n" }
    ensures row { row_fields sample_layout sample_row
        ≡ codes "north" ∷ codes "\\N" ∷ codes "\\N" ∷ codes "0" ∷ codes "0" ∷ codes "1"
        ∷ codes "12" ∷ codes "-305" ∷ codes "\\N" ∷ codes "-61/4" ∷ [] }
{}
