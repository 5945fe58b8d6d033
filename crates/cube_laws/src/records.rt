//! Lines of fields, and the records that a text has (RFC 4180).
ghost use Rattle.std.specs.Prelude.{◌≡◌, ◌≢◌, ℕ, ◌+◌, ◌≤◌, List, [], ◌∷◌, ◌++◌, codes, length};
ghost use Rattle.std.specs.List.{AllByRecursion, AllZip, flat_map};
ghost use Rattle.csv.specs.Reading.{records, default_config};
ghost use Rattle.cube_core.specs.Records.{records_of};
ghost use Rattle.cube_core.specs.Text.{line};
ghost use Rattle.cube_laws.specs.Lines.{EndsLine, IsEnded, IsPlain, IsUnended};

/// A field without a comma, a quote, CR or LF stands in a line as it is, without quotes: a line of such fields is these, a
/// comma before each but the first, and LF, unless it has one empty field alone, which is written as two quotes (RFC 4180).
pub fn plain_fields_stand_as_they_are()
    ensures plain { (first : List ℕ) (others : List (List ℕ)) →
        IsPlain first → AllByRecursion IsPlain others → 1 ≤ length first + length others →
        line (first ∷ others) ≡ (first ++ flat_map (λ field. 44 ∷ field) others) ++ 10 ∷ [] }
    ensures empty { line ([] ∷ []) ≡ 34 ∷ 34 ∷ 10 ∷ [] }
{}

/// Lines of fields read as these, whether LF, CRLF or CR ends each; blank lines, also before the first, are no records; and the
/// last record may lack its end (RFC 4180; that CR alone ends a record and that blank lines are none is this project's
/// choice, as `csv` reads).
pub fn line_ends_are_alike()
    ensures ended { (lines : List (List (List ℕ))) (blank : List ℕ) (texts : List (List ℕ)) →
        AllByRecursion EndsLine blank → AllZip IsEnded lines texts →
        records default_config (blank ++ flat_map (λ text. text) texts) ≡ lines }
    ensures unended { (lines : List (List (List ℕ))) (blank : List ℕ) (texts : List (List ℕ))
        (fields : List (List ℕ)) (last : List ℕ) →
        AllByRecursion EndsLine blank → AllZip IsEnded lines texts → IsUnended fields last →
        records default_config (blank ++ (flat_map (λ text. text) texts ++ last)) ≡ lines ++ fields ∷ [] }
{}

/// One byte order mark at the start of a text is left out, and nothing of a text that begins otherwise (this project's choice).
pub fn byte_order_mark_is_left_out()
    ensures mark { (text : List ℕ) → records_of (0xEF ∷ 0xBB ∷ 0xBF ∷ text) ≡ records default_config text }
    ensures other { (byte : ℕ) (text : List ℕ) → byte ≢ 0xEF →
        records_of (byte ∷ text) ≡ records default_config (byte ∷ text) }
    ensures none { records_of [] ≡ [] }
{}

/// A quote that doesn't begin a field is a byte of it, what follows a closing quote is too, and a quote that isn't closed ends
/// with the text (this project's choice, as `csv` reads; RFC 4180 has no such texts).
pub fn odd_quotes_are_read_so()
    ensures within { records default_config (codes "a\"b,c\n") ≡ (codes "a\"b" ∷ codes "c" ∷ []) ∷ [] }
    ensures behind { records default_config (codes "\"a\"b,c\n") ≡ (codes "ab" ∷ codes "c" ∷ []) ∷ [] }
    ensures unclosed { records default_config (codes "\"a,b\nc") ≡ (codes "a,b\nc" ∷ []) ∷ [] }
{}
