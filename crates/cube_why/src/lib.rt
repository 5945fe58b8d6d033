//! Why a command failed, in lines for people: the file, the line, the column, the value, what was wanted and how to mend it.
//!
//! [`Report`] takes the lines, each indented. [`Said`] is what the line of a failure says, [`advice_on`] what there is to do at
//! each code. [`tell_header`] and [`tell_record`] find a cause in a feed that is read again, [`lines_of`] the line on which it
//! stands, [`tell_schema`] one in a schema, [`kind_of`] in a file's first bytes.
#![tactic(auto)]

mod advice;
mod header;
mod kind;
mod line;
mod lines;
mod measure;
mod mistakes;
mod refused;
mod report;
mod said;
mod schema;
mod schema_keys;
mod statements;
mod value;
mod wanted;

pub use advice::{
    Advice, CODE_ADVICE, KIND_ADVICE, SCHEMA_ADVICE, STORE_ADVICE, WORD_ADVICE, advice_on,
};
pub use header::tell_header;
pub use kind::{Kind, kind_of};
pub use line::{FoundLine, find_line};
pub use lines::{Lines, lines_of};
pub use mistakes::{
    put_advice, put_condition, put_kind, put_word, tell_columns, tell_limit, tell_long_record,
    tell_record, tell_repeated, tell_unclosed,
};
pub use refused::{Refused, refused_line, refused_of, refused_unread, unclosed_line};
pub use report::Report;
pub use said::{Said, code_words};
pub use schema::tell_schema;
pub use wanted::own_records;
