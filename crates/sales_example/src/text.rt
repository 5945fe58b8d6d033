//! Rows as text.
use cube_library::{Answer, Coord, Row, Wide, push_decimal};
use std::alloc::{AllocError, Global};

/// A line for each row: its coordinates, and its answers. The only error is that memory ran out.
pub fn text_of(alloc: Global, rows: &[Row]) -> Result<String, AllocError> {
    let mut text = String::new(alloc);
    for row in rows {
        push_coords(&mut text, row.key.coords.as_slice())?;
        push_answers(alloc, &mut text, row.answers.as_slice())?;
        text.push('\n')?;
    }
    Ok(text)
}

fn push_coords(text: &mut String, coords: &[Coord]) -> Result<(), AllocError> {
    for coord in coords {
        text.push(' ')?;
        text.push_str(name_of(coord))?;
    }
    Ok(())
}

// Null and ALL are told apart, as they are by the library.
fn name_of(coord: &Coord) -> &str {
    match coord {
        Coord::Text(text) => text.as_str(),
        Coord::Null => "(unknown)",
        Coord::All => "(all)",
    }
}

fn push_answers(alloc: Global, text: &mut String, answers: &[Answer]) -> Result<(), AllocError> {
    for answer in answers {
        push_answer(alloc, text, answer)?;
    }
    Ok(())
}

fn push_answer(alloc: Global, text: &mut String, answer: &Answer) -> Result<(), AllocError> {
    match answer {
        Answer::Null => text.push_str(" none"),
        Answer::Count(count) => write!(text, " {count}"),
        Answer::Whole(sum) => write!(text, " {sum}"),
        Answer::Ratio { p, q } => write!(text, " {p}/{q}"),
        Answer::Squares(squares) => {
            text.push(' ')?;
            push_long(alloc, text, squares.number())
        }
        Answer::Variance { p, q } => {
            text.push(' ')?;
            push_long(alloc, text, *p)?;
            write!(text, "/{q}")
        }
        Answer::Values(held) => push_held(text, held.as_slice()),
    }
}

// Values, each with how often it is held, as `-2*1 5*3`.
fn push_held(text: &mut String, held: &[(i64, u64)]) -> Result<(), AllocError> {
    for (value, times) in held {
        write!(text, " {value}*{times}")?;
    }
    Ok(())
}

// The digits of a long number.
fn push_long(alloc: Global, text: &mut String, number: Wide) -> Result<(), AllocError> {
    let mut digits = Vec::new(alloc);
    push_decimal(&mut digits, number)?;
    match str::from_utf8(&digits) {
        Ok(digits) => text.push_str(digits),
        Err(_) => Ok(()),
    }
}
