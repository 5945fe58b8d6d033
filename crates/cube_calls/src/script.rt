//! The words of a line, and what is printed.
use std::alloc::{AllocError, Global};
use std::fmt::Display;

/// The first word of a text, and what stands behind the space after it.
pub fn words_of(text: &str) -> (&str, &str) {
    text.split_once(' ').unwrap_or((text, ""))
}

/// What was answered, and the number of the line that is read.
#[derive(Drop)]
pub struct Printout {
    pub text: String,
    pub line: u64,
}

impl Printout {
    /// No answer.
    pub fn new(alloc: Global) -> Printout {
        Printout {
            text: String::new(alloc),
            line: 0,
        }
    }

    /// The next line of the script is read.
    pub fn next_line(&mut self) {
        self.line = self.line.saturating_add(1);
    }

    /// Prints an answer as a line.
    pub fn answer<A: Display + Drop>(&mut self, answer: A) -> Result<(), AllocError> {
        write!(self.text, "{answer}\n")
    }

    /// Prints an answer, or a fault, as a line.
    pub fn answer_or<A: Display + Drop, F: Display + Drop>(
        &mut self,
        answer: Result<A, F>,
    ) -> Result<(), AllocError> {
        match answer {
            Ok(answer) => self.answer(answer),
            Err(fault) => self.answer(fault),
        }
    }

    /// Prints lines, or a fault as one.
    pub fn answer_lines<F: Display + Drop>(
        &mut self,
        lines: Result<String, F>,
    ) -> Result<(), AllocError> {
        match lines {
            Ok(lines) => self.text.push_str(lines.as_str()),
            Err(fault) => self.answer(fault),
        }
    }
}
