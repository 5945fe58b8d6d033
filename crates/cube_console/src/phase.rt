//! What a command is at.

/// What a command is at, as the progress line says it.
#[derive(Clone, Copy)]
pub enum Phase {
    /// So many feeds are read, and then the cube is filled from them.
    Reading { feeds: usize },
    /// The cells of a cube over so many facts are put in order.
    Sorting { facts: u64 },
    /// The text is made and written: so many lines, where that is known.
    Writing { lines: Option<usize> },
    /// So many cubes are read to their ends before one line is written.
    Checking { cubes: usize },
    /// So many cubes are read, and merged line by line.
    Merging { cubes: usize },
}
