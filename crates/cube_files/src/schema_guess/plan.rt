//! Which columns of a file are dimensions and measures of its schema.
use crate::schema_guess::asked::{Asked, Picked, Taking, picked_of};
use crate::schema_guess::column::{Column, Naming, Numbers, name_at};
use crate::schema_guess::fault::GuessFault;
use crate::schema_guess::spelling::push_quoted;
use csv::ByteRecord;
use std::alloc::{AllocError, Global};

/// The most dimensions and the most measures of a schema.
const MOST_DIMENSIONS: usize = 8;

const MOST_MEASURES: usize = 4;

/// The most different texts of a dimension that is guessed.
const MOST_TEXTS: usize = 1_000;

/// The most cells of the finest set of dimensions that are guessed, each with one more text than it has.
const MOST_CELLS: usize = 1_000_000;

/// What `--by` takes: the number is that of a column's first characters.
const BY: Taking = Taking {
    option: "--by",
    least: 1,
    most: 255,
};

/// What `--of` takes: the number is that of a column's decimals.
const OF: Taking = Taking {
    option: "--of",
    least: 0,
    most: 18,
};

/// A dimension of the schema.
#[derive(Drop)]
pub(crate) struct Dimension {
    pub(crate) name: String,
    /// Where its column stands in the header.
    pub(crate) place: usize,
    /// How many characters of it are taken; all where there is no number.
    pub(crate) first: Option<u8>,
}

/// A measure of the schema.
#[derive(Drop)]
pub(crate) struct Measure {
    pub(crate) name: String,
    /// Where its column stands in the header.
    pub(crate) place: usize,
    /// How many decimals it has; none are said where it takes no point.
    pub(crate) decimals: Option<u8>,
}

/// Why a column is left out.
#[derive(Clone, Copy, PartialEq, Eq)]
pub(crate) enum Why {
    /// Its name isn't one of its own, by which it could be read.
    Naming(Naming),
    /// Its name as a dimension is that of another one.
    NameTaken,
    /// It is null throughout.
    Null,
    /// One of its fields isn't UTF-8.
    NoText,
    /// It has too many different texts.
    ManyTexts,
    /// There would be too many cells.
    ManyCells,
    /// There is no place for one more dimension.
    NoPlace,
    /// The dimensions are given.
    NotAsked,
}

/// A column that is left out.
#[derive(Clone, Copy)]
pub(crate) struct LeftOut {
    pub(crate) place: usize,
    pub(crate) why: Why,
}

/// The dimensions and the measures of a schema, and the columns that are left out.
#[derive(Drop)]
pub(crate) struct Plan {
    pub(crate) dimensions: Vec<Dimension>,
    pub(crate) measures: Vec<Measure>,
    pub(crate) left_out: Vec<LeftOut>,
    /// How many cells the finest set of the guessed dimensions has at most.
    cells: usize,
}

impl Plan {
    // Whether a column is a dimension or a measure.
    fn has(&self, place: usize) -> bool {
        self.dimensions
            .iter()
            .any(|dimension| dimension.place == place)
            || self.measures.iter().any(|measure| measure.place == place)
    }

    // Whether a dimension or a measure has a name.
    fn has_name(&self, name: &str) -> bool {
        self.dimensions
            .iter()
            .any(|dimension| dimension.name.as_str() == name)
            || self
                .measures
                .iter()
                .any(|measure| measure.name.as_str() == name)
    }
}

/// The columns of a schema, as they are asked for and guessed.
pub(crate) fn plan_of(
    alloc: Global,
    header: &ByteRecord,
    columns: &[Column],
    point: u8,
    asked: Asked,
) -> Result<Plan, GuessFault> {
    let mut plan = Plan {
        dimensions: Vec::new(alloc),
        measures: Vec::new(alloc),
        left_out: Vec::new(alloc),
        cells: 1,
    };
    if let Some(text) = asked.by {
        take_dimensions(alloc, &mut plan, picked_of(alloc, header, BY, text)?)?;
    }
    match asked.of {
        Some(text) => {
            let picked = picked_of(alloc, header, OF, text)?;
            take_measures(alloc, header, columns, point, &mut plan, &picked)?;
        }
        None => guess_measures(alloc, header, columns, point, &mut plan)?,
    }
    match asked.by {
        Some(_) => leave_others(columns, &mut plan)?,
        None => guess_dimensions(alloc, header, columns, &mut plan)?,
    }
    lawful(alloc, plan)
}

/// The numbers of a column under a point.
pub(crate) fn numbers_under(column: &Column, point: u8) -> Option<Numbers> {
    if point == b',' {
        column.comma_numbers
    } else {
        column.numbers
    }
}

// Takes the dimensions that are asked for.
fn take_dimensions(alloc: Global, plan: &mut Plan, picked: Vec<Picked>) -> Result<(), AllocError> {
    for one in &picked {
        plan.dimensions.push(Dimension {
            name: lawful_name(alloc, one.text.as_str())?,
            place: one.place,
            first: one.number,
        })?;
    }
    Ok(())
}

// Takes the measures that are asked for.
fn take_measures(
    alloc: Global,
    header: &ByteRecord,
    columns: &[Column],
    point: u8,
    plan: &mut Plan,
    picked: &[Picked],
) -> Result<(), AllocError> {
    for one in picked {
        let decimals = match one.number {
            Some(number) => Some(number),
            None => decimals_at(columns, point, one.place),
        };
        plan.measures.push(Measure {
            name: lawful_name(alloc, name_at(header, one.place).unwrap_or(""))?,
            place: one.place,
            decimals,
        })?;
    }
    Ok(())
}

// How many decimals the numbers of the column at a place need; none are said where none has a point, or it has other fields.
fn decimals_at(columns: &[Column], point: u8, place: usize) -> Option<u8> {
    let numbers = numbers_under(columns.get(place)?, point)?;
    if numbers.have_point {
        Some(numbers.decimals)
    } else {
        None
    }
}

// Guesses the measures: of the columns that are of numbers which are added those with a point, and then whole ones.
fn guess_measures(
    alloc: Global,
    header: &ByteRecord,
    columns: &[Column],
    point: u8,
    plan: &mut Plan,
) -> Result<(), AllocError> {
    guess_measures_with(alloc, header, columns, point, true, plan)?;
    guess_measures_with(alloc, header, columns, point, false, plan)
}

// Guesses the measures that have a point, or that have none.
fn guess_measures_with(
    alloc: Global,
    header: &ByteRecord,
    columns: &[Column],
    point: u8,
    have_point: bool,
    plan: &mut Plan,
) -> Result<(), AllocError> {
    for (place, column) in columns.iter().enumerate() {
        let Some(numbers) = numbers_under(column, point) else {
            continue;
        };
        let is_added = column.naming == Naming::Own && !column.is_label && !numbers.are_labels;
        if !is_added || numbers.have_point != have_point || plan.has(place) {
            continue;
        }
        let name = lawful_name(alloc, name_at(header, place).unwrap_or(""))?;
        if plan.measures.len() < MOST_MEASURES && !plan.has_name(name.as_str()) {
            plan.measures.push(Measure {
                name,
                place,
                decimals: decimals_at(columns, point, place),
            })?;
        }
    }
    Ok(())
}

// Leaves out each column that isn't asked for.
fn leave_others(columns: &[Column], plan: &mut Plan) -> Result<(), AllocError> {
    for (place, column) in columns.iter().enumerate() {
        if !plan.has(place) {
            let why = why_unread(column).unwrap_or(Why::NotAsked);
            plan.left_out.push(LeftOut { place, why })?;
        }
    }
    Ok(())
}

// Why a column can't be guessed to be a dimension, whatever its texts.
fn why_unread(column: &Column) -> Option<Why> {
    if column.naming != Naming::Own {
        return Some(Why::Naming(column.naming));
    }
    if column.is_null {
        return Some(Why::Null);
    }
    if !column.is_text {
        return Some(Why::NoText);
    }
    None
}

// Guesses the dimensions: dates take their places first.
fn guess_dimensions(
    alloc: Global,
    header: &ByteRecord,
    columns: &[Column],
    plan: &mut Plan,
) -> Result<(), AllocError> {
    let mut date_room = MOST_DIMENSIONS;
    let mut other_room = MOST_DIMENSIONS.saturating_sub(count_dates(columns, plan));
    for (place, column) in columns.iter().enumerate() {
        if plan.has(place) {
            continue;
        }
        let name = name_at(header, place).unwrap_or("");
        if let Some(why) = why_unread(column) {
            plan.left_out.push(LeftOut { place, why })?;
        } else if column.is_date {
            let firsts = firsts_within(date_room);
            date_room = date_room.saturating_sub(firsts.len());
            take_date(alloc, plan, place, name, firsts)?;
        } else if take_texts(alloc, plan, place, name, column, other_room)? {
            other_room = other_room.saturating_sub(1);
        }
    }
    Ok(())
}

// How many characters of a date its dimensions have, where there is room for so many dimensions.
fn firsts_within(room: usize) -> &'static [u8] {
    match room {
        0 => &[],
        1 => &[7],
        _ => &[10, 7],
    }
}

// How many dimensions the dates take; their cells are counted.
fn count_dates(columns: &[Column], plan: &mut Plan) -> usize {
    let mut room = MOST_DIMENSIONS;
    for (place, column) in columns.iter().enumerate() {
        if !column.is_date || why_unread(column).is_some() || plan.has(place) {
            continue;
        }
        let count = firsts_within(room).len();
        if count > 0 {
            plan.cells = cells_with(plan.cells, column.months);
        }
        if count > 1 {
            plan.cells = cells_with(plan.cells, column.texts);
        }
        room = room.saturating_sub(count);
    }
    MOST_DIMENSIONS.saturating_sub(room)
}

// The cells of a set with one more dimension of so many texts.
fn cells_with(cells: usize, texts: usize) -> usize {
    cells.saturating_mul(texts.saturating_add(1))
}

// Takes the dimensions of a date, of so many characters each.
fn take_date(
    alloc: Global,
    plan: &mut Plan,
    place: usize,
    name: &str,
    firsts: &[u8],
) -> Result<(), AllocError> {
    if firsts.is_empty() {
        let why = Why::NoPlace;
        plan.left_out.push(LeftOut { place, why })?;
    }
    for first in firsts {
        let name = format!(in alloc; "{name}:{first}")?;
        if plan.has_name(name.as_str()) {
            let why = Why::NameTaken;
            plan.left_out.push(LeftOut { place, why })?;
            continue;
        }
        plan.dimensions.push(Dimension {
            name,
            place,
            first: Some(*first),
        })?;
    }
    Ok(())
}

// Takes a column of texts as a dimension, or leaves it out; the answer is whether it was taken.
fn take_texts(
    alloc: Global,
    plan: &mut Plan,
    place: usize,
    name: &str,
    column: &Column,
    room: usize,
) -> Result<bool, AllocError> {
    let name = lawful_name(alloc, name)?;
    let cells = cells_with(plan.cells, column.texts);
    if let Some(why) = why_left(plan, name.as_str(), column, cells, room) {
        plan.left_out.push(LeftOut { place, why })?;
        return Ok(false);
    }
    plan.cells = cells;
    plan.dimensions.push(Dimension {
        name,
        place,
        first: None,
    })?;
    Ok(true)
}

// Why a column of texts isn't taken as a dimension of a name, with which there would be so many cells.
fn why_left(plan: &Plan, name: &str, column: &Column, cells: usize, room: usize) -> Option<Why> {
    if column.texts > MOST_TEXTS {
        return Some(Why::ManyTexts);
    }
    if plan.has_name(name) {
        return Some(Why::NameTaken);
    }
    if room == 0 {
        return Some(Why::NoPlace);
    }
    if cells > MOST_CELLS {
        return Some(Why::ManyCells);
    }
    None
}

// The name of a dimension or a measure: that of its column, or what is written for it; one that a schema doesn't take gets `_`
// behind.
fn lawful_name(alloc: Global, text: &str) -> Result<String, AllocError> {
    let mut name = String::from_str(alloc, text)?;
    if matches!(text, "" | "op" | "id" | "*") {
        name.push('_')?;
    }
    Ok(name)
}

// The plan, where it makes a schema.
fn lawful(alloc: Global, plan: Plan) -> Result<Plan, GuessFault> {
    if plan.dimensions.len() > MOST_DIMENSIONS {
        return Err(GuessFault::NoColumns(String::from_str(
            alloc,
            "--by names more than 8 columns",
        )?));
    }
    if plan.measures.len() > MOST_MEASURES {
        return Err(GuessFault::NoColumns(String::from_str(
            alloc,
            "--of names more than 4 columns",
        )?));
    }
    if plan.dimensions.is_empty() {
        return Err(GuessFault::NoColumns(String::from_str(
            alloc,
            "no column is a dimension; --by takes one",
        )?));
    }
    if let Some(name) = repeated_name(&plan) {
        let mut told = String::from_str(alloc, "two names are ")?;
        push_quoted(&mut told, name)?;
        return Err(GuessFault::NoColumns(told));
    }
    Ok(plan)
}

// A name that two dimensions or measures have.
fn repeated_name(plan: &Plan) -> Option<&str> {
    for dimension in &plan.dimensions {
        if times_named(plan, dimension.name.as_str()) > 1 {
            return Some(dimension.name.as_str());
        }
    }
    for measure in &plan.measures {
        if times_named(plan, measure.name.as_str()) > 1 {
            return Some(measure.name.as_str());
        }
    }
    None
}

// How many dimensions and measures have a name.
fn times_named(plan: &Plan, name: &str) -> usize {
    let dimensions = plan
        .dimensions
        .iter()
        .filter(|one| one.name.as_str() == name)
        .count();
    let measures = plan
        .measures
        .iter()
        .filter(|one| one.name.as_str() == name)
        .count();
    dimensions.saturating_add(measures)
}
