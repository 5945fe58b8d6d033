//! Two cubes over the finest grouping set made one: the texts of the second get codes in the first, and its cells these.
ghost use Rattle.std.specs.Prelude.{◌≡◌, ◌≤◌, ◌∷◌, ◌++◌, [], List, None, length, get_or, option_map, All, IfOk, IfSome, OnOk};
ghost use Rattle.cube_core.specs.declared.fact.Fact.{Fact};
ghost use Rattle.cube_cells.specs.Codes.{IsDictionary};
ghost use Rattle.cube_cells.specs.Coded.{coded_at};
ghost use Rattle.cube_cells.specs.Cube.{SameSets};
ghost use Rattle.cube_cells.specs.Fill.{FillsSet, HaveOneWidth, IsCubeOfAll, MergesIn, finest_set};
ghost use Rattle.cube_cells.specs.Merged.{AreRecoded, IsRecoded, PutsCode, dictionaries_of, recoded, recoded_cells};
ghost use Rattle.cube_cells.specs.Walk.{AreApart, key_in};

use super::Cube;
use super::codes::Codes;
use super::dictionary::Dictionary;
use super::fill::merge_counted;
use super::levels::{Cells, one_level};
use crate::cell::Cell;
use cube_values::Numbers;
use std::alloc::{AllocError, Global};

/// The texts of a dimension of one cube, with the codes that those of another have among them.
#[derive(Drop)]
struct Column {
    dictionary: Dictionary,
    codes: Vec<u32>,
}

impl<N: Numbers> Cube<N> {
    /// The cube that has the facts of this one and of another besides, both over the finest grouping set alone.
    ///
    /// Each text of the other is looked up once, and each of its cells is merged in one look-up. The only error is that
    /// memory ran out, or numbers to count the facts with.
    pub fn merged(self, more: Cube<N>) -> Result<Cube<N>, AllocError>
        requires schema { more.schema ≡ self.schema }
        requires sets { self.sets ≡ finest_set (length self.schema.dimensions) ∷ [] }
        requires more_sets { more.sets ≡ finest_set (length more.schema.dimensions) ∷ [] }
        requires facts { (facts : List Fact) × IsCubeOfAll facts self }
        requires more_facts { (facts : List Fact) × IsCubeOfAll facts more }
        ensures same { IfOk result (SameSets self) }
        ensures facts { IfOk result (λ cube. (facts others : List Fact) →
            IsCubeOfAll facts self → IsCubeOfAll others more → IsCubeOfAll (others ++ facts) cube) }
    {
        let Some(facts) = self.facts.checked_add(more.facts) else {
            return Err(AllocError);
        };
        let Cube {
            schema,
            sets,
            dictionaries,
            mut levels,
            alloc,
            ..
        } = self;
        let mut others = more.levels;
        let columns = recoded_texts(alloc, dictionaries, &more.dictionaries)?;
        let mut finest = levels.remove(0);
        merge_recoded(&mut finest.cells, &columns, others.remove(0).cells)?;
        let levels = one_level(alloc, finest)?;
        let dictionaries = dictionaries_of(alloc, columns)?;
        Ok(Cube {
            schema,
            sets,
            facts,
            dictionaries,
            levels,
            alloc,
        })
    }
}

impl Column {
    // Puts the code of a text at the end.
    fn push(&mut self, alloc: Global, value: Option<&str>) -> Result<(), AllocError>
        ensures { OnOk result (PutsCode (option_map (λ text. text.now) value.entry) self.old self.new) }
    {
        let code = self.dictionary.code_with(alloc, value)?;
        self.codes.push(code)?;
        Ok(())
    }

    // The code that stands in the place of one; itself where none does.
    fn recode(&self, code: u32) -> u32
        ensures { result ≡ get_or self.now.codes.items code code }
    {
        match self.codes.get(code as usize) {
            Some(other) => *other,
            None => code,
        }
    }
}

// For each dimension the texts of two dictionaries, with the codes of those of the second.
fn recoded_texts(
    alloc: Global,
    dictionaries: Vec<Dictionary>,
    more: &[Dictionary],
) -> Result<Vec<Column>, AllocError>
    requires dictionaries { All IsDictionary dictionaries.items }
    requires long { length more.now ≡ length dictionaries.items }
    ensures { IfOk result (λ columns. AreRecoded dictionaries.items more.now columns.items) }
{
    let mut columns = Vec::with_capacity(alloc, more.len())?;
    for dictionary in dictionaries {
        let place = columns.len();
        columns.push(recoded_column(alloc, dictionary, &more[place])?)?;
    }
    Ok(columns)
}

// The texts of two dictionaries, those of the first at their places, with the codes of those of the second.
fn recoded_column(
    alloc: Global,
    dictionary: Dictionary,
    more: &Dictionary,
) -> Result<Column, AllocError>
    requires { IsDictionary dictionary }
    ensures { IfOk result (IsRecoded dictionary more.now) }
{
    let codes = Vec::with_capacity(alloc, more.len())?;
    let mut column = Column { dictionary, codes };
    for place in 0..more.len() {
        column.push(alloc, Some(more.text(place)))?;
    }
    Ok(column)
}

// The texts of each dimension.
fn dictionaries_of(alloc: Global, columns: Vec<Column>) -> Result<Vec<Dictionary>, AllocError>
    ensures { IfOk result (λ dictionaries. dictionaries.items ≡ dictionaries_of columns.items) }
{
    let mut dictionaries = Vec::with_capacity(alloc, columns.len())?;
    for column in columns {
        dictionaries.push(column.dictionary)?;
    }
    Ok(dictionaries)
}

// Merges cells into others, each into that of its codes in the columns.
fn merge_recoded<N: Numbers>(
    cells: &mut Cells<N>,
    columns: &[Column],
    more: Cells<N>,
) -> Result<(), AllocError>
    requires few { length columns.now ≤ 8 }
    requires width { HaveOneWidth (recoded_cells columns.now more.entries) cells.old.entries }
    requires set { All (λ cell. key_in cell.0 (finest_set (length columns.now)) ≡ cell.0)
        (recoded_cells columns.now more.entries) }
    ensures { OnOk result (FillsSet (finest_set (length columns.now)) (recoded_cells columns.now more.entries)
        cells.old.entries cells.new.entries) }
{
    for (codes, cell) in more {
        merge_own(cells, recoded(columns, &codes), cell)?;
    }
    Ok(())
}

// Merges a cell into that of its codes, and puts it in where there is none.
fn merge_own<N: Numbers>(
    cells: &mut Cells<N>,
    codes: Codes,
    more: Cell<N>,
) -> Result<(), AllocError>
    requires { IfSome (coded_at cells.old.entries codes) (λ t. length t.bags ≡ length more.bags) }
    ensures merges { OnOk result (MergesIn codes cells.old.entries cells.new.entries more) }
    ensures apart { AreApart cells.old.entries → AreApart cells.new.entries }
{
    if let Some(cell) = cells.get_mut(&codes) {
        return merge_counted(cell, &more);
    }
    put_own(cells, codes, more)
}

// Puts a cell in.
fn put_own<N: Numbers>(cells: &mut Cells<N>, codes: Codes, more: Cell<N>) -> Result<(), AllocError>
    requires { coded_at cells.old.entries codes ≡ None }
    ensures merges { OnOk result (MergesIn codes cells.old.entries cells.new.entries more) }
    ensures apart { AreApart cells.old.entries → AreApart cells.new.entries }
{
    cells.insert(codes, more)?;
    Ok(())
}

// Codes with those that the columns have in their places.
fn recoded(columns: &[Column], codes: &Codes) -> Codes
    requires { length columns.now ≤ 8 }
    ensures { result ≡ recoded columns.now codes.now }
{
    let mut recoded = codes.codes;
    for (dimension, column) in columns.iter().enumerate() {
        recoded[dimension] = column.recode(recoded[dimension]);
    }
    Codes { codes: recoded }
}
