//! A cube over facts of which texts are counted.
ghost use Rattle.std.specs.Prelude.{◌≡◌, ◌+◌, ◌<◌, ◌≤◌, ◌^◌, ◌∷◌, [], true, List, length, map, All, IfOk, OnOk, OnErr};
ghost use Rattle.cube_core.specs.declared.fact.Fact.{Fact as TheFact};
ghost use Rattle.cube_cells.specs.CountedCube.{AreMadeFinest, HasCounted, IsCountedCube, fits_counted};
ghost use Rattle.cube_cells.specs.Cube.{IsCubeOf, SameCells, SameSets};
ghost use Rattle.cube_cells.specs.TextNumbers.{StandFirst};
ghost use Rattle.cube_cells.specs.Fill.{finest_set};

use super::Cube;
use crate::text_numbers::TextNumbers;
use cube_core::{Fact, HashKey};
use std::alloc::{AllocError, Global};
use std::marker::Model;
use std::thread::Threads;

/// A cube over facts of which texts are counted: those, so many, that stand last among the values of a fact's dimensions.
/// With none of them it is the cube alone.
///
/// Each text that is counted has a number, under which the cube counts it behind the fact's measures.
#[derive(Drop)]
pub struct CountedCube {
    texts: usize,
    numbers: TextNumbers,
    cube: Cube,
    alloc: Global,
    key: HashKey,
}

impl Model for CountedCube {
    ghost use Rattle.cube_cells.specs.CountedCube.{CountedView, IsCountedCube};

    ghost Value = { CountedView };

    ghost view = { λ c. record { texts = c.texts; numbers = c.numbers; cube = c.cube } };

    ghost invariant = { λ c. IsCountedCube (record { texts = c.texts; numbers = c.numbers; cube = c.cube }) };
}

impl CountedCube {
    /// The counted cube of a cube of no fact, where so many texts of each fact are counted: there is a measure for each of them,
    /// the last ones of the cube's schema. The texts are hashed under the key. It takes no memory.
    pub fn of(alloc: Global, key: HashKey, cube: Cube, texts: usize) -> CountedCube
        requires few { texts ≤ length cube.schema.measures }
        requires empty { IsCubeOf cube [] }
        requires no_facts { cube.facts ≡ 0 }
        ensures texts { result.texts ≡ texts }
        ensures numbers { result.numbers ≡ [] }
        ensures cube { result.cube ≡ cube }
        ensures has { HasCounted [] result }
    {
        let _schema = &cube.schema;
        CountedCube {
            texts,
            numbers: TextNumbers::new(alloc, key),
            cube,
            alloc,
            key,
        }
    }

    /// The cube of the facts as they are counted.
    pub fn cube(&self) -> &Cube
        ensures { result.now ≡ self.now.cube }
    {
        &self.cube
    }

    /// Adds a fact that fits, to each cell of a kept set that covers it. A text that is counted and has no number gets the
    /// next one.
    ///
    /// The only error is that memory ran out, or numbers for texts. Then the cells count what they counted; only texts of the
    /// fact may have got codes and numbers.
    pub fn add(&mut self, fact: &Fact) -> Result<(), AllocError>
        requires fits { fits_counted self.old.texts self.old.cube.schema fact.now ≡ true }
        requires room { self.old.cube.facts + 1 < 2 ^ 64 }
        ensures added { OnOk result ((facts : List TheFact) → HasCounted facts self.old →
            HasCounted (fact.now ∷ facts) self.new) }
        ensures texts { self.new.texts ≡ self.old.texts }
        ensures first { StandFirst self.old.numbers self.new.numbers }
        ensures same { SameSets self.old.cube self.new.cube }
        ensures err { OnErr result (SameCells self.old.cube self.new.cube) }
        ensures err_has { OnErr result ((facts : List TheFact) → HasCounted facts self.old →
            HasCounted facts self.new) }
    {
        if self.texts == 0 {
            return self.cube.add(fact);
        }
        let measures = self.numbers.measures_with(self.texts, fact)?;
        self.cube.add_values(&fact.dims, measures.as_slice())
    }

    /// Takes a fact away that is there: its measures, and the numbers of its texts that are counted, from each cell of a kept
    /// set that covers it. It takes no memory.
    pub fn remove(&mut self, fact: &Fact)
        requires fits { fits_counted self.old.texts self.old.cube.schema fact.now ≡ true }
        requires there { (facts : List TheFact) × HasCounted (fact.now ∷ facts) self.old }
        ensures taken { (facts : List TheFact) → HasCounted (fact.now ∷ facts) self.old →
            HasCounted facts self.new }
        ensures texts { self.new.texts ≡ self.old.texts }
        ensures numbers { self.new.numbers ≡ self.old.numbers }
        ensures same { SameSets self.old.cube self.new.cube }
    {
        if self.texts == 0 {
            return self.cube.remove(fact);
        }
        let measures = self.numbers.measures_known(self.texts, fact);
        self.cube.take_values(&fact.dims, measures.as_slice());
    }

    /// Fills the cube with facts that fit, in place of its own: the cells over the finest grouping set are made first, and all
    /// others from these, as by [`Cube::fill`].
    ///
    /// The only error is that memory ran out, or numbers for texts or to count the facts with. Then it stays as it was.
    pub fn fill(&mut self, facts: &[&Fact]) -> Result<(), AllocError>
        requires { All (λ fact. fits_counted self.old.texts self.old.cube.schema fact ≡ true)
            (map (λ fact. fact.now) facts.now) }
        ensures has { OnOk result (HasCounted (map (λ fact. fact.now) facts.now) self.new) }
        ensures texts { self.new.texts ≡ self.old.texts }
        ensures same { SameSets self.old.cube self.new.cube }
        ensures err { OnErr result (self.new ≡ self.old) }
    {
        let mut finest = self.finest()?;
        finest.add_all(facts)?;
        let (numbers, cube) = finest.into_parts();
        self.fill_from(numbers, cube)
    }

    /// Fills the cube as [`CountedCube::fill`] does, with the cells over the finest grouping set made by as many threads as this
    /// says, 8 at most. With one thread, or none, no thread is started.
    pub fn fill_with<T: Threads + Sync>(
        &mut self,
        rt: &T,
        threads: usize,
        facts: &[&Fact],
    ) -> Result<(), AllocError>
        requires { All (λ fact. fits_counted self.old.texts self.old.cube.schema fact ≡ true)
            (map (λ fact. fact.now) facts.now) }
        ensures has { OnOk result (HasCounted (map (λ fact. fact.now) facts.now) self.new) }
        ensures texts { self.new.texts ≡ self.old.texts }
        ensures same { SameSets self.old.cube self.new.cube }
        ensures err { OnErr result (self.new ≡ self.old) }
    {
        let (numbers, finest) = self.finest_of(rt, threads, facts)?;
        self.fill_from(numbers, finest)
    }

    // The counted cube of no fact over the finest grouping set alone.
    fn finest(&self) -> Result<CountedCube, AllocError>
        ensures texts { IfOk result (λ finest. finest.texts ≡ self.now.texts) }
        ensures schema { IfOk result (λ finest. finest.cube.schema ≡ self.now.cube.schema) }
        ensures sets { IfOk result (λ finest.
            finest.cube.sets ≡ finest_set (length finest.cube.schema.dimensions) ∷ []) }
        ensures has { IfOk result (HasCounted []) }
    {
        let cube = self.cube.finest()?;
        Ok(CountedCube::of(self.alloc, self.key, cube, self.texts))
    }

    // The cube over the finest grouping set alone of facts that fit, made by as many threads as this says, and the numbers by
    // which the facts are counted there.
    fn finest_of<T: Threads + Sync>(
        &self,
        rt: &T,
        threads: usize,
        facts: &[&Fact],
    ) -> Result<(TextNumbers, Cube), AllocError>
        requires { All (λ fact. fits_counted self.now.texts self.now.cube.schema fact ≡ true)
            (map (λ fact. fact.now) facts.now) }
        ensures { IfOk result (λ made.
            AreMadeFinest self.now.texts self.now.cube.schema (map (λ fact. fact.now) facts.now) made.0 made.1) }
    {
        let mut numbers = TextNumbers::new(self.alloc, self.key);
        if self.texts == 0 {
            let finest = self.cube.finest_of(rt, threads, facts)?;
            return Ok((numbers, finest));
        }
        let counted = numbers.each_counted(self.texts, facts)?;
        let lent = lent_facts(self.alloc, &counted)?;
        let finest = self.cube.finest_of(rt, threads, &lent)?;
        Ok((numbers, finest))
    }

    // Adds facts that fit, where there is none yet, unless they couldn't be counted.
    fn add_all(&mut self, facts: &[&Fact]) -> Result<(), AllocError>
        requires fit { All (λ fact. fits_counted self.old.texts self.old.cube.schema fact ≡ true)
            (map (λ fact. fact.now) facts.now) }
        requires none { HasCounted [] self.old }
        ensures has { OnOk result (HasCounted (map (λ fact. fact.now) facts.now) self.new) }
        ensures texts { self.new.texts ≡ self.old.texts }
        ensures same { SameSets self.old.cube self.new.cube }
    {
        for fact in facts {
            self.add_counted(*fact)?;
        }
        Ok(())
    }

    // Adds a fact that fits, unless it couldn't be counted.
    fn add_counted(&mut self, fact: &Fact) -> Result<(), AllocError>
        requires { fits_counted self.old.texts self.old.cube.schema fact.now ≡ true }
        ensures added { OnOk result ((facts : List TheFact) → HasCounted facts self.old →
            HasCounted (fact.now ∷ facts) self.new) }
        ensures texts { self.new.texts ≡ self.old.texts }
        ensures same { SameSets self.old.cube self.new.cube }
    {
        if self.cube.facts() == u64::MAX {
            return Err(AllocError);
        }
        self.add(fact)
    }

    // Fills the cube from one over the finest grouping set, and keeps these numbers, by which the facts are counted there.
    fn fill_from(&mut self, numbers: TextNumbers, finest: Cube) -> Result<(), AllocError>
        requires { (facts : List TheFact) ×
            AreMadeFinest self.old.texts self.old.cube.schema facts numbers finest }
        ensures has { OnOk result ((facts : List TheFact) →
            AreMadeFinest self.old.texts self.old.cube.schema facts numbers finest → HasCounted facts self.new) }
        ensures texts { self.new.texts ≡ self.old.texts }
        ensures same { SameSets self.old.cube self.new.cube }
        ensures err { OnErr result (self.new ≡ self.old) }
    {
        self.cube.fill(finest)?;
        self.numbers = numbers;
        Ok(())
    }

    /// The numbers and the cube.
    pub fn into_parts(self) -> (TextNumbers, Cube)
        ensures numbers { result.0 ≡ self.numbers }
        ensures cube { result.1 ≡ self.cube }
        ensures is { IsCountedCube self }
    {
        (self.numbers, self.cube)
    }
}

// Facts, each where it lies.
fn lent_facts(alloc: Global, facts: &[Fact]) -> Result<Vec<&Fact>, AllocError>
    ensures { IfOk result (λ lent. map (λ fact. fact.now) lent.items ≡ facts.now) }
{
    facts.iter().collect(alloc)
}
