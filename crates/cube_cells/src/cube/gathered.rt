//! The finest cells of many facts at once: each thread gathers a share of the facts, and what the shares have is merged.
ghost use Rattle.std.specs.Prelude.{◌≡◌, ◌<◌, ◌≤◌, ◌==◌, ◌∷◌, ◌++◌, [], true, filter, get_or, length, map, option_map, All, IfOk, OnOk, List, ℕ, if◌then◌else◌};
ghost use Rattle.std.specs.List.{AllZip};
ghost use Rattle.cube_core.specs.Layout.{Layout, cube_schema};
ghost use Rattle.cube_core.specs.Takes.{fits};
ghost use Rattle.cube_core.specs.declared.fact.Fact.{Fact};
ghost use Rattle.cube_cells.specs.Cube.{SameCells};
ghost use Rattle.cube_cells.specs.Fill.{AreMade, IsCubeOfAll, finest_set};
ghost use Rattle.cube_cells.specs.Gathered.{AreCodesOfFact, AreMarks, AreShares, GathersMore, HasGathered, HasGatheredShare, OnlyAddsTexts, bytes_sum_of, share_of_fact};

use super::Cube;
use super::codes::Codes;
use super::levels::{Cells, reserve_in_levels};
use super::ranges::all_made;
use super::sorting::FEW;
use cube_core::{Fact, Schema};
use cube_values::Numbers;
use std::alloc::{AllocError, Global};
use std::thread::{Threads, for_each_mut, map_indices};

// How many facts are looked at, before those of a share among them are gathered. So many facts and codes lie in the second
// cache, and so do the cells of these facts, which the loop that looks them up has fetched before they are counted.
const AT_ONCE: usize = 1_024;

// The most shares that facts are gathered in: each thread looks at the shares of all facts.
const MOST_SHARES: usize = 8;

impl<N: Numbers + Send + Sync> Cube<N> {
    /// The cube of these facts over the finest grouping set alone, with the same schema, made by as many threads as this
    /// says, 8 at most.
    ///
    /// Each thread gathers the facts of some keys into a cube of its own, and these cubes are merged one after another. With
    /// one thread, or few facts, there is one. The only error is that memory ran out, or numbers to count the facts with.
    pub fn finest_of<T: Threads + Sync>(
        &self,
        rt: &T,
        threads: usize,
        facts: &[&Fact],
    ) -> Result<Cube<N>, AllocError>
        requires fit { All (λ fact. fits self.now.schema fact ≡ true) (map (λ fact. fact.now) facts.now) }
        ensures schema { IfOk result (λ cube. cube.schema ≡ self.now.schema) }
        ensures sets { IfOk result (λ cube.
            cube.sets ≡ finest_set (length cube.schema.dimensions) ∷ []) }
        ensures facts { IfOk result (IsCubeOfAll (map (λ fact. fact.now) facts.now)) }
    {
        let shares = if facts.len() < FEW {
            1
        } else {
            threads.clamp(1, MOST_SHARES)
        };
        gathered_in_shares(rt, self.alloc, &self.schema, facts, shares as u32)
    }
}

// The cube of facts over the finest grouping set, gathered in so many shares.
fn gathered_in_shares<T: Threads + Sync, N: Numbers + Send + Sync>(
    rt: &T,
    alloc: Global,
    schema: &Schema,
    facts: &[&Fact],
    shares: u32,
) -> Result<Cube<N>, AllocError>
    requires some { 0 < shares }
    requires few { shares ≤ 8 }
    requires fit { All (λ fact. fits (cube_schema schema.now) fact ≡ true) (map (λ fact. fact.now) facts.now) }
    ensures { IfOk result (HasGathered (cube_schema schema.now) (map (λ fact. fact.now) facts.now)) }
{
    let marks = shares_of(rt, alloc, schema.number_of_dimensions(), facts, shares)?;
    let made = gathered_shares(rt, alloc, schema, facts, &marks, shares)?;
    merged_shares(alloc, schema, all_made(alloc, made)?)
}

// The share of each fact, of so many shares. As many threads each find those of a range of the facts; with one share no thread
// is started, and no fact is looked at.
fn shares_of<T: Threads + Sync>(
    rt: &T,
    alloc: Global,
    dimensions: usize,
    facts: &[&Fact],
    shares: u32,
) -> Result<Vec<u8>, AllocError>
    requires some { 0 < shares }
    requires few { shares ≤ 8 }
    requires places { dimensions ≤ 8 }
    requires width { All (λ fact. length fact.dims ≡ dimensions) (map (λ fact. fact.now) facts.now) }
    ensures { IfOk result (λ marks. AreMarks shares (map (λ fact. fact.now) facts.now) marks.items) }
{
    let mut marks = vec![in alloc; 0u8; facts.len()]?;
    if shares == 1 {
        return Ok(marks);
    }
    find_shares(rt, dimensions, facts, shares, &mut marks);
    Ok(marks)
}

// Writes the share of each fact at its place, on as many threads as there are shares.
fn find_shares<T: Threads + Sync>(
    rt: &T,
    dimensions: usize,
    facts: &[&Fact],
    shares: u32,
    marks: &mut [u8],
)
    requires some { 0 < shares }
    requires few { shares ≤ 8 }
    requires places { dimensions ≤ 8 }
    requires width { All (λ fact. length fact.dims ≡ dimensions) (map (λ fact. fact.now) facts.now) }
    requires long { length marks.old ≡ length facts.now }
    ensures { AreMarks shares (map (λ fact. fact.now) facts.now) marks.new }
{
    for_each_mut(
        rt,
        marks,
        shares as usize,
        &|place, mark| *mark = share_at(facts, place, dimensions, shares),
    );
}

// The share of the fact at a place.
fn share_at(facts: &[&Fact], place: usize, dimensions: usize, shares: u32) -> u8
    requires some { 0 < shares }
    requires few { shares ≤ 8 }
    requires places { dimensions ≤ 8 }
    requires width { All (λ fact. length fact.dims ≡ dimensions) (map (λ fact. fact.now) facts.now) }
    requires place { place < length facts.now }
    ensures { (unused : Fact) →
        result ≡ share_of_fact shares (get_or (map (λ fact. fact.now) facts.now) place unused) }
{
    share_of(facts[place], dimensions, shares)
}

// The cube of each share of facts over the finest grouping set, each gathered on a thread of its own.
fn gathered_shares<T: Threads + Sync, N: Numbers + Send + Sync>(
    rt: &T,
    alloc: Global,
    schema: &Schema,
    facts: &[&Fact],
    marks: &[u8],
    shares: u32,
) -> Result<Vec<Result<Cube<N>, AllocError>>, AllocError>
    requires some { 0 < shares }
    requires fit { All (λ fact. fits (cube_schema schema.now) fact ≡ true) (map (λ fact. fact.now) facts.now) }
    requires marks { AreMarks shares (map (λ fact. fact.now) facts.now) marks.now }
    ensures { IfOk result (λ made. AreMade
        (HasGatheredShare (cube_schema schema.now) (map (λ fact. fact.now) facts.now) shares) shares made.items) }
{
    map_indices(
        rt,
        alloc,
        shares as usize,
        &|share| gathered_share(alloc, schema, facts, marks, share as u32),
    )
}

// The cube of all facts from those of their shares, which are merged one after another.
fn merged_shares<N: Numbers>(
    alloc: Global,
    schema: &Schema,
    cubes: Vec<Cube<N>>,
) -> Result<Cube<N>, AllocError>
    requires some { 0 < length cubes.items }
    requires shares { (facts : List Fact) × AreShares (cube_schema schema.now) facts cubes.items }
    ensures { IfOk result (λ cube. (facts : List Fact) → AreShares (cube_schema schema.now) facts cubes.items →
        HasGathered (cube_schema schema.now) facts cube) }
{
    let mut whole = Cube::finest_over(alloc, schema)?;
    for cube in cubes {
        whole = merged_with(whole, cube)?;
    }
    Ok(whole)
}

// The cube that has the facts of two; a first one that has none is let go of.
fn merged_with<N: Numbers>(first: Cube<N>, second: Cube<N>) -> Result<Cube<N>, AllocError>
    requires { (schema : Layout) × (facts : List Fact) × (others : List Fact) × HasGathered schema facts first
        × HasGathered schema others second }
    ensures { IfOk result (λ whole. (schema : Layout) (facts others : List Fact) → HasGathered schema facts first →
        HasGathered schema others second → HasGathered schema (facts ++ others) whole) }
{
    if first.facts() == 0 {
        return Ok(second);
    }
    first.merged(second)
}

// The cube of the facts of a share over the finest grouping set, into which one lot after another is gathered. The marks say
// which share each fact is in.
fn gathered_share<N: Numbers>(
    alloc: Global,
    schema: &Schema,
    facts: &[&Fact],
    marks: &[u8],
    share: u32,
) -> Result<Cube<N>, AllocError>
    requires fit { All (λ fact. fits (cube_schema schema.now) fact ≡ true) (map (λ fact. fact.now) facts.now) }
    requires marks { (shares : ℕ) × AreMarks shares (map (λ fact. fact.now) facts.now) marks.now }
    ensures { IfOk result (λ cube. (shares : ℕ) → AreMarks shares (map (λ fact. fact.now) facts.now) marks.now →
        HasGatheredShare (cube_schema schema.now) (map (λ fact. fact.now) facts.now) shares share cube) }
{
    let mut cube = Cube::finest_over(alloc, schema)?;
    let mut picked = Vec::new(alloc);
    let mut codes = Vec::new(alloc);
    let mut done = 0;
    while done < facts.len() {
        let end = done + (facts.len() - done).min(AT_ONCE);
        pick(&facts[done..end], &marks[done..end], share, &mut picked)?;
        gather_lot(&mut cube, &picked, &mut codes)?;
        done = end;
    }
    Ok(cube)
}

// Puts the facts with the mark of a share in place of those that were picked before. It looks at no other fact.
fn pick<'f>(
    facts: &[&'f Fact],
    marks: &[u8],
    share: u32,
    picked: &mut Vec<&'f Fact>,
) -> Result<(), AllocError>
    requires { length marks.now ≡ length facts.now }
    ensures { OnOk result ((shares : ℕ) → AreMarks shares (map (λ fact. fact.now) facts.now) marks.now →
        map (λ fact. fact.now) picked.new.items
        ≡ filter (λ fact. share_of_fact shares fact == share) (map (λ fact. fact.now) facts.now)) }
{
    picked.clear();
    for place in 0..marks.len() {
        push_if(picked, facts[place], u32::from(marks[place]) == share)?;
    }
    Ok(())
}

// Puts a fact behind others if it is one of theirs.
fn push_if<'f>(
    picked: &mut Vec<&'f Fact>,
    fact: &'f Fact,
    is_picked: bool,
) -> Result<(), AllocError>
    ensures { OnOk result (map (λ fact. fact.now) picked.new.items
        ≡ map (λ fact. fact.now) picked.old.items ++ (if is_picked then fact.now ∷ [] else [])) }
{
    if is_picked {
        picked.push(fact)?;
    }
    Ok(())
}

// The share of a fact of so many dimensions, of so many shares: no two facts of one key are in different ones.
fn share_of(fact: &Fact, dimensions: usize, shares: u32) -> u8
    requires some { 0 < shares }
    requires few { shares ≤ 8 }
    requires places { dimensions ≤ 8 }
    requires width { length fact.now.dims ≡ dimensions }
    ensures { result ≡ share_of_fact shares fact.now }
{
    let mut sum = 0;
    for place in 0..dimensions {
        sum += u64::from(bytes_sum(fact.dims.get(place)));
    }
    (sum % u64::from(shares)) as u8
}

// The sum of the bytes of a text, modulo 2 to the power 32; 0 of null.
fn bytes_sum(value: Option<&str>) -> u32
    ensures { result ≡ bytes_sum_of (option_map (λ text. text.now) value.entry) }
{
    let Some(text) = value else {
        return 0;
    };
    let mut sum: u32 = 0;
    for byte in text.as_bytes() {
        sum = sum.wrapping_add(u32::from(*byte));
    }
    sum
}

// Gathers a lot of facts: first it finds the codes of all, then it looks their cells up, and then it counts them.
fn gather_lot<N: Numbers>(
    cube: &mut Cube<N>,
    facts: &[&Fact],
    codes: &mut Vec<Codes>,
) -> Result<(), AllocError>
    requires { All (λ fact. fits cube.old.schema fact ≡ true) (map (λ fact. fact.now) facts.now) }
    ensures { OnOk result (GathersMore (map (λ fact. fact.now) facts.now) cube.old cube.new) }
{
    codes.clear();
    code_all(cube, facts, codes)?;
    let new = count_new(cube, codes);
    make_room(cube, new)?;
    count_all(cube, facts, codes)
}

// Puts the codes of the values of each fact into a list that has none.
fn code_all<N: Numbers>(
    cube: &mut Cube<N>,
    facts: &[&Fact],
    codes: &mut Vec<Codes>,
) -> Result<(), AllocError>
    requires fit { All (λ fact. fits cube.old.schema fact ≡ true) (map (λ fact. fact.now) facts.now) }
    requires none { codes.old.items ≡ [] }
    ensures same { OnOk result (OnlyAddsTexts cube.old cube.new) }
    ensures codes { OnOk result
        (AllZip (AreCodesOfFact cube.new.dictionaries) (map (λ fact. fact.now) facts.now) codes.new.items) }
{
    for fact in facts {
        codes.push(cube.code_fact(*fact)?)?;
    }
    Ok(())
}

// How many facts have no cell yet, by their codes.
fn count_new<N: Numbers>(cube: &Cube<N>, codes: &[Codes]) -> usize
    ensures { result ≤ length codes.now }
{
    let Some(level) = cube.levels.first() else {
        return 0;
    };
    count_without(&level.cells, codes)
}

// How many of these codes have no cell with a fact. Nothing is waited for between one look-up and the next, so that several
// cells are fetched at a time.
fn count_without<N: Numbers>(cells: &Cells<N>, codes: &[Codes]) -> usize
    ensures { result ≤ length codes.now }
{
    let mut number = 0;
    for each in codes {
        number += usize::from(is_new(cells, each));
    }
    number
}

// Whether codes have no cell with a fact.
fn is_new<N: Numbers>(cells: &Cells<N>, codes: &Codes) -> bool {
    match cells.get(codes) {
        Some(cell) => cell.count() == 0,
        None => true,
    }
}

// Makes room for so many more cells, so that no table grows amid the counting.
fn make_room<N: Numbers>(cube: &mut Cube<N>, more: usize) -> Result<(), AllocError>
    ensures same { SameCells cube.old cube.new }
    ensures texts { cube.new.dictionaries ≡ cube.old.dictionaries }
{
    reserve_in_levels(&mut cube.levels, more)
}

// Adds each fact by its codes, unless it couldn't be counted.
fn count_all<N: Numbers>(
    cube: &mut Cube<N>,
    facts: &[&Fact],
    codes: &[Codes],
) -> Result<(), AllocError>
    requires fit { All (λ fact. fits cube.old.schema fact ≡ true) (map (λ fact. fact.now) facts.now) }
    requires codes { AllZip (AreCodesOfFact cube.old.dictionaries) (map (λ fact. fact.now) facts.now) codes.now }
    ensures { OnOk result (GathersMore (map (λ fact. fact.now) facts.now) cube.old cube.new) }
{
    for place in 0..facts.len() {
        if cube.facts == u64::MAX {
            return Err(AllocError);
        }
        cube.count_coded(facts[place], &codes[place])?;
    }
    Ok(())
}
