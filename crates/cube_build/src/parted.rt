//! The books of all sources, and the cubes of the parts of the grouping sets, which follow the books when they are asked.
ghost use Rattle.std.specs.Prelude.{◌≡◌, ◌≤◌, ◌<◌, ◌++◌, ◌∷◌, [], List, None, Option, Some, false, true, length, map, get_or, IfOk, IfSome, IsSome, OnOk, OnErr, ℕ};
ghost use Rattle.std.specs.Bool.{OnTrue};
ghost use Rattle.cube_core.specs.Arrival.{Arrivals};
ghost use Rattle.cube_cells.specs.CountedCube.{HasCounted, fits_counted};
ghost use Rattle.cube_core.specs.Takes.{fits};
ghost use Rattle.cube_core.specs.declared.fact.Fact.{Fact as TheFact};
ghost use Rattle.cube_ledger.specs.Ledger.{AllFit, AtSource, Enters, Exchanges, LedgerStandsAt, all_facts};
ghost use Rattle.cube_build.specs.Parted.{AllFill, AllFitCounted, AllSettle, AreBehind, ArePartsFor, ArePartsWith, Fills, GainsCounted, LosesCounted, MaySettle, Notes, Settles};
ghost use Rattle.cube_build.specs.declared.parted.Part.{Part as ThePart};

use crate::fill::counted_for;
use crate::joined::HoldsCube;
use cube_cells::{CountedCube, Cube};
use cube_core::{Fact, Item, Text};
use cube_ledger::{Ledger, Ruling};
use std::alloc::{AllocError, Global};
use std::marker::Model;
use std::thread::{Threads, for_each_mut};

/// How many facts may wait for which no thread is started.
const FEW: usize = 64;

/// How many facts may wait in any case, before the cubes are filled anew instead.
const MANY: usize = 10_000;

/// The cube of a part of the grouping sets, and whether a refused growth has spoilt it.
#[derive(Drop)]
pub struct Part {
    pub cube: CountedCube,
    pub is_spent: bool,
}

impl HoldsCube for Part {
    ghost lattice = { λ part. part.cube.cube };

    fn held(&self) -> &Cube {
        self.cube.cube()
    }
}

/// What 1 to 64 sources have sent so far: the books and the refusals of each, and the cubes of the facts in all books, each
/// over a part of the grouping sets.
///
/// A change is made in the books at once; what comes to them and what is gone from them waits until [`Parted::settle`],
/// which changes the cubes side by side. Where many facts wait, nothing is noted any more: the cubes are out of date, and
/// are filled anew from the books.
#[derive(Drop)]
pub struct Parted {
    alloc: Global,
    ledger: Ledger,
    parts: Vec<Part>,
    come: Vec<Fact>,
    gone: Vec<Fact>,
    is_out_of_date: bool,
}

impl Model for Parted {
    ghost use Rattle.std.specs.Prelude.{◌≡◌, false};
    ghost use Rattle.cube_ledger.specs.Ledger.{LedgerView};
    ghost use Rattle.cube_build.specs.Parted.{AreBehind};

    ghost Value = { LedgerView };

    ghost view = { λ p. p.ledger };

    ghost invariant = { λ p. p.is_out_of_date ≡ false →
        AreBehind p.ledger p.parts.items p.come.items p.gone.items };
}

impl Parted {
    /// The books of a ledger. The cubes are out of date until they are settled.
    pub fn of(alloc: Global, ledger: Ledger) -> Parted
        ensures { result ≡ ledger }
    {
        Parted {
            alloc,
            ledger,
            parts: Vec::new(alloc),
            come: Vec::new(alloc),
            gone: Vec::new(alloc),
            is_out_of_date: true,
        }
    }

    /// Takes an item of a source: a refused one is noted with its code, and any other changes the book of the source.
    ///
    /// The only error is that memory ran out; then nothing changed, and the item is given up.
    pub fn apply(&mut self, source: u32, item: Item) -> Result<(), AllocError>
        requires first { 1 ≤ source }
        requires last { source ≤ length self.old.accounts }
        ensures enters { OnOk result
            (AtSource (Enters self.old.schema item) source self.old self.new) }
        ensures stands { OnOk result ((arrivals : Arrivals) → LedgerStandsAt self.old arrivals →
            LedgerStandsAt self.new (arrivals ++ (source, item) ∷ [])) }
        ensures sources { OnOk result (length self.new.accounts ≡ length self.old.accounts) }
        ensures schema { self.new.schema ≡ self.old.schema }
        ensures err { OnErr result (self.new ≡ self.old) }
    {
        self.give_up_where_many_wait();
        self.enter(source, item)
    }

    // The same, however many facts wait.
    fn enter(&mut self, source: u32, item: Item) -> Result<(), AllocError>
        requires first { 1 ≤ source }
        requires last { source ≤ length self.old.accounts }
        ensures enters { OnOk result
            (AtSource (Enters self.old.schema item) source self.old self.new) }
        ensures stands { OnOk result ((arrivals : Arrivals) → LedgerStandsAt self.old arrivals →
            LedgerStandsAt self.new (arrivals ++ (source, item) ∷ [])) }
        ensures sources { OnOk result (length self.new.accounts ≡ length self.old.accounts) }
        ensures schema { self.new.schema ≡ self.old.schema }
        ensures err { OnErr result (self.new ≡ self.old) }
    {
        let Item { number, what } = item;
        match self.ledger.rule(source, what)? {
            Ruling::Refuse { code } => self.ledger.refuse(source, number, code),
            Ruling::Put { id, fact } => self.put(source, id, fact),
            Ruling::Take { id } => {
                self.take(source, &id);
                Ok(())
            }
        }
    }

    // Puts a fact under an id of a source, in place of the one that is there.
    fn put(&mut self, source: u32, id: Text, fact: Fact) -> Result<(), AllocError>
        requires first { 1 ≤ source }
        requires last { source ≤ length self.old.accounts }
        requires fits { fits self.old.schema fact ≡ true }
        ensures put { OnOk result ((gone : Option TheFact) ×
            AtSource (Exchanges id gone (Some fact)) source self.old self.new) }
        ensures err { OnErr result (self.new ≡ self.old) }
    {
        let come = copy_unless(self.is_out_of_date, self.alloc, &fact);
        match self.ledger.put(source, id, fact) {
            Ok(gone) => {
                let noted = note_both(&mut self.come, come, &mut self.gone, gone);
                self.is_out_of_date |= !noted;
                Ok(())
            }
            Err(fact) => {
                drop(fact);
                Err(AllocError)
            }
        }
    }

    // Takes the fact under an id of a source out, if there is one.
    fn take(&mut self, source: u32, id: &Text)
        requires first { 1 ≤ source }
        requires last { source ≤ length self.old.accounts }
        ensures { (gone : Option TheFact) ×
            AtSource (Exchanges id.now gone None) source self.old self.new }
    {
        let gone = self.ledger.take(source, id);
        let noted = note(&mut self.gone, gone);
        self.is_out_of_date |= !noted;
    }

    // How many facts wait.
    fn waiting(&self) -> usize {
        self.come.len().saturating_add(self.gone.len())
    }

    // Gives the cubes up where so many facts wait that filling them anew takes less than following them.
    fn give_up_where_many_wait(&mut self)
        ensures { self.new ≡ self.old }
    {
        let held = self
            .parts
            .first()
            .map_or(0, |part| part.cube.cube().facts());
        if self.waiting() < MANY || (self.waiting() as u64) < held / 8 {
            return;
        }
        self.is_out_of_date = true;
        self.come = Vec::new(self.alloc);
        self.gone = Vec::new(self.alloc);
    }

    /// Has the cubes follow the books, by at most so many threads; no thread is started where few facts wait. Cubes that
    /// are out of date are made anew: as many parts as threads, but at most 8.
    ///
    /// The only error is that memory ran out, or of numbers to count the facts with. The cubes are out of date then.
    pub fn settle<T: Threads + Sync>(&mut self, rt: &T, threads: usize) -> Result<(), AllocError>
        ensures { self.new ≡ self.old }
    {
        if self.is_out_of_date {
            return self.fill_anew(rt, threads);
        }
        let threads = if self.waiting() < FEW {
            1
        } else {
            threads.max(1)
        };
        settle_parts(
            rt,
            threads,
            self.parts.as_mut_slice(),
            self.come.as_slice(),
            self.gone.as_slice(),
        );
        self.come.clear();
        self.gone.clear();
        if is_any_spent(&self.parts) {
            self.is_out_of_date = true;
            return Err(AllocError);
        }
        Ok(())
    }

    // Makes the cubes of all parts from the books.
    fn fill_anew<T: Threads + Sync>(&mut self, rt: &T, threads: usize) -> Result<(), AllocError>
        ensures { self.new ≡ self.old }
    {
        self.is_out_of_date = true;
        self.parts = Vec::new(self.alloc);
        self.come.clear();
        self.gone.clear();
        self.parts = filled_parts(rt, self.alloc, threads.clamp(1, 8), &self.ledger)?;
        self.is_out_of_date = false;
        Ok(())
    }

    /// The cubes of all parts, over the facts in the books of all sources; `None` where facts wait, and where the cubes are
    /// out of date.
    pub fn parts(&self) -> Option<&[Part]>
        ensures parts { IfSome result (λ parts.
            ArePartsWith self.now.schema (all_facts self.now.accounts) parts.now) }
        ensures fit { IfSome result (λ parts. AllFit self.now.schema (all_facts self.now.accounts)) }
    {
        if self.is_out_of_date || !self.come.is_empty() || !self.gone.is_empty() {
            return None;
        }
        Some(self.parts.as_slice())
    }

    /// The books and the refusals of all sources.
    pub fn ledger(&self) -> &Ledger
        ensures { result.now ≡ self.now }
    {
        &self.ledger
    }

    /// The books and the refusals alone; the cubes are let go.
    pub fn into_ledger(self) -> Ledger
        ensures { result ≡ self }
    {
        self.ledger
    }
}

// Puts a fact, where there is one, behind others, and answers whether there was memory for it.
fn note(facts: &mut Vec<Fact>, fact: Option<Fact>) -> bool
    ensures { OnTrue result (Notes fact facts.old.items facts.new.items) }
{
    match fact {
        Some(fact) => facts.push(fact).is_ok(),
        None => true,
    }
}

// Puts a fact that came behind others, and one that is gone, if there is one, behind others.
fn note_both(
    come: &mut Vec<Fact>,
    came: Option<Fact>,
    gone: &mut Vec<Fact>,
    went: Option<Fact>,
) -> bool
    ensures some { OnTrue result (IsSome came) }
    ensures came { OnTrue result (Notes came come.old.items come.new.items) }
    ensures went { OnTrue result (Notes went gone.old.items gone.new.items) }
{
    came.is_some() && note(come, came) && note(gone, went)
}

// A copy of a fact, unless none is wanted, or there is no memory for it.
fn copy_unless(is_unwanted: bool, alloc: Global, fact: &Fact) -> Option<Fact>
    ensures { IfSome result (λ copy. copy ≡ fact.now) }
{
    if is_unwanted {
        return None;
    }
    fact.copy(alloc).ok()
}

// Has the cubes of parts gain the facts that came and lose those that are gone, by at most so many threads.
fn settle_parts<T: Threads + Sync>(
    rt: &T,
    threads: usize,
    parts: &mut [Part],
    come: &[Fact],
    gone: &[Fact],
)
    requires threads { 1 ≤ threads }
    requires each { (part : ℕ) (d : ThePart) → part < length parts.old →
        MaySettle come.now gone.now (get_or parts.old part d).cube }
    ensures number { length parts.new ≡ length parts.old }
    ensures each { AllSettle come.now gone.now parts.old parts.new }
{
    for_each_mut(
        rt,
        parts,
        threads,
        &|_, part| {
            settle_part(part, come, gone);
        },
    );
}

fn settle_part(part: &mut Part, come: &[Fact], gone: &[Fact])
    requires { MaySettle come.now gone.now part.old.cube }
    ensures { part.new.is_spent ≡ false → Settles come.now gone.now part.old.cube part.new.cube }
{
    part.is_spent = settle_cube(&mut part.cube, come, gone).is_err();
}

// Has a cube gain the facts that came and lose those that are gone. The only error is that memory ran out, or of numbers to
// count the facts with.
fn settle_cube(cube: &mut CountedCube, come: &[Fact], gone: &[Fact]) -> Result<(), AllocError>
    requires { MaySettle come.now gone.now cube.old }
    ensures { OnOk result (Settles come.now gone.now cube.old cube.new) }
{
    add_all(cube, come)?;
    take_all(cube, gone);
    Ok(())
}

// Adds facts, unless they couldn't be counted.
fn add_all(cube: &mut CountedCube, facts: &[Fact]) -> Result<(), AllocError>
    requires { AllFitCounted cube.old facts.now }
    ensures { OnOk result (GainsCounted facts.now cube.old cube.new) }
{
    for fact in facts {
        add_counted(cube, fact)?;
    }
    Ok(())
}

// Adds a fact, unless it couldn't be counted.
fn add_counted(cube: &mut CountedCube, fact: &Fact) -> Result<(), AllocError>
    requires { fits_counted cube.old.texts cube.old.cube.schema fact.now ≡ true }
    ensures { OnOk result (GainsCounted (fact.now ∷ []) cube.old cube.new) }
{
    if cube.cube().facts() == u64::MAX {
        return Err(AllocError);
    }
    cube.add(fact)
}

// Takes facts away that the cube has.
fn take_all(cube: &mut CountedCube, facts: &[Fact])
    requires fit { AllFitCounted cube.old facts.now }
    requires has { (left : List TheFact) × HasCounted (facts.now ++ left) cube.old }
    ensures { LosesCounted facts.now cube.old cube.new }
{
    for fact in facts {
        cube.remove(fact);
    }
}

fn is_any_spent(parts: &[Part]) -> bool
    ensures { result ≡ false → (part : ℕ) (d : ThePart) → part < length parts.now →
        (get_or parts.now part d).is_spent ≡ false }
{
    parts.iter().any(|part| part.is_spent)
}

// The cubes of so many parts, filled with the facts of all books of a ledger, half of them at a time, since each takes the
// room of its finest set.
fn filled_parts<T: Threads + Sync>(
    rt: &T,
    alloc: Global,
    parts: usize,
    ledger: &Ledger,
) -> Result<Vec<Part>, AllocError>
    requires some { 1 ≤ parts }
    requires few { parts ≤ 8 }
    ensures { IfOk result (λ filled. AreBehind ledger.now filled.items [] []) }
{
    let mut filled = new_parts(alloc, parts, ledger)?;
    let facts = ledger.facts()?;
    fill_parts(rt, parts.div_ceil(2), filled.as_mut_slice(), &facts);
    if is_any_spent(&filled) {
        return Err(AllocError);
    }
    Ok(filled)
}

// The cubes of so many parts, over no fact.
fn new_parts(alloc: Global, parts: usize, ledger: &Ledger) -> Result<Vec<Part>, AllocError>
    requires few { parts ≤ 8 }
    ensures fit { AllFit ledger.now.schema (all_facts ledger.now.accounts) }
    ensures long { IfOk result (λ new. length new.items ≡ parts) }
    ensures each { IfOk result (λ new. ArePartsFor ledger.now.schema parts new.items) }
{
    let schema = ledger.schema();
    let mut new = Vec::with_capacity(alloc, parts)?;
    for part in 0..parts {
        let cube = Cube::new_part(alloc, schema, part as u32, parts as u32)?;
        let cube = counted_for(alloc, schema, cube);
        new.push(Part {
            cube,
            is_spent: false,
        })?;
    }
    Ok(new)
}

// Fills the cubes of parts with facts that fit, by at most so many threads.
fn fill_parts<T: Threads + Sync>(rt: &T, threads: usize, parts: &mut [Part], facts: &[&Fact])
    requires threads { 1 ≤ threads }
    requires each { (part : ℕ) (d : ThePart) → part < length parts.old →
        AllFitCounted (get_or parts.old part d).cube (map (λ fact. fact.now) facts.now) }
    ensures number { length parts.new ≡ length parts.old }
    ensures each { AllFill (map (λ fact. fact.now) facts.now) parts.old parts.new }
{
    for_each_mut(
        rt,
        parts,
        threads,
        &|_, part| {
            fill_part(part, facts);
        },
    );
}

fn fill_part(part: &mut Part, facts: &[&Fact])
    requires { AllFitCounted part.old.cube (map (λ fact. fact.now) facts.now) }
    ensures { part.new.is_spent ≡ false →
        Fills (map (λ fact. fact.now) facts.now) part.old.cube part.new.cube }
{
    part.is_spent = part.cube.fill(facts).is_err();
}
