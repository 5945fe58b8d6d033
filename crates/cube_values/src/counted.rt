//! A multiset of numbers.
ghost use Rattle.std.specs.Prelude.{nat_lt, ◌==◌, ℤ, [], ◌∷◌, ◌≡◌, ◌<◌, ◌≤◌, ◌+◌, ◌^◌, ◌↔◌, All, IsTrue, IsNone, IfNone, IfSome, IfOk, OnOk, OnErr};
ghost use Rattle.std.specs.Bool.{OnTrue, OnFalse};
ghost use Rattle.cube_values.specs.Bag.{Bag, AddsBag, AddsOne, AddsTimes, SameHeld, held_of, size_of, HasLeast, HasGreatest, HasEnds};
ghost use Rattle.cube_values.specs.Narrow.{once_each};
ghost use Rattle.cube_values.specs.Values.{bag_of, bag_left};

mod statistics;

use crate::log::Log;
use crate::narrow::{Narrow, numbers_repeat};
use crate::ordered::Ordered;
use crate::short::{FEW, Short};
use crate::single::Single;
use crate::table::Table;
use std::alloc::{AllocError, Global};
use std::collections::BTreeMap;
use std::marker::Model;
use std::mem;

/// How often a number comes at most that is merged one by one into a narrow list: so many take the room of a pair.
const SPLIT: u64 = 4;

/// The most numbers of a narrow list that are searched for one to take away.
const SEARCHED: usize = 64;

/// How many numbers a narrow list has at least that is brought in order.
const SORTED: usize = 256;

/// A multiset of numbers: how often each is held.
///
/// A number that is held alone, however often, takes no memory of its own. Numbers of 32 bits that come one at a time
/// stand in a narrow list, of 4 bytes a number, which keeps its least and greatest number and looks at each for
/// `holds`. It gives way to a form that counts how often each number is held where a wider number comes, or one many
/// times at once, where the numbers repeat, and where one is taken from many.
///
/// A narrow list of many numbers may be brought in order. Those that come later then stand behind the others, and those
/// that are taken away are only noted, until they are so many, or an end goes, that all are brought in order again. A
/// question of the order searches those in order, and looks at each of the few others. Where an end goes again and
/// again, the list gives way to a log.
///
/// Of the forms that count, a short list takes few numbers. More are a log of what was added, with a list of what was
/// taken away since; it answers its least and greatest number at once, and looks at each of its pairs for `holds`. When
/// one of its ends is taken, or very much is, the log is sorted and what was taken leaves it. If that was little, as
/// with a client that always takes the least number, the pairs stay sorted, and the next add makes a table of them, in
/// the order of the numbers. Where the numbers of a log repeat, a table takes its place too.
#[derive(Drop)]
pub struct Counted {
    len: u64,
    values: Values,
    alloc: Global,
}

#[derive(Drop)]
enum Values {
    One(Single),
    Few(Short),
    Narrow(Box<Narrow>),
    Ordered(Box<Ordered>),
    Logged(Box<Log>),
    Many(Box<Table>),
}

impl Model for Counted {
    ghost use Rattle.std.specs.Prelude.{◌≡◌};
    ghost use Rattle.cube_values.specs.Bag.{Bag, size_of};

    ghost Value = { Bag };

    ghost use Rattle.cube_values.specs.Values.{bag_of};

    ghost view = { λ c. bag_of c.values };

    ghost invariant = { λ c. c.len ≡ size_of (bag_of c.values) };
}

impl Counted {
    /// An empty multiset; it takes no memory.
    pub fn new(alloc: Global) -> Counted
        ensures held { (v : ℤ) → held_of result v ≡ 0 }
        ensures size { size_of result ≡ 0 }
    {
        Counted {
            len: 0,
            values: Values::One(Single::none()),
            alloc,
        }
    }

    /// Adds one `value`. Where memory runs out, the multiset stays as it was.
    #[tactic(auto, using(crate::proofs::BagLaws::size_of_once, crate::proofs::BagLaws::adds_once))]
    pub fn add(&mut self, value: i64) -> Result<(), AllocError>
        requires { size_of self.old + 1 < 2 ^ 64 }
        ensures added { OnOk result (AddsOne self.old self.new value) }
        ensures err { OnErr result (self.new ≡ self.old) }
    {
        add_value(self.alloc, &mut self.values, value, 1)?;
        self.len += 1;
        Ok(())
    }

    /// Adds all numbers of another multiset, each different one at once. Where memory runs out, the multiset is
    /// left empty.
    pub fn merge(&mut self, more: &Counted) -> Result<(), AllocError>
        requires { size_of self.old + size_of more.now < 2 ^ 64 }
        ensures merged { OnOk result (AddsBag self.old self.new more.now) }
        ensures err { OnErr result (size_of self.new ≡ 0) }
    {
        if let Err(error) = merge_values(self.alloc, &mut self.values, &more.values) {
            *self = Counted::new(self.alloc);
            return Err(error);
        }
        self.len += more.len;
        Ok(())
    }

    /// Gives back the room that lists have beyond their numbers; an add makes room again where it needs some. It takes
    /// no memory.
    pub fn shrink_to_fit(&mut self)
        ensures { self.new ≡ self.old }
    {
        match &mut self.values {
            Values::Few(short) => short.shrink_to_fit(),
            Values::Narrow(narrow) => narrow.shrink_to_fit(),
            Values::Ordered(ordered) => ordered.shrink_to_fit(),
            Values::Logged(log) => log.shrink_to_fit(),
            Values::One(_) | Values::Many(_) => {}
        }
    }

    /// Brings the numbers of a narrow list in order, where they are many: then a question of their order is answered by
    /// a search. Where memory runs out, they stay as they are.
    pub fn bring_in_order(&mut self)
        ensures { self.new ≡ self.old }
    {
        let old = mem::replace(&mut self.values, Values::One(Single::none()));
        self.values = brought_in_order(self.alloc, old);
    }

    /// Takes one `value` away, which is held; a log makes no search for it where it lies between the ends, nor does a
    /// list in order. Where memory runs out, it does without.
    #[tactic(auto, using(crate::proofs::BagLaws::size_of_one, crate::proofs::BagLaws::held_before))]
    pub fn take(&mut self, value: i64)
        requires { 0 < held_of self.old value }
        ensures taken { AddsOne self.new self.old value }
        ensures size { size_of self.old < 2 ^ 64 }
    {
        take_value(self.alloc, &mut self.values, value);
        self.len -= 1;
    }

    /// Takes one `value` away; answers whether there was one. Where memory runs out, it does without.
    #[tactic(auto, using(crate::proofs::BagLaws::size_of_one, crate::proofs::BagLaws::held_before))]
    pub fn remove(&mut self, value: i64) -> bool
        ensures found { IsTrue result ↔ (0 < held_of self.old value) }
        ensures taken { OnTrue result (AddsOne self.new self.old value) }
        ensures unchanged { OnFalse result (self.new ≡ self.old) }
        ensures size { size_of self.old < 2 ^ 64 }
    {
        let was_held = remove_value(self.alloc, &mut self.values, value);
        if was_held {
            self.len -= 1;
        }
        was_held
    }

    /// Whether `value` is held.
    pub fn holds(&self, value: i64) -> bool
        ensures { result ≡ nat_lt 0 (held_of self.now value) }
    {
        holds_value(&self.values, value)
    }

    /// The least number held. A short list looks at each pair, and the other forms answer at once.
    pub fn least(&self) -> Option<i64>
        ensures none { IsNone result ↔ (size_of self.now ≡ 0) }
        ensures least { IfSome result (HasLeast self.now) }
    {
        match &self.values {
            Values::One(single) => single.number(),
            Values::Few(short) => short.least(),
            Values::Narrow(narrow) => narrow.least(),
            Values::Ordered(ordered) => ordered.least(),
            Values::Logged(log) => log.least(),
            Values::Many(table) => table.least(),
        }
    }

    /// The greatest number held. A short list looks at each pair, and the other forms answer at once.
    pub fn greatest(&self) -> Option<i64>
        ensures none { IsNone result ↔ (size_of self.now ≡ 0) }
        ensures greatest { IfSome result (HasGreatest self.now) }
    {
        match &self.values {
            Values::One(single) => single.number(),
            Values::Few(short) => short.greatest(),
            Values::Narrow(narrow) => narrow.greatest(),
            Values::Ordered(ordered) => ordered.greatest(),
            Values::Logged(log) => log.greatest(),
            Values::Many(table) => table.greatest(),
        }
    }

    /// How many numbers are held, each counted as often as it is held.
    #[tactic(auto, using(crate::proofs::BagLaws::held_le_size))]
    pub fn len(&self) -> u64
        ensures len { result ≡ size_of self.now }
        ensures held { (v : ℤ) → held_of self.now v ≤ result }
    {
        self.len
    }

    /// Whether no number is held.
    pub fn is_empty(&self) -> bool
        ensures { result ≡ (size_of self.now == 0) }
    {
        self.len == 0
    }
}

// The same numbers, those of a narrow list in order where they are many.
fn brought_in_order(alloc: Global, values: Values) -> Values
    ensures { bag_of result ≡ bag_of values }
{
    match values {
        Values::Narrow(narrow) => put_in_order(alloc, narrow),
        Values::Ordered(mut ordered) => {
            ordered.settle();
            Values::Ordered(ordered)
        }
        other => other,
    }
}

// The numbers of a narrow list in order, where they are many and there is memory for the form that keeps them so.
fn put_in_order(alloc: Global, narrow: Box<Narrow>) -> Values
    ensures { bag_of result ≡ narrow.value }
{
    if narrow.numbers().len() < SORTED {
        return Values::Narrow(narrow);
    }
    match Ordered::room(alloc) {
        Ok(mut room) => {
            *room = Ordered::of_narrow(alloc, Box::into_inner(narrow));
            Values::Ordered(room)
        }
        Err(_) => Values::Narrow(narrow),
    }
}

// Adds all numbers of other values, or else puts a copy of those in the place of the first, and adds the first to it.
fn merge_values(alloc: Global, values: &mut Values, more: &Values) -> Result<(), AllocError>
    requires { size_of (bag_of values.old) + size_of (bag_of more.now) < 2 ^ 64 }
    ensures { OnOk result (AddsBag (bag_of values.old) (bag_of values.new) (bag_of more.now)) }
{
    let Some(copy) = copy_of_larger(alloc, values, more)? else {
        return append_values(alloc, values, more);
    };
    let old = mem::replace(values, copy);
    append_values(alloc, values, &old)
}

// A copy of other values, where it takes less to add the first to it: where they are in a form for more numbers, and
// as a log where two short lists are too long for one.
fn copy_of_larger(
    alloc: Global,
    values: &Values,
    more: &Values,
) -> Result<Option<Values>, AllocError>
    ensures { IfOk result (λ copy. IfSome copy (λ values. SameHeld (bag_of more.now) (bag_of values))) }
{
    let copy = match (values, more) {
        (Values::One(_), Values::Few(short)) => Values::Few(short.copy(alloc)?),
        (Values::One(single), Values::Narrow(narrow)) => {
            Values::Narrow(narrow.copy(alloc, usize::from(single.pair().1 > 0))?)
        }
        (Values::One(single), Values::Ordered(ordered)) => {
            Values::Narrow(ordered.copy(alloc, usize::from(single.pair().1 > 0))?)
        }
        (
            Values::One(_) | Values::Few(_) | Values::Narrow(_) | Values::Ordered(_),
            Values::Logged(log),
        ) => Values::Logged(log.copy(alloc)?),
        (Values::Few(short), Values::Few(more)) if short.pairs().len() + more.pairs().len() > FEW =>
            { Values::Logged(Log::of_both(alloc, more.pairs(), &[])?) }
        _ => return Ok(None),
    };
    Ok(Some(copy))
}

// Adds all numbers of other values.
fn append_values(alloc: Global, values: &mut Values, more: &Values) -> Result<(), AllocError>
    requires { size_of (bag_of values.old) + size_of (bag_of more.now) < 2 ^ 64 }
    ensures { OnOk result (AddsBag (bag_of values.old) (bag_of values.new) (bag_of more.now)) }
{
    match more {
        Values::One(single) => merge_pair(alloc, values, single.pair()),
        Values::Few(short) => merge_short(alloc, values, short),
        Values::Narrow(narrow) => merge_list(alloc, values, narrow.numbers(), narrow.ends()),
        Values::Ordered(ordered) => merge_ordered(alloc, values, ordered),
        Values::Logged(log) => merge_log(alloc, values, log),
        Values::Many(table) => merge_counts(alloc, values, table.counts()),
    }
}

// Adds a number as often as its pair says; a pair of no count changes nothing. A narrow list stays one where the number
// takes no more room there than its pair.
fn merge_pair(alloc: Global, values: &mut Values, pair: (i64, u64)) -> Result<(), AllocError>
    requires { size_of (bag_of values.old) + pair.1 < 2 ^ 64 }
    ensures { OnOk result (AddsTimes (bag_of values.old) (bag_of values.new) pair.0 pair.1) }
{
    if pair.1 == 0 {
        return Ok(());
    }
    if pair.1 <= SPLIT
        && let Values::Narrow(_) | Values::Ordered(_) = values
    {
        return merge_times(alloc, values, pair);
    }
    add_value(alloc, values, pair.0, pair.1)
}

// Adds a number as often as its pair says, one by one.
fn merge_times(alloc: Global, values: &mut Values, pair: (i64, u64)) -> Result<(), AllocError>
    requires { size_of (bag_of values.old) + pair.1 < 2 ^ 64 }
    ensures { OnOk result (AddsTimes (bag_of values.old) (bag_of values.new) pair.0 pair.1) }
{
    for _time in 0..pair.1 {
        add_value(alloc, values, pair.0, 1)?;
    }
    Ok(())
}

// Adds the numbers of pairs.
fn merge_pairs(alloc: Global, values: &mut Values, pairs: &[(i64, u64)]) -> Result<(), AllocError>
    requires { size_of (bag_of values.old) + size_of pairs.now < 2 ^ 64 }
    ensures { OnOk result (AddsBag (bag_of values.old) (bag_of values.new) pairs.now) }
{
    for pair in pairs {
        merge_pair(alloc, values, *pair)?;
    }
    Ok(())
}

// Adds the numbers of a short list: behind those of a log at once.
fn merge_short(alloc: Global, values: &mut Values, more: &Short) -> Result<(), AllocError>
    requires { size_of (bag_of values.old) + size_of more.now < 2 ^ 64 }
    ensures { OnOk result (AddsBag (bag_of values.old) (bag_of values.new) more.now) }
{
    if let Values::Logged(log) = values
        && log.append_few(more.pairs())?
    {
        return Ok(());
    }
    merge_pairs(alloc, values, more.pairs())
}

// Adds the numbers of a list that was brought in order.
fn merge_ordered(alloc: Global, values: &mut Values, more: &Ordered) -> Result<(), AllocError>
    requires { size_of (bag_of values.old) + size_of more.now < 2 ^ 64 }
    ensures { OnOk result (AddsBag (bag_of values.old) (bag_of values.new) more.now) }
{
    if let Some(numbers) = more.numbers() {
        return merge_list(alloc, values, numbers, more.ends());
    }
    let numbers = more.left(alloc, 0)?;
    merge_list(alloc, values, &numbers, more.ends())
}

// Adds numbers with these ends, each once: behind those of a narrow list at once.
fn merge_list(
    alloc: Global,
    values: &mut Values,
    numbers: &[i32],
    ends: (i32, i32),
) -> Result<(), AllocError>
    requires ends { HasEnds (once_each numbers.now) ends.0 ends.1 }
    requires fits { size_of (bag_of values.old) + size_of (once_each numbers.now) < 2 ^ 64 }
    ensures { OnOk result (AddsBag (bag_of values.old) (bag_of values.new) (once_each numbers.now)) }
{
    if let Values::Narrow(narrow) = values
        && narrow.append_list(numbers, ends)?
    {
        return Ok(());
    }
    merge_numbers(alloc, values, numbers)
}

// Adds numbers, each once.
fn merge_numbers(alloc: Global, values: &mut Values, numbers: &[i32]) -> Result<(), AllocError>
    requires { size_of (bag_of values.old) + size_of (once_each numbers.now) < 2 ^ 64 }
    ensures { OnOk result (AddsBag (bag_of values.old) (bag_of values.new) (once_each numbers.now)) }
{
    for number in numbers {
        add_value(alloc, values, i64::from(*number), 1)?;
    }
    Ok(())
}

// Adds the numbers of a log: behind those of another at once.
fn merge_log(alloc: Global, values: &mut Values, more: &Log) -> Result<(), AllocError>
    requires { size_of (bag_of values.old) + size_of more.now < 2 ^ 64 }
    ensures { OnOk result (AddsBag (bag_of values.old) (bag_of values.new) more.now) }
{
    if let Values::Logged(log) = values
        && log.append(more)?
    {
        return Ok(());
    }
    merge_each(alloc, values, more)
}

// Adds the numbers of a log, pair by pair.
fn merge_each(alloc: Global, values: &mut Values, more: &Log) -> Result<(), AllocError>
    requires { size_of (bag_of values.old) + size_of more.now < 2 ^ 64 }
    ensures { OnOk result (AddsBag (bag_of values.old) (bag_of values.new) more.now) }
{
    if let Some(pairs) = more.pairs() {
        return merge_pairs(alloc, values, pairs);
    }
    let settled = more.settled(alloc)?;
    merge_pairs(alloc, values, &settled)
}

// Adds the numbers of a table.
fn merge_counts(
    alloc: Global,
    values: &mut Values,
    counts: &BTreeMap<i64, u64>,
) -> Result<(), AllocError>
    requires some { All (λ e. 0 < e.1) counts.now.entries }
    requires fits { size_of (bag_of values.old) + size_of counts.now.entries < 2 ^ 64 }
    ensures { OnOk result (AddsBag (bag_of values.old) (bag_of values.new) counts.now.entries) }
{
    for (value, count) in counts {
        add_value(alloc, values, *value, *count)?;
    }
    Ok(())
}

// Adds a number so many times.
fn add_value(alloc: Global, values: &mut Values, value: i64, times: u64) -> Result<(), AllocError>
    requires some { 0 < times }
    requires fits { size_of (bag_of values.old) + times < 2 ^ 64 }
    ensures added { OnOk result (AddsTimes (bag_of values.old) (bag_of values.new) value times) }
    ensures err { OnErr result (bag_of values.new ≡ bag_of values.old) }
{
    let more = (value, times);
    let grown = match values {
        Values::One(single) => add_to_single(alloc, single, more),
        Values::Few(short) => add_to_short(alloc, short, more),
        Values::Narrow(narrow) => add_to_narrow(alloc, narrow, more),
        Values::Ordered(ordered) => add_to_ordered(alloc, ordered, more),
        Values::Logged(log) => add_to_log(alloc, log, more),
        Values::Many(table) => return table.add(value, times),
    }?;
    if let Some(grown) = grown {
        *values = grown;
    }
    Ok(())
}

// Adds a number so many times to one that is held alone. Where that is another, answers both.
fn add_to_single(
    alloc: Global,
    single: &mut Single,
    more: (i64, u64),
) -> Result<Option<Values>, AllocError>
    requires some { 0 < more.1 }
    requires fits { size_of single.old + more.1 < 2 ^ 64 }
    ensures added { IfOk result (λ grown. AddsTimes single.old (bag_left single.new grown) more.0 more.1) }
    ensures err { OnErr result (single.new ≡ single.old) }
{
    if single.add(more.0, more.1) {
        return Ok(None);
    }
    Ok(Some(two_of(alloc, single.pair(), more)?))
}

// Two numbers, each with how often it is held: a narrow list where each is of 32 bits and is held once, and else a
// short one.
#[cold]
fn two_of(alloc: Global, first: (i64, u64), second: (i64, u64)) -> Result<Values, AllocError>
    requires first { 0 < first.1 }
    requires second { 0 < second.1 }
    ensures { IfOk result (λ values. AddsTimes (first ∷ []) (bag_of values) second.0 second.1) }
{
    if let Some(narrow) = Narrow::of_two(alloc, first, second)? {
        return Ok(Values::Narrow(narrow));
    }
    Ok(Values::Few(Short::of_two(alloc, first, second)?))
}

// Adds a number so many times to a short list. Where there is no place for it, answers a log of all.
fn add_to_short(
    alloc: Global,
    short: &mut Short,
    more: (i64, u64),
) -> Result<Option<Values>, AllocError>
    requires some { 0 < more.1 }
    requires fits { size_of short.old + more.1 < 2 ^ 64 }
    ensures added { IfOk result (λ grown. AddsTimes short.old (bag_left short.new grown) more.0 more.1) }
    ensures err { OnErr result (short.new ≡ short.old) }
{
    if short.add(more.0, more.1)? {
        return Ok(None);
    }
    let log = Log::of_both(alloc, short.pairs(), &[more])?;
    Ok(Some(Values::Logged(log)))
}

// Adds a number so many times to a narrow list. Where that doesn't take it, answers all in a form that counts how often
// each is held.
fn add_to_narrow(
    alloc: Global,
    narrow: &mut Narrow,
    more: (i64, u64),
) -> Result<Option<Values>, AllocError>
    requires some { 0 < more.1 }
    requires fits { size_of narrow.old + more.1 < 2 ^ 64 }
    ensures added { IfOk result (λ grown. AddsTimes narrow.old (bag_left narrow.new grown) more.0 more.1) }
    ensures err { OnErr result (narrow.new ≡ narrow.old) }
{
    if narrow.add(more.0, more.1)? {
        return Ok(None);
    }
    Ok(Some(counted_each(alloc, narrow.numbers(), more)?))
}

// Adds a number so many times to a list that was brought in order. Where that doesn't take it, answers all in a form
// that counts how often each is held.
fn add_to_ordered(
    alloc: Global,
    ordered: &mut Ordered,
    more: (i64, u64),
) -> Result<Option<Values>, AllocError>
    requires some { 0 < more.1 }
    requires fits { size_of ordered.old + more.1 < 2 ^ 64 }
    ensures added { IfOk result (λ grown. AddsTimes ordered.old (bag_left ordered.new grown) more.0 more.1) }
    ensures err { OnErr result (ordered.new ≡ ordered.old) }
{
    if ordered.add(more.0, more.1)? {
        return Ok(None);
    }
    Ok(Some(counted_left(alloc, ordered, more)?))
}

// The numbers of a list that was brought in order and another, so many times, in a form that counts how often each is
// held.
fn counted_left(alloc: Global, ordered: &Ordered, more: (i64, u64)) -> Result<Values, AllocError>
    requires some { 0 < more.1 }
    requires fits { size_of ordered.now + more.1 < 2 ^ 64 }
    ensures { IfOk result (λ values. AddsTimes ordered.now (bag_of values) more.0 more.1) }
{
    let numbers = ordered.left(alloc, 0)?;
    counted_each(alloc, &numbers, more)
}

// Numbers that are each held once and another, so many times, in a form that counts how often each is held: a short
// list where it has place for all, a table where the numbers repeat, and else a log.
#[cold]
fn counted_each(alloc: Global, numbers: &[i32], more: (i64, u64)) -> Result<Values, AllocError>
    requires some { 0 < more.1 }
    requires fits { size_of (once_each numbers.now) + more.1 < 2 ^ 64 }
    ensures { IfOk result (λ values. AddsTimes (once_each numbers.now) (bag_of values) more.0 more.1) }
{
    if let Some(short) = Short::of_numbers(alloc, numbers, more)? {
        return Ok(Values::Few(short));
    }
    if numbers_repeat(numbers) {
        return table_with(alloc, Table::of_numbers(alloc, numbers)?, more);
    }
    let log = Log::of_numbers(alloc, numbers, &[more])?;
    Ok(Values::Logged(log))
}

// Adds a number so many times to a log. Where that doesn't take it, answers a table of all.
fn add_to_log(alloc: Global, log: &mut Log, more: (i64, u64)) -> Result<Option<Values>, AllocError>
    requires some { 0 < more.1 }
    requires fits { size_of log.old + more.1 < 2 ^ 64 }
    ensures added { IfOk result (λ grown. AddsTimes log.old (bag_left log.new grown) more.0 more.1) }
    ensures err { OnErr result (log.new ≡ log.old) }
{
    if log.add(more.0, more.1)? {
        return Ok(None);
    }
    Ok(Some(table_of(alloc, log, more)?))
}

// A table of the numbers of a log and another, so many times.
#[cold]
fn table_of(alloc: Global, log: &Log, more: (i64, u64)) -> Result<Values, AllocError>
    requires some { 0 < more.1 }
    requires fits { size_of log.now + more.1 < 2 ^ 64 }
    ensures { IfOk result (λ values. AddsTimes log.now (bag_of values) more.0 more.1) }
{
    table_with(alloc, table_of_each(alloc, log)?, more)
}

// A table with a number, so many times.
fn table_with(alloc: Global, mut table: Table, more: (i64, u64)) -> Result<Values, AllocError>
    requires some { 0 < more.1 }
    requires fits { size_of table + more.1 < 2 ^ 64 }
    ensures { IfOk result (λ values. AddsTimes table (bag_of values) more.0 more.1) }
{
    table.add(more.0, more.1)?;
    Ok(Values::Many(Box::new(alloc, table)?))
}

// A table of the numbers of a log.
fn table_of_each(alloc: Global, log: &Log) -> Result<Table, AllocError>
    requires { size_of log.now < 2 ^ 64 }
    ensures { IfOk result (SameHeld log.now) }
{
    if let Some(pairs) = log.pairs() {
        return Table::of_pairs(alloc, pairs);
    }
    let settled = log.settled(alloc)?;
    Table::of_pairs(alloc, &settled)
}

fn holds_value(values: &Values, value: i64) -> bool
    ensures { result ≡ nat_lt 0 (held_of (bag_of values.now) value) }
{
    match values {
        Values::One(single) => single.holds(value),
        Values::Few(short) => short.holds(value),
        Values::Narrow(narrow) => narrow.holds(value),
        Values::Ordered(ordered) => ordered.holds(value),
        Values::Logged(log) => log.holds(value),
        Values::Many(table) => table.holds(value),
    }
}

// Takes one `value` away where it is held; answers whether it was.
fn remove_value(alloc: Global, values: &mut Values, value: i64) -> bool
    requires { size_of (bag_of values.old) < 2 ^ 64 }
    ensures taken { OnTrue result (AddsOne (bag_of values.new) (bag_of values.old) value) }
    ensures absent { OnFalse result (held_of (bag_of values.old) value ≡ 0) }
    ensures unchanged { OnFalse result (bag_of values.new ≡ bag_of values.old) }
{
    if !holds_value(values, value) {
        return false;
    }
    take_value(alloc, values, value);
    true
}

// Takes one `value` away, which is held.
#[tactic(auto, using(crate::proofs::OwedLaws::AddsOne_held))]
fn take_value(alloc: Global, values: &mut Values, value: i64)
    requires held { 0 < held_of (bag_of values.old) value }
    requires fits { size_of (bag_of values.old) < 2 ^ 64 }
    ensures { AddsOne (bag_of values.new) (bag_of values.old) value }
{
    let left = match values {
        Values::One(single) => {
            let _ = single.remove(value);
            return;
        }
        Values::Few(short) => {
            let _ = short.remove(value);
            return;
        }
        Values::Narrow(narrow) => match take_narrow(alloc, narrow, value) {
            Some(left) => left,
            None => return,
        },
        Values::Ordered(ordered) => match take_ordered(alloc, ordered, value) {
            Some(left) => left,
            None => return,
        },
        Values::Logged(log) => {
            log.take(value);
            return;
        }
        Values::Many(table) => {
            let _ = table.remove(value);
            return;
        }
    };
    *values = left;
}

// Takes one `value` away, which is held; answers what is left where that is of another form.
fn take_narrow(alloc: Global, narrow: &mut Narrow, value: i64) -> Option<Values>
    requires held { 0 < held_of narrow.old value }
    requires fits { size_of narrow.old < 2 ^ 64 }
    ensures other { IfSome result (λ left. AddsOne (bag_of left) narrow.old value) }
    ensures same_form { IfNone result (AddsOne narrow.new narrow.old value) }
{
    let count = narrow.numbers().len();
    if count <= 1 {
        return Some(Values::One(Single::none()));
    }
    if count > SEARCHED
        && let Ok(log) = log_without(alloc, narrow.numbers(), value)
    {
        return Some(Values::Logged(log));
    }
    narrow.take(value);
    None
}

// Takes one `value` away, which is held; answers what is left where that is of another form.
fn take_ordered(alloc: Global, ordered: &mut Ordered, value: i64) -> Option<Values>
    requires held { 0 < held_of ordered.old value }
    requires fits { size_of ordered.old < 2 ^ 64 }
    ensures other { IfSome result (λ left. AddsOne (bag_of left) ordered.old value) }
    ensures same_form { IfNone result (AddsOne ordered.new ordered.old value) }
{
    if ordered.count() <= 1 {
        return Some(Values::One(Single::none()));
    }
    if ordered.gives_way(value)
        && let Ok(log) = log_left(alloc, ordered, value)
    {
        return Some(Values::Logged(log));
    }
    ordered.take(value);
    None
}

// A log of the numbers of a list that was brought in order, without one `value`, which is held.
#[cold]
fn log_left(alloc: Global, ordered: &Ordered, value: i64) -> Result<Box<Log>, AllocError>
    requires held { 0 < held_of ordered.now value }
    requires fits { size_of ordered.now < 2 ^ 64 }
    ensures { IfOk result (λ log. AddsOne log.value ordered.now value) }
{
    let numbers = ordered.left(alloc, 0)?;
    log_without(alloc, &numbers, value)
}

// A log of numbers that are each held once, without one `value`, which is held.
fn log_without(alloc: Global, numbers: &[i32], value: i64) -> Result<Box<Log>, AllocError>
    requires held { 0 < held_of (once_each numbers.now) value }
    requires fits { size_of (once_each numbers.now) < 2 ^ 64 }
    ensures { IfOk result (λ log. AddsOne log.value (once_each numbers.now) value) }
{
    let mut log = Log::of_numbers(alloc, numbers, &[])?;
    log.take(value);
    Ok(log)
}
