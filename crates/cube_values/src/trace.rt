//! Numbers that only clauses see.
ghost use Rattle.std.specs.Prelude.{◌≡◌, ◌∷◌, ◌++◌, [], ℤ, ℕ};
ghost use Rattle.std.specs.Borrow.{ftrue};
ghost use Rattle.cube_values.specs.Bag.{Bag};
ghost use Rattle.cube_values.specs.Log.{without_one};
ghost use Rattle.cube_values.specs.Narrow.{once_each};

use std::marker::{Model, PhantomData};

/// The numbers that were added, as clauses see them; it has no bytes.
///
/// Nothing in memory says what its numbers are, so whoever keeps one says by an `invariant` what follows from them.
/// `of`, which is proved by hand, is all that makes one.
#[derive(Drop)]
pub struct Trace {
    nothing: PhantomData<()>,
    pub ghost bag: { Bag },
}

impl Model for Trace {
    ghost also_owns = { λ _. ftrue };
}

/// What a trace is read off.
trait Traced {
    ghost bag: { Self → Bag };
}

impl Trace {
    /// The trace of the numbers that a value stands for.
    fn of<X: Traced>(x: &X) -> Trace
        ensures { result.bag ≡ X.bag x.now }
    {
        let _ = x;
        Trace {
            nothing: PhantomData,
        }
    }

    /// The trace of no number.
    pub fn none() -> Trace
        ensures { result.bag ≡ [] }
    {
        Trace::of(&Nothing)
    }

    /// The trace of one number.
    pub fn one(value: i64) -> Trace
        ensures { result.bag ≡ (value, 1) ∷ [] }
    {
        Trace::of(&One { value })
    }

    /// The trace of the numbers of a list.
    pub fn list(numbers: &[i32]) -> Trace
        ensures { result.bag ≡ once_each numbers.now }
    {
        Trace::of(&Listed { numbers })
    }

    /// The trace of these numbers without one `value`, where they have one.
    pub fn without(&self, value: i64) -> Trace
        ensures { result.bag ≡ without_one value self.now.bag }
    {
        Trace::of(&Less { old: self, value })
    }

    /// The trace of these numbers and others.
    pub fn and(&self, more: &Trace) -> Trace
        ensures { result.bag ≡ self.now.bag ++ more.now.bag }
    {
        Trace::of(&Both { old: self, more })
    }
}

#[derive(Drop)]
struct Nothing;

impl Traced for Nothing {
    ghost bag = { λ _. [] };
}

#[derive(Drop)]
struct One {
    value: i64,
}

impl Traced for One {
    ghost bag = { λ x. (x.value, 1) ∷ [] };
}

#[derive(Drop)]
struct Listed<'a> {
    numbers: &'a [i32],
}

impl<'a> Traced for Listed<'a> {
    ghost bag = { λ x. once_each x.numbers.now };
}

#[derive(Drop)]
struct Less<'a> {
    old: &'a Trace,
    value: i64,
}

impl<'a> Traced for Less<'a> {
    ghost bag = { λ x. without_one x.value x.old.now.bag };
}

#[derive(Drop)]
struct Both<'a> {
    old: &'a Trace,
    more: &'a Trace,
}

impl<'a> Traced for Both<'a> {
    ghost bag = { λ x. x.old.now.bag ++ x.more.now.bag };
}

unsafe impl Send for Trace {}

unsafe impl Sync for Trace {}
