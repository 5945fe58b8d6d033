//! Values that are held so often: what pairs of a value and a count say of the list of all these values.
ghost use Rattle.std.specs.Prelude.{◌≡◌, ◌<◌, ◌≤◌, ◌↔◌, ◌^◌, ◌*◌, ◌*ℤ◌, pos, [], length, IfSome, IsNone, MatchOption, true};
ghost use Rattle.std.specs.Int.RustNames.{unsigned_abs};
ghost use Rattle.cube_core.specs.Answer.{AreHeld, IsGreatest, IsLeast, StandsAt, values_held};
ghost use Rattle.cube_core.specs.Group.{total_of};
ghost use Rattle.cube_core.specs.Variance.{squares_of};
ghost use Rattle.cube_core.specs.declared.aggregate.Answer.TheVariants.{Whole};

use crate::log::put_in_order;
use crate::squares::pairs_squares;
use cube_core::Squares;

/// Whether pairs are values in order: each value is above the one before it, and is held once at least.
pub fn are_in_order(held: &[(i64, u64)]) -> bool
    ensures { result ≡ true → AreHeld (values_held held.now) held.now }
{
    let mut before: Option<i64> = None;
    for pair in held {
        if pair.1 == 0 || before.is_some_and(|value| value >= pair.0) {
            return false;
        }
        before = Some(pair.0);
    }
    true
}

/// How many values are held, where 64 bits can tell it.
pub fn count_of(held: &[(i64, u64)]) -> Option<u64>
    ensures { MatchOption result (2 ^ 64 ≤ length (values_held held.now)) (λ count. count ≡ length (values_held held.now)) }
{
    let mut count: u64 = 0;
    for pair in held {
        count = count.checked_add(pair.1)?;
    }
    Some(count)
}

/// The sum of the values that are held.
pub fn total_of(held: &[(i64, u64)]) -> i128
    requires { length (values_held held.now) < 2 ^ 64 }
    ensures { result ≡ total_of (values_held held.now) }
{
    let mut total: i128 = 0;
    for pair in held {
        total += pair_total(*pair);
    }
    total
}

// The value of a pair, as often as it is held.
fn pair_total(pair: (i64, u64)) -> i128
    ensures value { result ≡ pair.0 *ℤ pos pair.1 }
    ensures bound { unsigned_abs result ≤ 2 ^ 63 * pair.1 }
{
    i128::from(pair.0) * i128::from(pair.1)
}

/// The sum of the squares of the values that are held.
pub fn squares_of(held: &[(i64, u64)]) -> Squares
    requires { length (values_held held.now) < 2 ^ 64 }
    ensures { result ≡ squares_of (values_held held.now) }
{
    match Squares::of(pairs_squares(held)) {
        Some(squares) => squares,
        None => unreachable!(),
    }
}

/// The least of values in order.
pub fn least_of(held: &[(i64, u64)]) -> Option<i64>
    requires { AreHeld (values_held held.now) held.now }
    ensures none { IsNone result ↔ (values_held held.now ≡ []) }
    ensures least { IfSome result (λ value. IsLeast (values_held held.now) (Whole value)) }
{
    let pair = held.first()?;
    Some(pair.0)
}

/// The greatest of values in order.
pub fn greatest_of(held: &[(i64, u64)]) -> Option<i64>
    requires { AreHeld (values_held held.now) held.now }
    ensures none { IsNone result ↔ (values_held held.now ≡ []) }
    ensures greatest { IfSome result (λ value. IsGreatest (values_held held.now) (Whole value)) }
{
    let pair = held.last()?;
    Some(pair.0)
}

/// The value at a place, counted from 1, of values in order.
pub fn value_at(held: &[(i64, u64)], place: u64) -> i64
    requires ascending { AreHeld (values_held held.now) held.now }
    requires first { 1 ≤ place }
    requires last { place ≤ length (values_held held.now) }
    ensures { StandsAt place (values_held held.now) result }
{
    let mut left = place;
    for pair in held {
        if left <= pair.1 {
            return pair.0;
        }
        left -= pair.1;
    }
    unreachable!()
}

/// The values that are held, in order.
pub fn in_order(held: Vec<(i64, u64)>) -> Vec<(i64, u64)>
    requires { length (values_held held.items) < 2 ^ 64 }
    ensures { AreHeld (values_held held.items) result.items }
{
    put_in_order(held)
}
