//! Sums of the squares of numbers.
ghost use Rattle.std.specs.Prelude.{◌≡◌, ◌<◌, ◌≤◌, ◌*◌, ◌^◌};
ghost use Rattle.cube_core.specs.Variance.{square};
ghost use Rattle.cube_values.specs.Bag.{size_of};
ghost use Rattle.cube_values.specs.Narrow.{once_each};
ghost use Rattle.cube_values.specs.Statistics.{squares_held};

use cube_core::{Wide, square_of};

/// The square of the number of a pair, as often as it is held.
pub fn pair_squares(pair: (i64, u64)) -> Wide
    ensures value { result ≡ square pair.0 * pair.1 }
    ensures bound { result ≤ 2 ^ 126 * pair.1 }
{
    let square = square_of(pair.0);
    if pair.1 == 1 {
        return Wide::of(square);
    }
    Wide::product(square, u128::from(pair.1))
}

/// The sum of the squares of the numbers of pairs.
pub fn pairs_squares(pairs: &[(i64, u64)]) -> Wide
    requires { size_of pairs.now < 2 ^ 64 }
    ensures value { result ≡ squares_held pairs.now }
    ensures bound { result ≤ 2 ^ 126 * size_of pairs.now }
{
    let mut sum = Wide::of(0);
    for pair in pairs {
        sum = sum.plus(pair_squares(*pair));
    }
    sum
}

/// The sum of the squares of the numbers of a list.
pub fn numbers_squares(numbers: &[i64]) -> Wide
    ensures value { result ≡ squares_held (once_each numbers.now) }
    ensures bound { result ≤ 2 ^ 126 * size_of (once_each numbers.now) }
{
    let mut sum = Wide::of(0);
    for number in numbers {
        sum = sum.plus(pair_squares((*number, 1)));
    }
    sum
}

// The square of a number of 32 bits.
fn short_square(number: i32) -> u64
    ensures value { result ≡ square number }
    ensures bound { result ≤ 2 ^ 62 }
{
    let size = u64::from(number.unsigned_abs());
    size * size
}

/// The sum of the squares of the numbers of a list of 32 bits, which 128 bits take.
pub fn narrow_squares(numbers: &[i32]) -> Wide
    ensures value { result ≡ squares_held (once_each numbers.now) }
    ensures bound { result ≤ 2 ^ 126 * size_of (once_each numbers.now) }
{
    let mut sum: u128 = 0;
    for number in numbers {
        sum += u128::from(short_square(*number));
    }
    Wide::of(sum)
}
