//! Exact variances, as fractions.
ghost use Rattle.std.specs.Prelude.{◌≡◌, ◌<◌, ◌-◌, ◌*◌, ◌^◌, MatchOption};
ghost use Rattle.cube_core.specs.Wide.{IsReduced};
ghost use Rattle.cube_core.specs.Variance.{freedom_of, square};

use crate::squares::Squares;
use crate::wide::Wide;
use crate::wide_fraction::reduced;

/// The variance of as many numbers as this count says, with this sum and this sum of squares, as a fraction in lowest terms:
/// of what the count times the sum of squares is above the square of the sum, which is 0 where it isn't. It is that of the
/// population, or of a sample, which divides by one less; there is none of no number, nor of a sample of one.
pub fn variance_from(
    count: u64,
    sum: i128,
    squares: Squares,
    is_sample: bool,
) -> Option<(Wide, u128)>
    ensures { MatchOption result (freedom_of is_sample count ≡ 0)
        (λ v. IsReduced (count * squares - square sum) (count * freedom_of is_sample count) v.0 v.1) }
{
    let freedom = freedom_of(count, is_sample);
    if freedom == 0 {
        return None;
    }
    let spread = spread_of(count, sum, squares.number());
    Some(reduced(spread, u128::from(count) * u128::from(freedom)))
}

fn freedom_of(count: u64, is_sample: bool) -> u64
    ensures { result ≡ freedom_of is_sample count }
{
    if is_sample {
        count.saturating_sub(1)
    } else {
        count
    }
}

fn spread_of(count: u64, sum: i128, squares: Wide) -> Wide
    requires { squares < 2 ^ 192 }
    ensures { result ≡ count * squares - square sum }
{
    let size = sum.unsigned_abs();
    squares
        .times(count)
        .saturating_sub(Wide::product(size, size))
}
