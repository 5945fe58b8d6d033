//! How many numbers are at most a value.
ghost use Rattle.std.specs.Prelude.{◌≡◌, ◌<◌, ◌*◌, ◌^◌};
ghost use Rattle.std.specs.List.Sorted.{IsSorted};
ghost use Rattle.std.specs.Ordering.{int_cmp};
ghost use Rattle.cube_values.specs.Bag.{size_of};
ghost use Rattle.cube_values.specs.Narrow.{once_each};
ghost use Rattle.cube_values.specs.Statistics.{one_up_to, size_up_to};

/// How often the number of a pair is held where it is at most `value`, and else 0.
pub fn pair_up_to(pair: (i64, u64), value: i64) -> u64
    ensures { result ≡ one_up_to value pair.0 * pair.1 }
{
    if pair.0 <= value { pair.1 } else { 0 }
}

/// How many numbers of pairs are at most `value`.
pub fn pairs_up_to(pairs: &[(i64, u64)], value: i64) -> u64
    requires { size_of pairs.now < 2 ^ 64 }
    ensures { result ≡ size_up_to pairs.now value }
{
    let mut count = 0;
    for pair in pairs {
        count += pair_up_to(*pair, value);
    }
    count
}

/// How many numbers of a list are at most `value`.
pub fn numbers_up_to(numbers: &[i64], value: i64) -> u64
    ensures { result ≡ size_up_to (once_each numbers.now) value }
{
    let mut count = 0;
    for number in numbers {
        count += pair_up_to((*number, 1), value);
    }
    count
}

// 1 where a number is at most `value`, and else 0.
fn number_up_to(number: i32, value: i32) -> u64
    ensures { result ≡ one_up_to value number * 1 }
{
    if number <= value { 1 } else { 0 }
}

/// How many numbers of a list of 32 bits in order are at most `value`: the place of the first one that is above.
pub fn sorted_up_to(numbers: &[i32], value: i64) -> u64
    requires { IsSorted int_cmp numbers.now }
    ensures { result ≡ size_up_to (once_each numbers.now) value }
{
    numbers.partition_point(|number| i64::from(*number) <= value) as u64
}

/// How many numbers of a list of 32 bits are at most `value`.
pub fn narrow_up_to(numbers: &[i32], value: i64) -> u64
    ensures { result ≡ size_up_to (once_each numbers.now) value }
{
    match i32::try_from(value) {
        Ok(value) => short_up_to(numbers, value),
        Err(_) => any_up_to(numbers, value),
    }
}

// The same of a value of 32 bits: several of them are compared at once.
fn short_up_to(numbers: &[i32], value: i32) -> u64
    ensures { result ≡ size_up_to (once_each numbers.now) value }
{
    let mut count = 0;
    for number in numbers {
        count += number_up_to(*number, value);
    }
    count
}

// The same of any value.
fn any_up_to(numbers: &[i32], value: i64) -> u64
    ensures { result ≡ size_up_to (once_each numbers.now) value }
{
    let mut count = 0;
    for number in numbers {
        count += pair_up_to((i64::from(*number), 1), value);
    }
    count
}
