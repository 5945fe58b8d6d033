//! Whether the numbers of a list repeat.

/// How many items of a list are looked at.
const LOOKS: usize = 8;

/// Of how many items a number is that is called frequent.
const OFTEN: usize = 8;

/// Whether the items seem to be of few numbers: each number that is looked at is that of many items.
pub fn is_repetitive<T, F: Fn(&T) -> i64>(items: &[T], number_of: F) -> bool
    requires { F.IsAlwaysCallable number_of }
{
    let step = items.len() / LOOKS + 1;
    items
        .iter()
        .skip(step / 2)
        .step_by(step)
        .all(|item| is_frequent(items, &number_of, number_of(item)))
}

// It counts them all: that takes less time than to stop at the last that is needed.
fn is_frequent<T, F: Fn(&T) -> i64>(items: &[T], number_of: &F, value: i64) -> bool
    requires { F.IsAlwaysCallable number_of.now }
{
    let mut count = 0usize;
    for item in items {
        if number_of(item) == value {
            count += 1;
        }
    }
    count >= OFTEN
}
