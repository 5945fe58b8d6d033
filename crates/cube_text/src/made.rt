//! What several threads made.
ghost use Rattle.std.specs.Prelude.{◌≡◌, Ok, IfOk, map};

use std::alloc::{AllocError, Global};

/// What was made, if each of it was. The only error is that memory ran out.
pub(crate) fn all_made<X: Drop>(
    alloc: Global,
    made: Vec<Result<X, AllocError>>,
) -> Result<Vec<X>, AllocError>
    ensures { IfOk result (λ all. map Ok all.items ≡ made.items) }
{
    let mut all = Vec::with_capacity(alloc, made.len())?;
    for one in made {
        let one = one?;
        all.push(one)?;
    }
    Ok(all)
}
