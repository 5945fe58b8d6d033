//! Filling cubes with the facts of a ledger's books.
ghost use Rattle.std.specs.Prelude.{◌≡◌, ◌∷◌, [], length, map, IfOk};
ghost use Rattle.cube_cells.specs.CountedCube.{HasCounted};
ghost use Rattle.cube_cells.specs.Fill.{finest_set};
ghost use Rattle.cube_core.specs.Layout.{cube_schema};
ghost use Rattle.cube_build.specs.Builder.{CountsFacts, HasFacts, IsCountedFor};
ghost use Rattle.cube_ledger.specs.Ledger.{AllFit, all_facts};

use cube_cells::{CountedCube, Cube, Numbers, TextNumbers};
use cube_core::{Fact, Schema};
use cube_ledger::Ledger;
use std::alloc::{AllocError, Global};
use std::thread::Threads;

/// The counted cube of a cube of no fact, for facts of the feeds of a schema. It takes no memory.
pub(crate) fn counted_for(alloc: Global, schema: &Schema, cube: Cube) -> CountedCube
    requires schema { cube.schema ≡ cube_schema schema.now }
    requires empty { CountsFacts [] cube }
    ensures cube { result.cube ≡ cube }
    ensures is { IsCountedFor schema.now result }
    ensures has { HasCounted [] result }
{
    let texts = schema.text_places().len();
    CountedCube::of(alloc, schema.hash_key(), cube, texts)
}

/// The cube of the facts of all books of a ledger over the finest grouping set, with the schema of a cube, made by as
/// many threads as this says, 8 at most. With one thread, or none, no thread is started. The only error is that memory ran
/// out, or numbers for texts that are counted.
pub(crate) fn finest_with<T: Threads + Sync, N: Numbers + Send + Sync>(
    rt: &T,
    alloc: Global,
    threads: usize,
    cube: &Cube<N>,
    ledger: &Ledger,
) -> Result<Cube<N>, AllocError>
    requires schema { cube.now.schema ≡ cube_schema ledger.now.schema }
    ensures schema { IfOk result (λ finest. finest.schema ≡ cube.now.schema) }
    ensures sets { IfOk result (λ finest.
        finest.sets ≡ finest_set (length finest.schema.dimensions) ∷ []) }
    ensures has { IfOk result
        (HasFacts ledger.now.schema (all_facts ledger.now.accounts)) }
{
    let schema = ledger.schema();
    let facts = ledger.facts()?;
    if schema.text_places().is_empty() {
        return cube.finest_of(rt, threads, &facts);
    }
    finest_of_texts(rt, alloc, threads, cube, schema, &facts)
}

// The same of facts of which texts are counted: a number stands for each different text.
fn finest_of_texts<T: Threads + Sync, N: Numbers + Send + Sync>(
    rt: &T,
    alloc: Global,
    threads: usize,
    cube: &Cube<N>,
    schema: &Schema,
    facts: &[&Fact],
) -> Result<Cube<N>, AllocError>
    requires schema { cube.now.schema ≡ cube_schema schema.now }
    requires fit { AllFit schema.now (map (λ fact. fact.now) facts.now) }
    ensures schema { IfOk result (λ finest. finest.schema ≡ cube.now.schema) }
    ensures sets { IfOk result (λ finest.
        finest.sets ≡ finest_set (length finest.schema.dimensions) ∷ []) }
    ensures has { IfOk result (HasFacts schema.now (map (λ fact. fact.now) facts.now)) }
{
    let texts = schema.text_places().len();
    let counted = TextNumbers::all_counted(alloc, schema.hash_key(), texts, facts)?;
    let lent = lent_facts(alloc, &counted)?;
    cube.finest_of(rt, threads, &lent)
}

// Facts, each where it lies. The only error is that memory ran out.
fn lent_facts(alloc: Global, facts: &[Fact]) -> Result<Vec<&Fact>, AllocError>
    ensures { IfOk result (λ lent. map (λ fact. fact.now) lent.items ≡ facts.now) }
{
    facts.iter().collect(alloc)
}
