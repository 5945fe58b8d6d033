//! The builder of whole feeds, one source after another.
ghost use Rattle.std.specs.Prelude.{◌≤◌, map, vec_len, IfOk, IfErr};
ghost use Rattle.cube_build.specs.Build.{BuildsWhole};
ghost use Rattle.cube_ledger.specs.Build.{ExplainsBuild};

use crate::builder::Builder;
use cube_cells::Cube;
use cube_core::Schema;
use cube_ledger::{BuildFault, build_ledger};
use std::alloc::Global;
use std::io::Read;

/// The builder of the feeds of at most 64 sources, taken one after another, over all grouping sets of the schema.
///
/// Its ledger and its cube are made before a record is read, and the cube is filled when the feeds have ended. The
/// first fault ends it: `Memory` where one of them wasn't made, `Full` where a growth was refused later, or the fault
/// of a source's feed, where the feeds of all lower sources are good.
pub fn build_plain<R: Read + Drop>(
    alloc: Global,
    schema: &Schema,
    readers: Vec<R>,
) -> Result<Builder, BuildFault>
    requires { vec_len readers ≤ 64 }
    ensures ok { IfOk result (BuildsWhole schema.now (map R.Read.remaining readers.items)) }
    ensures err { IfErr result (ExplainsBuild schema.now (map R.Read.remaining readers.items)) }
{
    let Ok(cube) = Cube::new(alloc, schema) else {
        return Err(BuildFault::Memory);
    };
    let ledger = build_ledger(alloc, schema, readers)?;
    match Builder::of(alloc, ledger, cube) {
        Ok(builder) => Ok(builder),
        Err(_) => Err(BuildFault::Full),
    }
}
