//! A cube that is filled at once.
ghost use Rattle.std.specs.Prelude.{◌≡◌, List, OnOk};
ghost use Rattle.cube_core.specs.declared.fact.Fact.{Fact};
ghost use Rattle.cube_cells.specs.Cube.{SameSets};
ghost use Rattle.cube_cells.specs.Fill.{IsCubeOfAll};

use anyhow::{Result, ensure};
use cube_cells::Cube;
use cube_core::{Fact, Schema};

/// Fills a cube with facts that fit the schema.
pub fn fill(schema: &Schema, cube: &mut Cube, facts: &[Fact]) -> Result<()>
    requires { cube.old.schema ≡ schema.now }
    ensures { cube.new.schema ≡ cube.old.schema }
{
    let mut finest = cube.finest()?;
    gather(schema, &mut finest, facts)?;
    cube.fill(finest)?;
    Ok(())
}

// Adds facts to a cube of some facts.
fn gather(schema: &Schema, cube: &mut Cube, facts: &[Fact]) -> Result<()>
    requires schema { cube.old.schema ≡ schema.now }
    requires facts { (facts : List Fact) × IsCubeOfAll facts cube.old }
    ensures same { OnOk result (SameSets cube.old cube.new) }
    ensures facts { OnOk result ((facts : List Fact) × IsCubeOfAll facts cube.new) }
{
    for fact in facts {
        gather_one(schema, cube, fact)?;
    }
    Ok(())
}

fn gather_one(schema: &Schema, cube: &mut Cube, fact: &Fact) -> Result<()>
    requires schema { cube.old.schema ≡ schema.now }
    requires facts { (facts : List Fact) × IsCubeOfAll facts cube.old }
    ensures same { OnOk result (SameSets cube.old cube.new) }
    ensures facts { OnOk result ((facts : List Fact) × IsCubeOfAll facts cube.new) }
{
    ensure!(schema.fits(fact), "a fact that doesn't fit");
    ensure!(cube.facts() < u64::MAX, "too many facts");
    cube.add(fact)?;
    Ok(())
}
