//! The merging of printed cubes.
ghost use Rattle.std.specs.Prelude.{◌≡◌, ◌<◌, true, false, length, map, IfOk, IfErr, OnOk};
ghost use Rattle.cube_merge.specs.Merging.{IsMergeOf};
ghost use Rattle.cube_tool.specs.MergingCubes.{AreOneCube, AreOneFile, CanBeMerged, CheckFails, IsFirstRepeated, MergeLeaves, StandsBefore};

use crate::command::failure::Failure;
use crate::command::status::Status;
use cube_core::Schema;
use cube_merge::merge;
use std::alloc::Global;
use std::io;
use std::io::{Read, Write};

/// Writes the cube of all facts of printed cubes, which were printed under the given schema, under the wanted one.
///
/// The given schema is the partial form of the wanted one, or the wanted one itself where that is its own. What was
/// written before a fault was met stays written: it is the first bytes of the text of merged rows.
pub fn merge_cubes<R: Read + Drop, W: Write>(
    alloc: Global,
    given: &Schema,
    wanted: &Schema,
    readers: Vec<R>,
    out: &mut W,
) -> Result<Status, Failure>
    ensures done { IfOk result (λ status. status ≡ Status.Done) }
    ensures merged { OnOk result (IsMergeOf given.now wanted.now (map R.Read.remaining readers.items)
        (W.contents out.old) (W.contents out.new)) }
    ensures err { IfErr result (λ failure. MergeLeaves given.now wanted.now
        (map R.Read.remaining readers.items) failure (W.contents out.old) (W.contents out.new)) }
{
    match merge(alloc, given, wanted, readers, out) {
        Ok(()) => Ok(Status::Done),
        Err(fault) => Err(Failure::Merge(fault)),
    }
}

/// Reads printed cubes to their ends, as [`merge_cubes`] reads them, and writes nothing: the failure is the first fault.
pub fn check_cubes<R: Read + Drop>(
    alloc: Global,
    given: &Schema,
    wanted: &Schema,
    readers: Vec<R>,
) -> Result<Status, Failure>
    ensures done { IfOk result (λ status. status ≡ Status.Done) }
    ensures right { OnOk result
        (CanBeMerged given.now wanted.now (map R.Read.remaining readers.items)) }
    ensures err { IfErr result (CheckFails given.now (map R.Read.remaining readers.items)) }
{
    merge_cubes(alloc, given, wanted, readers, &mut io::sink())
}

/// What tells a regular file from every other: the device that it is on, and its inode there.
#[derive(Clone, Copy, Debug, PartialEq, Eq)]
pub struct FileIdentity {
    pub device: u64,
    pub inode: u64,
}

/// A cube to merge: its path, and its file, where that is a regular one that could be looked at.
#[derive(Clone, Copy, Debug)]
pub struct NamedCube<'p> {
    pub path: &'p str,
    pub file: Option<FileIdentity>,
}

/// The first place, counted from 0, whose cube stands at an earlier place too: the paths are the same letter by letter, or
/// both name the same regular file.
pub fn first_repeated(cubes: &[NamedCube<'_>]) -> Option<usize>
    ensures { IsFirstRepeated cubes.now result }
{
    for place in 0..cubes.len() {
        if stands_before(cubes, place) {
            return Some(place);
        }
    }
    None
}

// Whether the cube at a place stands at an earlier place too.
fn stands_before(cubes: &[NamedCube<'_>], place: usize) -> bool
    requires { place < length cubes.now }
    ensures stands { result ≡ true → StandsBefore cubes.now place }
    ensures differs { result ≡ false → StandsBefore cubes.now place → ⊥ }
{
    for earlier in 0..place {
        if are_one_cube(&cubes[earlier], &cubes[place]) {
            return true;
        }
    }
    false
}

// Whether two cubes are one, by their paths or by their files.
fn are_one_cube(one: &NamedCube<'_>, other: &NamedCube<'_>) -> bool
    ensures same { result ≡ true → AreOneCube one.now other.now }
    ensures differ { result ≡ false → AreOneCube one.now other.now → ⊥ }
{
    one.path == other.path || are_one_file(one.file, other.file)
}

// Whether both are the same regular file.
fn are_one_file(one: Option<FileIdentity>, other: Option<FileIdentity>) -> bool
    ensures same { result ≡ true → AreOneFile one other }
    ensures differ { result ≡ false → AreOneFile one other → ⊥ }
{
    match (one, other) {
        (Some(one), Some(other)) => one.device == other.device && one.inode == other.inode,
        _ => false,
    }
}
