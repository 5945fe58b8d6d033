//! The files of the cubes to merge, as they are looked at before one is opened.
use crate::path_of;
use cube_tool::MergeFault;
use cube_tool::command::{Failure, FileIdentity, NamedCube};
use std::fs;
use std::os::unix::fs::MetadataExt;

/// Each cube to merge, by its path and by its file, where that is a regular one that can be looked at.
pub(crate) fn named_cubes<'w>(
    rt: &HostRuntime,
    paths: &[&'w str],
) -> Result<Vec<NamedCube<'w>>, Failure> {
    let mut cubes = Vec::new(rt.alloc());
    for path in paths {
        let file = regular_file(rt, path);
        if cubes.push(NamedCube { path: *path, file }).is_err() {
            return Err(Failure::Merge(MergeFault::Memory));
        }
    }
    Ok(cubes)
}

/// What tells the regular file that a word names from others; `None` where it is of another kind or can't be looked at.
fn regular_file(rt: &HostRuntime, word: &str) -> Option<FileIdentity> {
    let Ok(found) = fs::metadata(rt, path_of(word)) else {
        return None;
    };
    if !found.is_file() {
        return None;
    }
    Some(FileIdentity {
        device: found.dev(),
        inode: found.ino(),
    })
}
