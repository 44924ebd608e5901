//! The paths of new nodes.

ghost use Rattle.std.specs.Prelude.{◌≡◌, IfOk};
ghost use Rattle.tree_core.specs.NewPaths as spec;

use outside_core::{Bytes, NoMemory};
use std::alloc::Global;
use tree_core::without_slashes;

/// The part of a path before its last slash, and nothing where there is none.
pub fn before_last(path: &[u8]) -> &[u8]
    ensures { result.now ≡ spec.before_last path.now }
{
    let mut front = path;
    while let [rest @ .., byte] = front {
        if *byte == b'/' {
            return rest;
        }
        front = rest;
    }
    front
}

/// The part of a path after its last slash, and all of it where there is none.
pub fn name_after(path: &str) -> &str
    ensures { result.now ≡ spec.after_last path.now }
{
    match path.rfind('/') {
        Some(at) => &path[at + 1..],
        None => path,
    }
}

// The path of a name below a group's path.
fn path_below(alloc: Global, front: &[u8], name: &[u8]) -> Result<Bytes, NoMemory>
    ensures { IfOk result (λ path. path ≡ spec.path_below front.now name.now) }
{
    let mut path = Bytes::new(alloc);
    if !front.is_empty() {
        path.add(front)?;
        path.add(b"/")?;
    }
    path.add(name)?;
    Ok(path)
}

/// The path that a new node of this path will have.
pub fn path_of_new(alloc: Global, path: &str) -> Result<Bytes, NoMemory>
    ensures { IfOk result (λ new. new ≡ spec.new_path path.now) }
{
    let front = without_slashes(before_last(path.as_bytes()));
    path_below(alloc, front, name_after(path).as_bytes())
}
