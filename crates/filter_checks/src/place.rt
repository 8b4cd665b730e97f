//! Where the filter's file is that a test file names.
ghost use Rattle.std.specs.Prelude.{◌≡◌, IfOk};
ghost use Rattle.filter_checks.specs.Places as spec;

use std::alloc::{AllocError, Global};

/// Whether a byte of a name stands within its folder.
fn is_inside(byte: u8) -> bool
    ensures { result ≡ spec.is_inside byte }
{
    byte != b'/'
}

/// The folder of a file's name: what stands up to its last slash.
fn folder_of(name: &[u8]) -> &[u8]
    ensures { result.now ≡ spec.folder_of name.now }
{
    let mut end = name.len();
    while end > 0 && is_inside(name[end - 1]) {
        end -= 1;
    }
    &name[..end]
}

/// Whether a name does not depend on a folder.
fn is_absolute(name: &[u8]) -> bool
    ensures { result ≡ spec.is_absolute name.now }
{
    match name {
        [] => false,
        [first, ..] => *first == b'/',
    }
}

/// The name of a file that is named in another one: relative to the folder of that one.
pub fn path_beside(alloc: Global, name: &[u8], other: &[u8]) -> Result<Vec<u8>, AllocError>
    ensures { IfOk result (λ path. path.items ≡ spec.path_beside name.now other.now) }
{
    if is_absolute(other) {
        return Vec::from_slice(alloc, other);
    }
    let mut path = Vec::from_slice(alloc, folder_of(name))?;
    path.extend_from_slice(other)?;
    Ok(path)
}
