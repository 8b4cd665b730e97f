//! The path of a file that another one names.
ghost use Rattle.std.specs.Prelude.{◌≡◌, IfOk, string_bytes};
ghost use Rattle.program_console.specs.Beside.{IsBeside, IsIncludedPath, is_absolute};
ghost use Rattle.program_words.specs.Sources.{path_of};

use program_words::Source;
use std::alloc::{AllocError, Global};

/// The path of a file of this name in the folder of another one.
pub fn path_beside(alloc: Global, by: &str, name: &str) -> Result<String, AllocError>
    ensures { IfOk result (λ path. IsBeside by.now name.now (string_bytes path)) }
{
    match by.rsplit_once('/') {
        Some((folder, _)) => {
            let mut path = String::from_str(alloc, folder)?;
            path.push_str("/")?;
            path.push_str(name)?;
            Ok(path)
        }
        None => String::from_str(alloc, name),
    }
}

/// Whether a name says where the file is from the root on.
fn is_absolute(name: &[u8]) -> bool
    ensures { result ≡ is_absolute name.now }
{
    match name.first() {
        Some(byte) => *byte == b'/',
        None => false,
    }
}

/// The path of a file that another one includes by this name.
pub fn included_path(alloc: Global, by: &Source, name: &str) -> Result<String, AllocError>
    ensures { IfOk result (λ path. IsIncludedPath (path_of by.now) name.now (string_bytes path)) }
{
    match by {
        Source::File(by) if !is_absolute(name.as_bytes()) => path_beside(alloc, by.as_str(), name),
        _ => String::from_str(alloc, name),
    }
}
