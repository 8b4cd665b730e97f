//! The parts of the routes on which two filters differ, found and told in lines.
ghost use Rattle.std.specs.Prelude.{◌≡◌, ◌≤◌, Decides, IfOk, OnOk};
ghost use Rattle.code_file.specs.Spelling.{IsCode, spelling};
ghost use Rattle.filter_code.specs.Limits.{largest_size};
ghost use Rattle.filter_differences.specs.Differences as spec;

use crate::part_lines::parts_text;
use code_file::write_code;
use filter_code::Code;
use filter_diff::{RoutePart, compare, join_all};
use filter_verifier::Verified;
use std::alloc::{AllocError, Global};

/// The file of a code.
fn file_of(alloc: Global, code: &Code) -> Result<Vec<u8>, AllocError>
    ensures spelled { IfOk result (λ bytes. bytes.items ≡ spelling code.now) }
    ensures readable { OnOk result (IsCode code.now) }
{
    match write_code(alloc, code) {
        Ok(bytes) => Ok(bytes),
        Err(_) => Err(AllocError),
    }
}

/// Whether two codes are equal. They are if their files are.
fn are_equal(alloc: Global, old: &Code, new: &Code) -> Result<bool, AllocError>
    ensures { IfOk result (λ same. Decides same (old.now ≡ new.now)) }
{
    let before = file_of(alloc, old)?;
    let after = file_of(alloc, new)?;
    Ok(before.as_slice() == after.as_slice())
}

/// The parts of the routes on which two codes differ or are undecided, joined, by a search that tries at most `limit` classes of routes. Equal codes have none, and nothing is searched.
pub fn find_parts(
    alloc: Global,
    old: &Code,
    new: &Code,
    size: u32,
    limit: u64,
) -> Result<Vec<RoutePart>, AllocError>
    requires { size ≤ largest_size }
    ensures { IfOk result (λ parts. spec.AreParts old.now new.now size limit parts.items) }
{
    let same = are_equal(alloc, old, new)?;
    if same {
        return Ok(Vec::new(alloc));
    }
    let parts = compare(alloc, old, new, size, limit)?;
    join_all(alloc, parts)
}

/// The lines of the parts of the routes on which two filters differ, or on which it is not decided, and one line on all other routes: of domains of the
/// size that they were verified for. It tries at most `limit` classes of routes.
pub fn difference_text(
    alloc: Global,
    old: &Verified,
    new: &Verified,
    limit: u64,
) -> Result<Vec<u8>, AllocError>
    ensures { IfOk result (λ text. spec.TellsParts old.now.program new.now.program old.now.size limit text.items) }
{
    let parts = find_parts(alloc, old.code(), new.code(), old.size(), limit)?;
    parts_text(alloc, old.size(), parts.as_slice())
}
