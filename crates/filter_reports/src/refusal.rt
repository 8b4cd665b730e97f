//! The line that refuses a filter.
ghost use Rattle.std.specs.Prelude.{◌≡◌, IfOk};
ghost use Rattle.filter_reports.specs.VerifiedFilters.{refusal_line};

use filter_source::Refusal;
use line_protocol::push_refusal;
use std::alloc::{AllocError, Global};

/// The number of the line that the refusal of a filter names where it names a line: what is wrong is wrong with the source as a whole.
pub(crate) const FIRST_LINE: u32 = 1;

/// The line that refuses a filter.
pub fn refusal_line(alloc: Global, why: Refusal) -> Result<Vec<u8>, AllocError>
    ensures { IfOk result (λ text. text.items ≡ refusal_line why) }
{
    let mut text = Vec::new(alloc);
    push_refusal(&mut text, why.code(), why.place_in_line(FIRST_LINE))?;
    Ok(text)
}
