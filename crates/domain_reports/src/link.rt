//! A link as a value of JSON.
ghost use Rattle.std.specs.Prelude.{◌≡◌, IfOk};
ghost use Rattle.serde_json.specs.View.{view};
ghost use Rattle.domain_reports.specs.Reports as spec;

use crate::lists::pair_value;
use report_formats::{ObjectBuilder, number_or_null};
use serde_json::{Value, json};
use std::alloc::{AllocError, Global};

/// A link between two nodes, with the places of the filters that its ends use in the list of all filters.
#[derive(Clone, Copy)]
pub struct LinkReport {
    /// The lesser node.
    pub u: u16,
    /// The greater one.
    pub w: u16,
    /// The filters of what the lesser node tells the other, and of what that one tells it.
    pub exports: (Option<usize>, Option<usize>),
    /// The filters of what the lesser node receives from the other, and of what that one receives from it.
    pub imports: (Option<usize>, Option<usize>),
}

/// The filters of both ends as a list.
fn ends_value(alloc: Global, ends: (Option<usize>, Option<usize>)) -> Result<Value, AllocError>
    ensures { IfOk result (λ value. view value ≡ spec.ends_data ends.0 ends.1) }
{
    let (first, second) = (number_or_null(ends.0), number_or_null(ends.1));
    json!(in alloc; [first, second])
}

/// A link as an object.
fn link_value(alloc: Global, link: LinkReport) -> Result<Value, AllocError>
    ensures { IfOk result (λ value. view value ≡ spec.link_data link) }
{
    ObjectBuilder::new(alloc)
        .try_member("exports", ends_value(alloc, link.exports))
        .try_member("imports", ends_value(alloc, link.imports))
        .try_member("link", pair_value(alloc, link.u, link.w))
        .finish()
}

/// Links as a list.
pub(crate) fn links_value(alloc: Global, links: &[LinkReport]) -> Result<Value, AllocError>
    ensures { IfOk result (λ value. view value ≡ spec.list_data spec.link_data links.now) }
{
    let mut list = Vec::with_capacity(alloc, links.len())?;
    for link in links {
        list.push(link_value(alloc, *link)?)?;
    }
    Ok(Value::Array(list))
}
