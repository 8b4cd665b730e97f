//! The filters in force are numbered, each once.
ghost use Rattle.std.specs.Prelude.{◌≡◌, IfOk};
ghost use Rattle.filter_verifier.specs.VerifiedView.{VerifiedView};
ghost use Rattle.netchange_core.specs.Kept.{filter_of};
ghost use Rattle.history_file.specs.Numbering as spec;

use filter_verifier::Verified;
use history_lines::push_filter;
use netchange_core::Tables;
use std::alloc::{AllocError, Global};
use std::sync::Arc;

/// The numbers of a node's filters in a table of filters, where it has them.
#[derive(Clone, Copy)]
pub(crate) struct Uses {
    /// Of the filter of what it tells.
    pub imports: Option<usize>,
    /// Of the filter of what it is told.
    pub exports: Option<usize>,
}

/// The filters in force, each once, and where they are used.
#[derive(Drop)]
pub(crate) struct Numbered {
    /// The words of each filter, as its line has them.
    pub(crate) rows: Vec<Vec<u8>>,
    /// The numbers of each node's filters.
    pub(crate) uses: Vec<Uses>,
}

/// The number of a row; one that is not there yet is added.
fn number_row(rows: &mut Vec<Vec<u8>>, row: Vec<u8>) -> Result<usize, AllocError>
    ensures { IfOk result (spec.IsRow (spec.texts_of rows.old.items) row.items (spec.texts_of rows.new.items)) }
{
    if let Some(number) = find_row(rows.as_slice(), row.as_slice()) {
        return Ok(number);
    }
    let number = rows.len();
    rows.push(row)?;
    Ok(number)
}

/// The number of a row, if it is there.
fn find_row(rows: &[Vec<u8>], row: &[u8]) -> Option<usize>
    ensures { spec.IsFound (spec.texts_of rows.now) row.now result }
{
    for number in 0..rows.len() {
        if rows[number].as_slice() == row {
            return Some(number);
        }
    }
    None
}

/// The number of a filter, if there is one.
fn number_filter(
    alloc: Global,
    rows: &mut Vec<Vec<u8>>,
    filter: &Option<Arc<Verified>>,
) -> Result<Option<usize>, AllocError>
    ensures { IfOk result (spec.IsNumbered (spec.texts_of rows.old.items) (filter_of filter.now) (spec.texts_of rows.new.items)) }
{
    match filter {
        None => Ok(None),
        Some(filter) => {
            let mut row = Vec::new(alloc);
            push_filter(alloc, &mut row, filter)?;
            Ok(Some(number_row(rows, row)?))
        }
    }
}

/// The filters in force, numbered.
pub(crate) fn number_filters(alloc: Global, tables: &Tables) -> Result<Numbered, AllocError>
    ensures { IfOk result (λ n. spec.AreNumbered tables.now.neighbours (spec.texts_of n.rows.items) n.uses.items tables.now.opening.size) }
{
    let mut rows = Vec::new(alloc);
    let mut uses = Vec::new(alloc);
    for node in 0..tables.opening().size() {
        let neighbour = tables.neighbour(node);
        let imports = number_filter(alloc, &mut rows, &neighbour.imports)?;
        let exports = number_filter(alloc, &mut rows, &neighbour.exports)?;
        uses.push(Uses { imports, exports })?;
    }
    Ok(Numbered { rows, uses })
}
