//! A filter as a value of JSON.
ghost use Rattle.std.specs.Prelude.{◌≡◌, IfOk, map};
ghost use Rattle.serde_json.specs.View.{view};
ghost use Rattle.domain_reports.specs.Reports as spec;
ghost use Rattle.domain_reports.specs.Views.{effect_view, filter_view};

use crate::lists::{lines_value, numbers_value};
use report_formats::{ObjectBuilder, text_or_null, text_value};
use serde_json::Value;
use std::alloc::{AllocError, Global};

/// What each distance from some nodes comes to under a filter.
#[derive(Drop)]
pub struct Effect {
    /// What each distance comes to, from 0 on.
    pub distances: Vec<u16>,
    /// The nodes of which all distances come to these.
    pub nodes: Vec<u16>,
}

/// A filter that has a name.
#[derive(Drop)]
pub struct FilterReport<'a> {
    /// Its name.
    pub name: &'a [u8],
    /// The number of the line that gave it.
    pub line: u32,
    /// Its text, where it was not given as code.
    pub text: Option<&'a [u8]>,
    /// The listing of its code.
    pub listing: &'a [u8],
    /// How many steps it takes at most.
    pub budget: u32,
    /// How many operands it holds at most.
    pub depth: u32,
    /// What it makes of distances.
    pub effects: Vec<Effect>,
}

/// An effect as an object.
fn effect_value(alloc: Global, effect: &Effect) -> Result<Value, AllocError>
    ensures { IfOk result (λ value. view value ≡ spec.effect_data (effect_view effect.now)) }
{
    ObjectBuilder::new(alloc)
        .try_member(
            "distances",
            numbers_value(alloc, effect.distances.as_slice()),
        )
        .try_member("nodes", numbers_value(alloc, effect.nodes.as_slice()))
        .finish()
}

/// Effects as a list.
fn effects_value(alloc: Global, effects: &[Effect]) -> Result<Value, AllocError>
    ensures { IfOk result (λ value. view value ≡ spec.list_data spec.effect_data (map effect_view effects.now)) }
{
    let mut list = Vec::with_capacity(alloc, effects.len())?;
    for effect in effects {
        list.push(effect_value(alloc, effect)?)?;
    }
    Ok(Value::Array(list))
}

/// A filter as an object.
fn filter_value(alloc: Global, filter: &FilterReport<'_>) -> Result<Value, AllocError>
    ensures { IfOk result (λ value. view value ≡ spec.filter_data (filter_view filter.now)) }
{
    ObjectBuilder::new(alloc)
        .member("budget", Value::from(filter.budget))
        .member("depth", Value::from(filter.depth))
        .try_member("effects", effects_value(alloc, filter.effects.as_slice()))
        .member("line", Value::from(filter.line))
        .try_member("listing", lines_value(alloc, filter.listing))
        .try_member("name", text_value(alloc, filter.name))
        .try_member("text", text_or_null(alloc, filter.text))
        .finish()
}

/// Filters as a list.
pub(crate) fn filters_value(
    alloc: Global,
    filters: &[FilterReport<'_>],
) -> Result<Value, AllocError>
    ensures { IfOk result (λ value. view value ≡ spec.list_data spec.filter_data (map filter_view filters.now)) }
{
    let mut list = Vec::with_capacity(alloc, filters.len())?;
    for filter in filters {
        list.push(filter_value(alloc, filter)?)?;
    }
    Ok(Value::Array(list))
}
