//! Lists as values of JSON.
ghost use Rattle.std.specs.Prelude.{◌≡◌, IfOk, map};
ghost use Rattle.serde_json.specs.View.{view};
ghost use Rattle.domain_reports.specs.Reports as spec;

use bstr::ByteSlice;
use report_formats::text_value;
use serde_json::{Value, json};
use std::alloc::{AllocError, Global};

/// A list of numbers.
pub(crate) fn numbers_value(alloc: Global, numbers: &[u16]) -> Result<Value, AllocError>
    ensures { IfOk result (λ value. view value ≡ spec.numbers_data numbers.now) }
{
    let mut list = Vec::with_capacity(alloc, numbers.len())?;
    for number in numbers {
        list.push(Value::from(*number))?;
    }
    Ok(Value::Array(list))
}

/// Two numbers.
pub(crate) fn pair_value(alloc: Global, u: u16, w: u16) -> Result<Value, AllocError>
    ensures { IfOk result (λ value. view value ≡ spec.pair_data u w) }
{
    json!(in alloc; [u, w])
}

/// A list of pairs of numbers.
pub(crate) fn pairs_value(alloc: Global, pairs: &[(u16, u16)]) -> Result<Value, AllocError>
    ensures { IfOk result (λ value. view value ≡ spec.pairs_data pairs.now) }
{
    let mut list = Vec::with_capacity(alloc, pairs.len())?;
    for pair in pairs {
        list.push(pair_value(alloc, pair.0, pair.1)?)?;
    }
    Ok(Value::Array(list))
}

/// A list of texts.
pub(crate) fn texts_value(alloc: Global, texts: &[Vec<u8>]) -> Result<Value, AllocError>
    ensures { IfOk result (λ value. view value ≡ spec.list_data spec.text_data (map (λ text. text.items) texts.now)) }
{
    let mut list = Vec::with_capacity(alloc, texts.len())?;
    for text in texts {
        list.push(text_value(alloc, text.as_slice())?)?;
    }
    Ok(Value::Array(list))
}

/// The lines of a text, each without its end.
pub(crate) fn lines_value(alloc: Global, text: &[u8]) -> Result<Value, AllocError>
    ensures { IfOk result (λ value. view value ≡ spec.lines_data text.now) }
{
    let mut list = Vec::new(alloc);
    for line in text.lines() {
        list.push(text_value(alloc, line)?)?;
    }
    Ok(Value::Array(list))
}
