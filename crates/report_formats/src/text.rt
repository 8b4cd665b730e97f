//! Texts and numbers as values of JSON.
ghost use Rattle.std.specs.Prelude.{◌≡◌, ◌≤◌, ◌++◌, ◌∷◌, [], IfOk, OnOk, Some, false, option_map, string_bytes};
ghost use Rattle.serde_json.specs.Data.{depth, string};
ghost use Rattle.serde_json.specs.View.{view};
ghost use Rattle.serde_json.specs.Written.{compact_text, has_float};
ghost use Rattle.report_formats.specs.Lines.{json_line, readable};
ghost use Rattle.report_formats.specs.Values.{number_or_null, text_or_null};

use bstr::ByteSlice;
use serde_json::Value;
use std::alloc::{AllocError, Global};

/// A text of these bytes.
pub fn text_value(alloc: Global, bytes: &[u8]) -> Result<Value, AllocError>
    ensures { IfOk result (λ value. view value ≡ string (readable bytes.now)) }
{
    let text = bytes.to_str_lossy(alloc)?;
    Ok(Value::String(text.into_owned(alloc)?))
}

/// A text of these bytes, if there is one.
pub fn text_or_null(alloc: Global, bytes: Option<&[u8]>) -> Result<Value, AllocError>
    ensures { IfOk result (λ value. view value ≡ text_or_null (option_map (λ text. text.now) bytes.entry)) }
{
    match bytes {
        Some(bytes) => text_value(alloc, bytes),
        None => Ok(Value::Null),
    }
}

/// A number, if there is one.
pub fn number_or_null(number: Option<usize>) -> Value
    ensures { view result ≡ number_or_null number }
{
    match number {
        Some(number) => Value::from(number as u64),
        None => Value::Null,
    }
}

/// Puts the line of a value without floats at the end of `out`.
pub fn push_value(alloc: Global, out: &mut Vec<u8>, value: &Value) -> Result<(), AllocError>
    requires { has_float (view value.now) ≡ false }
    ensures { OnOk result (out.new.items ≡ out.old.items ++ json_line (view value.now)) }
{
    let text = value.to_string(alloc)?;
    out.extend_from_slice(text.as_bytes())?;
    out.push(b'\n')?;
    Ok(())
}
