//! The line of a part of the routes.
ghost use Rattle.std.specs.Prelude.{◌≡◌, ◌++◌, IfOk, OnOk};
ghost use Rattle.serde_json.specs.View.{view};
ghost use Rattle.report_formats.specs.Parts as spec;

use crate::finding::{Severity, severity_value};
use crate::object::ObjectBuilder;
use crate::text::{push_value, text_or_null, text_value};
use serde_json::Value;
use std::alloc::{AllocError, Global};

/// What was found of a part of the routes.
#[derive(Clone, Copy)]
pub struct PartReport<'a> {
    /// What is said of it.
    pub severity: Severity,
    /// The prefix within which the prefixes of its routes are.
    pub prefix: &'a [u8],
    /// The least length of these.
    pub shortest: u64,
    /// The greatest one.
    pub longest: u64,
    /// The least metric of its routes.
    pub least: u64,
    /// The greatest one.
    pub greatest: u64,
    /// What the older filter does with these routes.
    pub before: Option<&'a [u8]>,
    /// What the newer one does.
    pub after: Option<&'a [u8]>,
    /// What is said in words.
    pub words: &'a [u8],
}

/// It as an object.
fn value_of(alloc: Global, part: &PartReport<'_>) -> Result<Value, AllocError>
    ensures { IfOk result (λ value. view value ≡ spec.part_data (spec.part_view part.now)) }
{
    ObjectBuilder::new(alloc)
        .try_member("after", text_or_null(alloc, part.after))
        .try_member("before", text_or_null(alloc, part.before))
        .member("greatest", Value::from(part.greatest))
        .member("least", Value::from(part.least))
        .member("longest", Value::from(part.longest))
        .try_member("prefix", text_value(alloc, part.prefix))
        .try_member("severity", severity_value(alloc, part.severity))
        .member("shortest", Value::from(part.shortest))
        .try_member("words", text_value(alloc, part.words))
        .finish()
}

/// Puts the line of a part at the end of `out`.
pub fn push_part(alloc: Global, out: &mut Vec<u8>, part: &PartReport<'_>) -> Result<(), AllocError>
    ensures { OnOk result (out.new.items ≡ out.old.items ++ spec.part_line (spec.part_view part.now)) }
{
    let value = value_of(alloc, part)?;
    push_value(alloc, out, &value)
}
