//! The page of a domain.
//!
//! **No byte of the data begins or ends an element**: an opening bracket can stand in strings of JSON alone, where it is written as a number. So
//! the page's script is all that a browser runs, whatever the names and texts are.
ghost use Rattle.std.specs.Prelude.{◌≡◌, ◌++◌, OnOk, false};
ghost use Rattle.serde_json.specs.View.{view};
ghost use Rattle.serde_json.specs.Written.{has_float};
ghost use Rattle.domain_reports.specs.Pages as spec;
ghost use Rattle.domain_reports.specs.Views.{domain_view};

use crate::domain::{DomainReport, domain_value};
use report_formats::text_value;
use serde_json::Value;
use std::alloc::{AllocError, Global};

/// What is the same in the page of each domain.
#[derive(Clone, Copy)]
pub struct Shell<'a> {
    /// What stands before the data.
    pub before: &'a str,
    /// What stands behind it.
    pub behind: &'a str,
}

/// Adds a byte of JSON.
fn push_byte(out: &mut Vec<u8>, byte: u8) -> Result<(), AllocError>
    ensures { OnOk result (out.new.items ≡ out.old.items ++ spec.unbracketed_byte byte) }
{
    if byte == b'<' {
        out.extend_from_slice(b"\\u003c")
    } else {
        out.push(byte)?;
        Ok(())
    }
}

/// Adds JSON.
fn push_unbracketed(out: &mut Vec<u8>, bytes: &[u8]) -> Result<(), AllocError>
    ensures { OnOk result (out.new.items ≡ out.old.items ++ spec.unbracketed bytes.now) }
{
    for byte in bytes {
        push_byte(out, *byte)?;
    }
    Ok(())
}

/// Adds a value in an element of this name.
#[tactic(auto, unfolding(crate::specs::Pages::behind_data))]
fn push_element(
    alloc: Global,
    out: &mut Vec<u8>,
    name: &[u8],
    value: &Value,
) -> Result<(), AllocError>
    requires { has_float (view value.now) ≡ false }
    ensures { OnOk result (out.new.items ≡ out.old.items ++ spec.data_element name.now (view value.now)) }
{
    let text = value.to_string(alloc)?;
    out.extend_from_slice(b"<script type=\"application/json\" id=\"")?;
    out.extend_from_slice(name)?;
    out.extend_from_slice(b"\">")?;
    push_unbracketed(out, text.as_bytes())?;
    out.extend_from_slice(b"</script>\n")
}

/// Adds the page of a domain, whose script has this name.
pub fn push_page(
    alloc: Global,
    out: &mut Vec<u8>,
    shell: Shell<'_>,
    name: &[u8],
    domain: &DomainReport<'_>,
) -> Result<(), AllocError>
    ensures { OnOk result (out.new.items ≡ out.old.items ++ spec.page_text shell.entry name.now (domain_view domain.now)) }
{
    let file = text_value(alloc, name)?;
    let value = domain_value(alloc, domain)?;
    out.extend_from_slice(shell.before.as_bytes())?;
    push_element(alloc, out, b"file", &file)?;
    push_element(alloc, out, b"domain", &value)?;
    out.extend_from_slice(shell.behind.as_bytes())
}
