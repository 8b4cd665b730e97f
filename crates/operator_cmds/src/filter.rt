//! The filters of a script: sources that are verified, and get names.
ghost use Rattle.std.specs.Prelude.{◌≡◌, IfErr, IfOk, OnErr, OnOk};
ghost use Rattle.std.specs.Io.{StartsWith};
ghost use Rattle.filter_source.specs.Failures.{OnDiagnosis};
ghost use Rattle.operator_cmds.specs.Replies.{Answers};
ghost use Rattle.operator_cmds.specs.Script as spec;
ghost use Rattle.operator_cmds.specs.State.{filter_at};

use crate::reply::refuse;
use filter_source::{
    CompiledSource, Diagnosis, Failure, compile_text_mapped, push_verified, read_file, verify_code,
    verify_mapped,
};
use filter_verifier::Verified;
use line_protocol::LineReply;
use std::alloc::{AllocError, Global};
use std::collections::BTreeMap;
use std::sync::Arc;

/// The filters of a script by their names, in the names' order: no choice of names makes it slow to find one.
pub type NamedFilters = BTreeMap<Vec<u8>, Arc<Verified>>;

/// What a filter is made of.
#[derive(Clone, Copy)]
pub enum FilterSource<'a> {
    /// A text.
    Text(&'a [u8]),
    /// The bytes of a code file.
    File(&'a [u8]),
}

/// The verified code of a filter's text, for domains of a size.
pub fn verify_text(alloc: Global, text: &[u8], size: u16) -> Result<Verified, Failure>
    ensures verified { IfOk result (λ v. spec.IsVerified (spec.GivesText text.now) size v) }
    ensures refused { IfErr result (OnDiagnosis (spec.IsTextDiagnosis text.now size)) }
{
    let CompiledSource { code, places, .. } = compile_text_mapped(alloc, text)?;
    verify_mapped(alloc, code, places.as_slice(), u32::from(size))
}

/// The verified code of a code file, for domains of a size.
fn verify_file(alloc: Global, bytes: &[u8], size: u16) -> Result<Verified, Failure>
    ensures verified { IfOk result (λ v. spec.IsVerified (spec.GivesFile bytes.now) size v) }
    ensures refused { IfErr result (OnDiagnosis (spec.IsFileDiagnosis bytes.now size)) }
{
    verify_code(alloc, read_file(alloc, bytes)?, u32::from(size))
}

/// The verified code of a source, for domains of a size.
fn verify_source(alloc: Global, source: FilterSource<'_>, size: u16) -> Result<Verified, Failure>
    ensures verified { IfOk result (λ v. spec.IsVerified (spec.gives source.entry) size v) }
    ensures refused { IfErr result (OnDiagnosis (spec.diagnoses source.entry size)) }
{
    match source {
        FilterSource::Text(text) => verify_text(alloc, text, size),
        FilterSource::File(bytes) => verify_file(alloc, bytes, size),
    }
}

/// Gives a filter a name, which the filter that had it loses.
pub fn give_name(
    alloc: Global,
    filters: &mut NamedFilters,
    name: &[u8],
    filter: Arc<Verified>,
) -> Result<(), AllocError>
    ensures ok { OnOk result (spec.GetsName name.now filter.value (filter_at filters.old) (filter_at filters.new)) }
    ensures err { OnErr result (filters.new.entries ≡ filters.old.entries) }
{
    filters.insert(Vec::from_slice(alloc, name)?, filter)?;
    Ok(())
}

/// Answers `load` and `code`: a source is verified for domains of a size, and gets a name. A refused one leaves the filter that the name
/// has, and what is told of it is kept in `diagnosis`, which a verified one leaves.
pub fn name_source(
    alloc: Global,
    filters: &mut NamedFilters,
    number: u32,
    name: &[u8],
    source: FilterSource<'_>,
    size: u16,
    diagnosis: &mut Option<Diagnosis>,
    out: &mut Vec<u8>,
) -> Result<LineReply, AllocError>
    ensures ok { IfOk result (Answers (λ answer. spec.AnswersSource (spec.gives source.entry) (spec.lacks source.entry) size number name.now
        (filter_at filters.old) answer (filter_at filters.new)) out.old.items out.new.items) }
    ensures diagnosis { IfOk result (Answers (λ answer. spec.TellsSource (spec.diagnoses source.entry size) number diagnosis.old answer diagnosis.new)
        out.old.items out.new.items) }
    ensures err { OnErr result (StartsWith out.new.items out.old.items) }
    ensures left { OnErr result (filters.new.entries ≡ filters.old.entries) }
    ensures untold { OnErr result (diagnosis.new ≡ diagnosis.old) }
{
    match verify_source(alloc, source, size) {
        Ok(filter) => {
            push_verified(out, &filter)?;
            give_name(alloc, filters, name, Arc::new(alloc, filter)?)?;
            Ok(LineReply::Answered)
        }
        Err(Failure::Refused(refused)) => {
            let why = refused.refusal;
            let reply = refuse(out, why.code(), why.place_in_line(number))?;
            *diagnosis = Some(refused);
            Ok(reply)
        }
        Err(Failure::Memory) => Err(AllocError),
    }
}
