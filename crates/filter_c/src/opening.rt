//! Filters from texts and code files.
ghost use Rattle.std.specs.Prelude.{◌≡◌, false, IfErr, IfOk};
ghost use Rattle.std.specs.Arc.{arc_value};
ghost use Rattle.filter_reports.specs.Checking.{IsDiagnosis};
ghost use Rattle.filter_reports.specs.VerifiedFilters.{IsVerifiedOf};
ghost use Rattle.filter_source.specs.Failures.{OnDiagnosis};
ghost use Rattle.filter_c.specs.Openings.{IsDiagnosisOfFile, IsVerifiedFile};

use crate::owner::Owner;
use filter_reports::verified_filter;
use filter_source::{Failure, read_file, verify_code};
use filter_verifier::Verified;
use std::alloc::{AllocError, Global};
use std::sync::Arc;

/// The first owner of a filter, in a box.
fn in_box(alloc: Global, verified: Verified) -> Result<Box<Owner>, AllocError>
    ensures { IfOk result (λ b. arc_value b.value.filter ≡ verified) }
{
    let filter = Arc::new(alloc, verified)?;
    Ok(Box::new(alloc, Owner { filter })?)
}

/// Another owner, in a box.
pub(crate) fn another(owner: &Owner, alloc: Global) -> Result<Box<Owner>, AllocError>
    ensures { IfOk result (λ b. arc_value b.value.filter ≡ arc_value owner.now.filter) }
{
    let filter = Arc::try_clone(&owner.filter)?;
    Ok(Box::new(alloc, Owner { filter })?)
}

/// The verified filter of a text, in a box.
#[tactic(auto, using(crate::proofs::Tellings::same_of_text))]
pub(crate) fn open_text(alloc: Global, text: &[u8], size: u32) -> Result<Box<Owner>, Failure>
    ensures verified { IfOk result (λ b. IsVerifiedOf size text.now (arc_value b.value.filter)) }
    ensures refused { IfErr result (OnDiagnosis (IsDiagnosis size false text.now)) }
{
    let verified = verified_filter(alloc, text, size)?;
    Ok(in_box(alloc, verified)?)
}

/// The verified filter of a code file.
#[tactic(auto, using(crate::proofs::Tellings::by_bytes, crate::proofs::Tellings::by_code, crate::proofs::Tellings::verified_of))]
fn verified_file(alloc: Global, bytes: &[u8], size: u32) -> Result<Verified, Failure>
    ensures verified { IfOk result (IsVerifiedFile size bytes.now) }
    ensures refused { IfErr result (OnDiagnosis (IsDiagnosisOfFile size bytes.now)) }
{
    let code = read_file(alloc, bytes)?;
    match verify_code(alloc, code, size) {
        Ok(verified) => Ok(verified),
        Err(failure) => Err(failure),
    }
}

/// The same in a box.
#[tactic(auto, using(crate::proofs::Tellings::same_of_file))]
pub(crate) fn open_file(alloc: Global, bytes: &[u8], size: u32) -> Result<Box<Owner>, Failure>
    ensures verified { IfOk result (λ b. IsVerifiedFile size bytes.now (arc_value b.value.filter)) }
    ensures refused { IfErr result (OnDiagnosis (IsDiagnosisOfFile size bytes.now)) }
{
    let verified = verified_file(alloc, bytes, size)?;
    Ok(in_box(alloc, verified)?)
}
