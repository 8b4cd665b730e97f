//! Verified filters for programs in C: each export states what the call below it states. `include/gomthau_filter.h` says the same in C's words.
//!
//! **`close` takes the address of the handle** and leaves it empty, so that a handle that is closed is seen to be.
//!
//! **`NULL` is replaced in the header.** A slice of Rattle has an address, also one of length 0. So the calls of the header
//! that take buffers give the library another address in place of `NULL`.
//!
//! **The C heap is in the installed archive.** The archive that the toolchain makes calls `malloc`, `realloc` and `free` through three functions of
//! the kit; `install.sh --library` puts them in.
#![tactic(auto)]

ghost use Rattle.std.specs.Prelude.{◌≡◌, ◌≢◌, ◌↔◌, false, None, IfSome};
ghost use Rattle.std.specs.Arc.{arc_value};
ghost use Rattle.filter_reports.specs.Checking.{IsDiagnosis};
ghost use Rattle.filter_reports.specs.VerifiedFilters.{IsVerifiedOf};
ghost use Rattle.filter_c.specs.Answers.{AreAnswers, AreBounds, IsAnswer};
ghost use Rattle.filter_c.specs.Openings.{IsDiagnosisOfFile, IsVerifiedFile, Tells};

mod answer;
mod block;
mod bounds;
mod handle;
mod opening;
mod owner;
mod refused;

use answer::{Answer, CRoute, answer_all, answer_of};
use bounds::{Bounds, bounds_of};
use handle::FilterHandle;
use opening::{another, open_file, open_text};
use refused::{Refused, tell};
use std::alloc::Global;
use std::mem::replace;

/// The filter is open, or what was asked for is there.
const DONE: u32 = 0;

/// Memory is refused.
const NO_MEMORY: u32 = 2;

/// Verifies the filter of a text for domains of `size` nodes, and hands out a handle of it. A refusal is told in `refused`, and in words in
/// `words`, which end with a zero.
#[tactic(auto, using(crate::proofs::Tellings::tells))]
#[unsafe(no_mangle)]
pub extern "C" fn gomthau_filter_open(
    alloc: Global,
    text: &[u8],
    size: u32,
    filter: &mut FilterHandle,
    refused: &mut Refused,
    words: &mut [u8],
) -> u32
    requires { filter.old.value ≡ None }
    ensures verified { result ≡ 0 → IfSome filter.new.value (λ o. IsVerifiedOf size text.now (arc_value o.filter)) }
    ensures some { (result ≡ 0) ↔ (filter.new.value ≢ None) }
    ensures refused { result ≡ 1 → Tells (IsDiagnosis size false text.now) text.now refused.new words.old words.new }
    ensures kept { result ≢ 1 → (refused.new ≡ refused.old) × (words.new ≡ words.old) }
{
    match open_text(alloc, text, size) {
        Ok(boxed) => {
            *filter = FilterHandle::of(boxed);
            DONE
        }
        Err(failure) => tell(alloc, text, failure, refused, words),
    }
}

/// Verifies the filter of a code file, and hands out a handle of it, as `gomthau_filter_open` does.
#[tactic(auto, using(crate::proofs::Tellings::tells))]
#[unsafe(no_mangle)]
pub extern "C" fn gomthau_filter_open_code(
    alloc: Global,
    bytes: &[u8],
    size: u32,
    filter: &mut FilterHandle,
    refused: &mut Refused,
    words: &mut [u8],
) -> u32
    requires { filter.old.value ≡ None }
    ensures verified { result ≡ 0 → IfSome filter.new.value (λ o. IsVerifiedFile size bytes.now (arc_value o.filter)) }
    ensures some { (result ≡ 0) ↔ (filter.new.value ≢ None) }
    ensures refused { result ≡ 1 → Tells (IsDiagnosisOfFile size bytes.now) bytes.now refused.new words.old words.new }
    ensures kept { result ≢ 1 → (refused.new ≡ refused.old) × (words.new ≡ words.old) }
{
    match open_file(alloc, bytes, size) {
        Ok(boxed) => {
            *filter = FilterHandle::of(boxed);
            DONE
        }
        Err(failure) => tell(alloc, bytes, failure, refused, words),
    }
}

/// Takes a route through a filter: the route to the first `length` bits of an address, received with a metric.
#[unsafe(no_mangle)]
pub extern "C" fn gomthau_filter_run(
    alloc: Global,
    filter: &mut FilterHandle,
    address: u32,
    length: u8,
    metric: u32,
) -> Answer
    requires { filter.old.value ≢ None }
    ensures answer { IfSome filter.old.value (λ o. IsAnswer (arc_value o.filter) address length metric result) }
    ensures kept { filter.new.value ≡ filter.old.value }
{
    let boxed = replace(filter, FilterHandle::none()).into_box(alloc);
    let answer = answer_of(&boxed.filter, address, length, metric);
    *filter = FilterHandle::of(boxed);
    answer
}

/// Takes routes through a filter, as many as there are answers at most. The answer to each is at its place.
#[unsafe(no_mangle)]
pub extern "C" fn gomthau_filter_run_all(
    alloc: Global,
    filter: &mut FilterHandle,
    routes: &[CRoute],
    answers: &mut [Answer],
)
    requires { filter.old.value ≢ None }
    ensures answers { IfSome filter.old.value (λ o. AreAnswers (arc_value o.filter) routes.now answers.old answers.new) }
    ensures kept { filter.new.value ≡ filter.old.value }
{
    let boxed = replace(filter, FilterHandle::none()).into_box(alloc);
    answer_all(&boxed.filter, routes, answers);
    *filter = FilterHandle::of(boxed);
}

/// The bounds of a filter, and what it reads.
#[unsafe(no_mangle)]
pub extern "C" fn gomthau_filter_bounds(
    alloc: Global,
    filter: &mut FilterHandle,
    bounds: &mut Bounds,
) -> u32
    requires { filter.old.value ≢ None }
    ensures bounds { result ≡ 0 → IfSome filter.old.value (λ o. AreBounds (arc_value o.filter) bounds.new) }
    ensures unchanged { result ≢ 0 → bounds.new ≡ bounds.old }
    ensures kept { filter.new.value ≡ filter.old.value }
{
    let boxed = replace(filter, FilterHandle::none()).into_box(alloc);
    let found = bounds_of(alloc, &boxed.filter);
    *filter = FilterHandle::of(boxed);
    match found {
        Ok(found) => {
            *bounds = found;
            DONE
        }
        Err(_) => NO_MEMORY,
    }
}

/// Hands out a further handle of the same filter, as for another thread.
#[unsafe(no_mangle)]
pub extern "C" fn gomthau_filter_share(
    alloc: Global,
    filter: &mut FilterHandle,
    other: &mut FilterHandle,
) -> u32
    requires open { filter.old.value ≢ None }
    requires none { other.old.value ≡ None }
    ensures kept { filter.new.value ≡ filter.old.value }
    ensures some { (result ≡ 0) ↔ (other.new.value ≢ None) }
    ensures same { result ≡ 0 → IfSome filter.old.value (λ o. IfSome other.new.value (λ p. arc_value p.filter ≡ arc_value o.filter)) }
{
    let boxed = replace(filter, FilterHandle::none()).into_box(alloc);
    let shared = another(&boxed, alloc);
    *filter = FilterHandle::of(boxed);
    match shared {
        Ok(shared) => {
            *other = FilterHandle::of(shared);
            DONE
        }
        Err(_) => NO_MEMORY,
    }
}

/// Closes a handle. The last one of a filter frees it.
#[unsafe(no_mangle)]
pub extern "C" fn gomthau_filter_close(alloc: Global, filter: &mut FilterHandle)
    requires { filter.old.value ≢ None }
    ensures { filter.new.value ≡ None }
{
    drop(replace(filter, FilterHandle::none()).into_box(alloc));
}
