//! The part at the front of a text.

ghost use Rattle.std.specs.Prelude.{◌≡◌, ◌≤◌, ◌<◌, IfErr, IfOk, length};
ghost use Rattle.filter_tokens.specs.Codes.{fault_place};
ghost use Rattle.filter_tokens.specs.Tokenization.{part_len};
ghost use Rattle.filter_tokens.specs.Reading as spec;

use crate::bytes::leading_byte;
use crate::fault::TokenFault;
use crate::gaps::gap_len;
use crate::leading::digits_token;
use crate::meaning::meaning;
use crate::part::Part;
use crate::shapes::longest_shape;

/// The part at the front of a text that has a byte at least. The text begins at `at`.
pub(crate) fn next_part(text: &[u8], at: usize) -> Result<Part, TokenFault>
    ensures is { spec.OkWhereSome result (spec.part_in text.now) }
    ensures within { IfOk result (λ part. (0 < part_len part) × (part_len part ≤ length text.now)) }
    ensures placed { IfErr result (λ fault. fault_place fault ≡ at) }
{
    match leading_byte(text) {
        Some(part) => Ok(part),
        None => longer_part(text, at),
    }
}

/// The part at the front of a text, where its first byte may not tell it alone.
#[tactic(auto, unfolding(crate::specs::Reading::part_in))]
fn longer_part(text: &[u8], at: usize) -> Result<Part, TokenFault>
    ensures is { spec.OkWhereSome result (spec.part_in text.now) }
    ensures within { IfOk result (λ part. (0 < part_len part) × (part_len part ≤ length text.now)) }
    ensures placed { IfErr result (λ fault. fault_place fault ≡ at) }
{
    match gap_len(text) {
        Some(0) => token(text, at),
        Some(len) => Ok(Part::Gap(len)),
        None => Err(TokenFault::UnendedComment(at)),
    }
}

/// The token at the front of a text.
#[tactic(auto, unfolding(crate::specs::Reading::token_in))]
fn token(text: &[u8], at: usize) -> Result<Part, TokenFault>
    ensures is { spec.OkWhereSome result (spec.token_in text.now) }
    ensures placed { IfErr result (λ fault. fault_place fault ≡ at) }
{
    if let Some(part) = digits_token(text) {
        return Ok(part);
    }
    let Some((shape, rest)) = longest_shape(text) else {
        return Err(no_shape(text, at));
    };
    let len = text.len() - rest.len();
    match meaning(shape, &text[..len], at) {
        Ok(kind) => Ok(Part::Token(kind, len)),
        Err(fault) => Err(fault),
    }
}

/// Why no token begins here.
fn no_shape(text: &[u8], at: usize) -> TokenFault
    ensures { fault_place result ≡ at }
{
    match text.first() {
        Some(b'"') => TokenFault::UnendedText(at),
        Some(b'\'') => TokenFault::QuotedName(at),
        _ => TokenFault::BadCharacter(at),
    }
}
