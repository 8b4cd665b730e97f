//! The lines that tell what a change of a domain does.
//!
//! **There is a line for each way in which a route may turn**, and then come those of failures, as many as the line before them says.
ghost use Rattle.std.specs.Prelude.{◌≡◌, ◌++◌, OnOk, flat_map};
ghost use Rattle.domain_cmds.specs.Comparing.{comparison_view};
ghost use Rattle.domain_cmds.specs.ComparisonTexts as spec;
ghost use Rattle.operator_cmds.specs.Replies.{pair_text};

use crate::comparing::{Comparison, Harm};
use crate::failure_text::{push_number, push_what};
use crate::text::push_pair;
use line_protocol::push_decimal;
use std::alloc::AllocError;

/// Adds pairs of nodes.
fn push_each_pair(out: &mut Vec<u8>, pairs: &[(u16, u16)]) -> Result<(), AllocError>
    ensures { OnOk result (out.new.items ≡ out.old.items ++ flat_map (λ pair. pair_text pair.0 pair.1) pairs.now) }
{
    for (u, v) in pairs {
        push_pair(out, *u, *v)?;
    }
    Ok(())
}

/// Adds a word and pairs of nodes.
fn push_pairs(out: &mut Vec<u8>, word: &[u8], pairs: &[(u16, u16)]) -> Result<(), AllocError>
    ensures { OnOk result (out.new.items ≡ out.old.items ++ spec.pairs_text word.now pairs.now) }
{
    out.extend_from_slice(word)?;
    push_each_pair(out, pairs)
}

/// Begins a line, and adds what a failure does that it did not do before.
fn push_harm(out: &mut Vec<u8>, harm: Harm) -> Result<(), AllocError>
    ensures { OnOk result (out.new.items ≡ out.old.items ++ spec.harm_text harm) }
{
    push_what(out, harm.what)?;
    push_number(out, b" loses ", harm.loses)?;
    push_number(out, b" keeps ", harm.keeps)
}

/// Adds these lines.
fn push_each_harm(out: &mut Vec<u8>, harms: &[Harm]) -> Result<(), AllocError>
    ensures { OnOk result (out.new.items ≡ out.old.items ++ flat_map spec.harm_text harms.now) }
{
    for harm in harms {
        push_harm(out, *harm)?;
    }
    Ok(())
}

/// Adds how many lines of failures follow, and these.
fn push_harms(out: &mut Vec<u8>, harms: &[Harm]) -> Result<(), AllocError>
    ensures { OnOk result (out.new.items ≡ out.old.items ++ spec.harms_text harms.now) }
{
    out.extend_from_slice(b"failures ")?;
    push_decimal(out, harms.len() as u64)?;
    push_each_harm(out, harms)
}

/// Adds what a change does, but for the end of its last line.
pub(crate) fn push_comparison(out: &mut Vec<u8>, found: &Comparison) -> Result<(), AllocError>
    ensures { OnOk result (out.new.items ≡ out.old.items ++ spec.comparison_text (comparison_view found.now)) }
{
    push_pairs(out, b"lost", found.lost.as_slice())?;
    out.push(b'\n')?;
    push_pairs(out, b"gained", found.gained.as_slice())?;
    out.push(b'\n')?;
    push_pairs(out, b"changed", found.changed.as_slice())?;
    out.push(b'\n')?;
    push_harms(out, found.harms.as_slice())
}
