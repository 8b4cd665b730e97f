//! The options that have parts.
ghost use Rattle.std.specs.Prelude.{◌≡◌, true, false, Some, None, IfErr, IfOk, MatchOption};
ghost use Rattle.router_options.specs.Forms as spec;
ghost use Rattle.router_options.specs.declared.fault.OptionFault.TheVariants as fault;

use crate::fault::OptionFault;
use line_protocol::{NUMBER_LIMIT, is_name};
use prefix_patterns::{Prefix, read_number, read_prefix};
use std::alloc::Global;

/// A link: the neighbour, and the files that its lines come from and go to.
#[derive(PartialEq, Eq, Drop)]
pub struct LinkFiles {
    /// The neighbour.
    pub node: u16,
    /// What the neighbour says is read here.
    pub input: String,
    /// What it is told is written here.
    pub output: String,
}

/// Where an operator is served: the files that their lines come from and that answers go to, and whether they may look alone.
#[derive(PartialEq, Eq, Drop)]
pub struct ControlFiles {
    /// What the operator says is read here.
    pub input: String,
    /// What they are answered is written here.
    pub output: String,
    /// They may look, and not change.
    pub looks: bool,
}

/// A neighbour whose messages pass a filter.
#[derive(PartialEq, Eq, Drop)]
pub struct FilterUse {
    /// The neighbour.
    pub node: u16,
    /// The filter's name.
    pub name: String,
}

/// The prefix of a node.
#[derive(Drop)]
pub struct NodePrefix {
    /// The node.
    pub node: u16,
    /// Its prefix.
    pub prefix: Prefix,
}

/// A node's number, and what is said of the node behind `=`.
fn cut_node(text: &str) -> Option<(u16, &str)>
    ensures { MatchOption result (spec.node_in text.now ≡ None)
        (λ cut. (spec.node_in text.now ≡ Some cut.0) × (cut.1.now ≡ spec.said_in text.now)) }
{
    match text.split_once('=') {
        Some((node, said)) => match read_number(node.as_bytes(), NUMBER_LIMIT) {
            Some(node) => Some((node as u16, said)),
            None => None,
        },
        None => None,
    }
}

/// The two files of `IN,OUT`, neither of them with an empty name.
fn cut_files(text: &str) -> Option<(&str, &str)>
    ensures { MatchOption result (spec.are_files text.now ≡ false)
        (λ cut. (spec.are_files text.now ≡ true) × (cut.0.now ≡ spec.input_in text.now) × (cut.1.now ≡ spec.output_in text.now)) }
{
    match text.split_once(',') {
        Some((input, output)) if !input.is_empty() && !output.is_empty() => Some((input, output)),
        _ => None,
    }
}

impl LinkFiles {
    /// Reads `W=IN,OUT`.
    pub fn read(alloc: Global, text: &str) -> Result<LinkFiles, OptionFault>
        ensures read { IfOk result (spec.IsLink text.now) }
        ensures refused { IfErr result (spec.IsNoForm (spec.is_link text.now)) }
    {
        let Some((node, files)) = cut_node(text) else {
            return Err(OptionFault::Form);
        };
        match cut_files(files) {
            Some((input, output)) => Ok(LinkFiles {
                node,
                input: String::from_str(alloc, input)?,
                output: String::from_str(alloc, output)?,
            }),
            None => Err(OptionFault::Form),
        }
    }
}

/// The output of a control, and whether its operator may look alone: `OUT` or `OUT,look`.
fn cut_look(text: &str) -> Option<(&str, bool)>
    ensures { MatchOption result (spec.is_end text.now ≡ false)
        (λ cut. (spec.is_end text.now ≡ true) × (cut.0.now ≡ spec.end_in text.now) × (cut.1 ≡ spec.looks_in text.now)) }
{
    match text.split_once(',') {
        None if !text.is_empty() => Some((text, false)),
        Some((output, right)) if !output.is_empty() && right == "look" => Some((output, true)),
        _ => None,
    }
}

impl ControlFiles {
    /// Reads `IN,OUT` or `IN,OUT,look`.
    pub fn read(alloc: Global, text: &str) -> Result<ControlFiles, OptionFault>
        ensures read { IfOk result (spec.IsControl text.now) }
        ensures refused { IfErr result (spec.IsNoForm (spec.is_control text.now)) }
    {
        let Some((input, end)) = cut_files(text) else {
            return Err(OptionFault::Form);
        };
        match cut_look(end) {
            Some((output, looks)) => Ok(ControlFiles {
                input: String::from_str(alloc, input)?,
                output: String::from_str(alloc, output)?,
                looks,
            }),
            None => Err(OptionFault::Form),
        }
    }
}

impl FilterUse {
    /// Reads `W=NAME`.
    pub fn read(alloc: Global, text: &str) -> Result<FilterUse, OptionFault>
        ensures read { IfOk result (spec.IsUse text.now) }
        ensures refused { IfErr result (spec.IsNoForm (spec.is_use text.now)) }
    {
        let Some((node, name)) = cut_node(text) else {
            return Err(OptionFault::Form);
        };
        if !is_name(name.as_bytes()) {
            return Err(OptionFault::Form);
        }
        Ok(FilterUse {
            node,
            name: String::from_str(alloc, name)?,
        })
    }
}

impl NodePrefix {
    /// Reads `V=PREFIX`.
    pub fn read(text: &str) -> Result<NodePrefix, OptionFault>
        ensures read { IfOk result (spec.IsPrefix text.now) }
        ensures refused { IfErr result (λ why. (why ≡ fault.Form) × (spec.is_prefix text.now ≡ false)) }
    {
        let Some((node, prefix)) = cut_node(text) else {
            return Err(OptionFault::Form);
        };
        match read_prefix(prefix.as_bytes()) {
            Some(prefix) => Ok(NodePrefix { node, prefix }),
            None => Err(OptionFault::Form),
        }
    }
}
