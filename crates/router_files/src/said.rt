//! What a line of a router's file says of its option.
ghost use Rattle.std.specs.Prelude.{◌≡◌, IfOk, map, string_bytes};
ghost use Rattle.std.specs.List.{list_any};
ghost use Rattle.router_files.specs.Said as spec;

use crate::options::{RouterOption, Shape};
use line_protocol::NUMBER_LIMIT;
use prefix_patterns::read_number;
use std::alloc::{AllocError, Global};
use thiserror::Error;

/// What a line says of its option.
#[derive(Drop)]
pub enum Said {
    /// That it is given.
    Given,
    /// A number.
    Number(u32),
    /// A text, as the command line has it behind the option.
    Text(String),
    /// A filter.
    Named {
        /// Its name.
        name: String,
        /// The file of its text.
        file: String,
    },
}

/// Why a line is refused.
#[derive(Clone, Copy, Debug, Error)]
pub enum LineFault {
    /// It is not UTF-8.
    #[error("this line is not UTF-8")]
    NotText,
    /// It begins with a word that is the name of no option.
    #[error("no option has this name")]
    Unknown,
    /// It has too few words for this option, or too many.
    #[error("a line of this option has another form")]
    Form(RouterOption),
    /// A word that is to be a number is none.
    #[error("this is no number, or it is above 4294967295")]
    Number,
    /// A word that is to be the number of a node is none.
    #[error("this is no number of a node")]
    Node,
    /// The file that a link reads has a comma in its name, by which the command line ends it.
    #[error("a comma stands in the name of this file, or in that of its folder")]
    Comma,
    /// One of the files of a control has a comma in its name.
    #[error("a comma stands in the name of one of these files, or in that of the folder")]
    CommaOfControl,
    /// Memory was refused.
    #[error("out of memory")]
    Memory,
}

impl From<AllocError> for LineFault {
    ghost use Rattle.std.specs.Prelude.{◌≡◌};
    ghost use Rattle.router_files.specs.declared.said.LineFault.TheVariants.{Memory};

    ghost from_gives = { λ _ fault. fault ≡ Memory };

    fn from(_: AllocError) -> LineFault {
        LineFault::Memory
    }
}

/// Whether a name says where a file is from the root on.
fn is_absolute(name: &str) -> bool
    ensures { result ≡ spec.is_absolute name.now }
{
    match name.as_bytes() {
        [b'/', ..] => true,
        _ => false,
    }
}

/// The path of a file that a name says, for a file in this folder.
fn path_of(alloc: Global, folder: &str, name: &str) -> Result<String, AllocError>
    ensures { IfOk result (λ path. string_bytes path ≡ spec.path_of folder.now name.now) }
{
    if is_absolute(name) {
        return String::from_str(alloc, name);
    }
    let mut path = String::from_str(alloc, folder)?;
    path.push_str(name)?;
    Ok(path)
}

/// Whether a word is the number of a node.
fn is_node(word: &str) -> bool
    ensures { result ≡ spec.is_node word.now }
{
    read_number(word.as_bytes(), NUMBER_LIMIT).is_some()
}

/// Whether a comma stands in a name.
fn has_comma(name: &str) -> bool
    ensures { result ≡ list_any spec.is_comma name.now }
{
    name.as_bytes().iter().any(|byte| *byte == b',')
}

/// Nothing.
fn given_said(option: RouterOption, values: &[&str]) -> Result<Said, LineFault>
    ensures { spec.IsSaid result (spec.given_said option (map (λ value. value.now) values.now)) }
{
    match values {
        [] => Ok(Said::Given),
        _ => Err(LineFault::Form(option)),
    }
}

/// The number that a word writes.
fn number_in(value: &str) -> Result<Said, LineFault>
    ensures { spec.IsSaid result (spec.number_of value.now) }
{
    match read_number(value.as_bytes(), u32::MAX) {
        Some(number) => Ok(Said::Number(number)),
        None => Err(LineFault::Number),
    }
}

/// A number alone.
fn number_said(option: RouterOption, values: &[&str]) -> Result<Said, LineFault>
    ensures { spec.IsSaid result (spec.number_said option (map (λ value. value.now) values.now)) }
{
    match values {
        [value] => number_in(value),
        _ => Err(LineFault::Form(option)),
    }
}

/// The name of a folder or file alone.
fn path_said(
    alloc: Global,
    folder: &str,
    option: RouterOption,
    values: &[&str],
) -> Result<Said, LineFault>
    ensures { spec.IsSaid result (spec.path_said folder.now option (map (λ value. value.now) values.now)) }
{
    match values {
        [name] => Ok(Said::Text(path_of(alloc, folder, name)?)),
        _ => Err(LineFault::Form(option)),
    }
}

/// A node, and what is said of it: as the command line has them.
fn joined(alloc: Global, node: &str, said: &str) -> Result<String, AllocError>
    ensures { IfOk result (λ text. string_bytes text ≡ spec.joined node.now said.now) }
{
    let mut text = String::from_str(alloc, node)?;
    text.push_str("=")?;
    text.push_str(said)?;
    Ok(text)
}

/// What is said of a node.
fn pair_in(alloc: Global, node: &str, said: &str) -> Result<Said, LineFault>
    ensures { spec.IsSaid result (spec.pair_of node.now said.now) }
{
    if !is_node(node) {
        return Err(LineFault::Node);
    }
    Ok(Said::Text(joined(alloc, node, said)?))
}

/// A node, and what is said of it.
fn pair_said(alloc: Global, option: RouterOption, values: &[&str]) -> Result<Said, LineFault>
    ensures { spec.IsSaid result (spec.pair_said option (map (λ value. value.now) values.now)) }
{
    match values {
        [node, said] => pair_in(alloc, node, said),
        _ => Err(LineFault::Form(option)),
    }
}

/// A filter's name, and the file of its text.
fn named_said(
    alloc: Global,
    folder: &str,
    option: RouterOption,
    values: &[&str],
) -> Result<Said, LineFault>
    ensures { spec.IsSaid result (spec.named_said folder.now option (map (λ value. value.now) values.now)) }
{
    match values {
        [name, file] => Ok(Said::Named {
            name: String::from_str(alloc, name)?,
            file: path_of(alloc, folder, file)?,
        }),
        _ => Err(LineFault::Form(option)),
    }
}

/// Two files, as the command line has them.
fn both(alloc: Global, input: &str, output: &str) -> Result<String, AllocError>
    ensures { IfOk result (λ text. string_bytes text ≡ spec.both input.now output.now) }
{
    let mut text = String::from_str(alloc, input)?;
    text.push_str(",")?;
    text.push_str(output)?;
    Ok(text)
}

/// The link to a node over two files, whose paths these are.
fn link_over(alloc: Global, node: &str, input: &str, output: &str) -> Result<Said, LineFault>
    ensures { spec.IsSaid result (spec.link_over node.now input.now output.now) }
{
    if has_comma(input) {
        return Err(LineFault::Comma);
    }
    let files = both(alloc, input, output)?;
    Ok(Said::Text(joined(alloc, node, files.as_str())?))
}

/// The link to a node over two files.
fn link_in(
    alloc: Global,
    folder: &str,
    node: &str,
    input: &str,
    output: &str,
) -> Result<Said, LineFault>
    ensures { spec.IsSaid result (spec.link_of folder.now node.now input.now output.now) }
{
    if !is_node(node) {
        return Err(LineFault::Node);
    }
    let input = path_of(alloc, folder, input)?;
    let output = path_of(alloc, folder, output)?;
    link_over(alloc, node, input.as_str(), output.as_str())
}

/// A node, and two files.
fn files_said(
    alloc: Global,
    folder: &str,
    option: RouterOption,
    values: &[&str],
) -> Result<Said, LineFault>
    ensures { spec.IsSaid result (spec.files_said folder.now option (map (λ value. value.now) values.now)) }
{
    match values {
        [node, input, output] => link_in(alloc, folder, node, input, output),
        _ => Err(LineFault::Form(option)),
    }
}

/// Two files of a control, whose paths these are, as the command line has them.
fn ends_over(alloc: Global, input: &str, output: &str) -> Result<String, LineFault>
    ensures { spec.IsText result (spec.ends_over input.now output.now) }
{
    if has_comma(input) || has_comma(output) {
        return Err(LineFault::CommaOfControl);
    }
    Ok(both(alloc, input, output)?)
}

/// Two files of a control.
fn ends_in(alloc: Global, folder: &str, input: &str, output: &str) -> Result<String, LineFault>
    ensures { spec.IsText result (spec.ends_of folder.now input.now output.now) }
{
    let input = path_of(alloc, folder, input)?;
    let output = path_of(alloc, folder, output)?;
    ends_over(alloc, input.as_str(), output.as_str())
}

/// Two files of a control whose operator may look alone, as the command line has them.
fn looking_in(alloc: Global, folder: &str, input: &str, output: &str) -> Result<Said, LineFault>
    ensures { spec.IsSaid result (spec.looking_of folder.now input.now output.now) }
{
    let mut text = ends_in(alloc, folder, input, output)?;
    text.push_str(",look")?;
    Ok(Said::Text(text))
}

/// Two files, and maybe that their operator may look alone.
fn ends_said(
    alloc: Global,
    folder: &str,
    option: RouterOption,
    values: &[&str],
) -> Result<Said, LineFault>
    ensures { spec.IsSaid result (spec.ends_said folder.now option (map (λ value. value.now) values.now)) }
{
    match values {
        [input, output] => Ok(Said::Text(ends_in(alloc, folder, input, output)?)),
        [input, output, right] if *right == "look" => looking_in(alloc, folder, input, output),
        _ => Err(LineFault::Form(option)),
    }
}

/// What these words say of an option, in a file of this folder.
pub(crate) fn said_of(
    alloc: Global,
    folder: &str,
    option: RouterOption,
    values: &[&str],
) -> Result<Said, LineFault>
    ensures { spec.IsSaid result (spec.said_of folder.now option (map (λ value. value.now) values.now)) }
{
    match option.shape() {
        Shape::Alone => given_said(option, values),
        Shape::Number => number_said(option, values),
        Shape::Path => path_said(alloc, folder, option, values),
        Shape::Pair => pair_said(alloc, option, values),
        Shape::Named => named_said(alloc, folder, option, values),
        Shape::Files => files_said(alloc, folder, option, values),
        Shape::Ends => ends_said(alloc, folder, option, values),
    }
}
