//! What each defined name is defined as.
//!
//! **Definitions are looked up in a `BTreeMap`**, which is made once for a configuration: no number of definitions and no choice of their names makes
//! it slow to find one.
ghost use Rattle.std.specs.Prelude.{◌≡◌, ◌+◌, List, ℕ, IfOk, OnOk, Some, if◌then◌else◌, length, slice_get};
ghost use Rattle.std.specs.Str.{bytes_eq};
ghost use Rattle.bird_import.specs.Names.{Knows, KnowsAll, found_of};
ghost use Rattle.bird_import.specs.Stuck.{IsFound};

use crate::config::Config;
use crate::defines::{NameDefinition, found_again};
use crate::items::Definition;
use crate::word::{bytes_at, is_name_at};
use std::alloc::{AllocError, Global};
use std::collections::BTreeMap;

/// What is found of each name that has a definition.
pub type Names = BTreeMap<Vec<u8>, NameDefinition>;

/// What is found of a name so far.
fn found_in(names: &Names, name: &[u8]) -> NameDefinition
    ensures { result ≡ found_of names.now name.now }
{
    match names.get(name) {
        Some(found) => *found,
        None => NameDefinition::Never,
    }
}

/// Notes what is found of a name.
fn note(
    alloc: Global,
    names: &mut Names,
    name: &[u8],
    found: NameDefinition,
) -> Result<(), AllocError>
    ensures { OnOk result ((other : List ℕ) → found_of names.new other ≡ (if bytes_eq name.now other then found else found_of names.old other)) }
{
    names.insert(Vec::from_slice(alloc, name)?, found)?;
    Ok(())
}

/// Notes one definition more.
#[tactic(auto, using(crate::proofs::Noted::knows_on))]
fn note_definition(
    alloc: Global,
    config: &Config<'_>,
    names: &mut Names,
    definition: Definition,
) -> Result<(), AllocError>
    ensures { OnOk result ((n : ℕ) → slice_get config.now.definitions.now n ≡ Some definition → Knows config.now n names.old
        → Knows config.now (n + 1) names.new) }
{
    if !is_name_at(config.words, definition.name) {
        return Ok(());
    }
    let name = bytes_at(config.words, definition.name);
    let found = found_again(found_in(names, name), definition);
    note(alloc, names, name, found)?;
    Ok(())
}

/// What is found of each name among the definitions of a configuration.
pub(crate) fn names_of(alloc: Global, config: &Config<'_>) -> Result<Names, AllocError>
    ensures { IfOk result (KnowsAll config.now) }
{
    let mut names = BTreeMap::new(alloc);
    for definition in config.definitions {
        note_definition(alloc, config, &mut names, *definition)?;
    }
    Ok(names)
}

/// The definition of a name.
pub(crate) fn look_up(config: &Config<'_>, names: &Names, name: &[u8]) -> NameDefinition
    requires { KnowsAll config.now names.now }
    ensures { IsFound config.now name.now (length config.now.definitions.now) result }
{
    if config.definitions.is_empty() {
        return NameDefinition::Never;
    }
    found_in(names, name)
}
