//! A configuration that is read, with the places of its bytes at hand, and what is told at places of it of a filter that is taken.
//!
//! **`ncimport` warns of members of a set that overlap, as `ncroute lint` does.** BIRD looks a number up in a tree of the ranges of a set, and misses some where
//! two of them share one. Both read such a set, and no other row tells of it. `ncroute lint` finds these members in the text that was written; here each is
//! told at the place of the configuration that it comes from.
ghost use Rattle.std.specs.Prelude.{◌≡◌, ◌++◌, IfOk, OnOk, flat_map, map, slice_get};
ghost use Rattle.ncimport.specs.Noting.{note_line, notes_text, place_from};
ghost use Rattle.ncimport.specs.Places.{config_of, file_of, place_in, texts_of};

use crate::including::{ConfigFile, Whole, stretch_of};
use bird_import::{Conversion, Origin, origin_of};
use filter_lint::{Warning, overlap_warnings, push_warning_words};
use filter_reports::PlacedCode;
use program_console::name_of;
use refusal_words::{Positions, push_position, push_shown};
use std::alloc::{AllocError, Global};
use std::marker::Model;

/// A configuration that is read. A line and a column of a file are not counted from its first byte each time that they are told, since a
/// configuration may have thousands of filters. A contract sees it as a `ConfigView`.
#[derive(Drop)]
pub struct PlacedConfig<'a> {
    whole: &'a Whole,
    /// The positions of each file, in order.
    positions: Vec<Positions<'a>>,
}

impl<'a> Model for PlacedConfig<'a> {
    ghost use Rattle.std.specs.Prelude.{◌≡◌};
    ghost use Rattle.ncimport.specs.Places.{ConfigView, config_of, texts_of};

    ghost Value = { ConfigView };

    ghost view = { λ config. config_of config.whole.now };

    ghost invariant = { λ config. config.positions.items ≡ texts_of (config_of config.whole.now).files };
}

/// The positions of files.
fn positions_of(alloc: Global, files: &[ConfigFile]) -> Result<Vec<Positions<'_>>, AllocError>
    ensures { IfOk result (λ all. all.items ≡ texts_of (map file_of files.now)) }
{
    let mut all = Vec::with_capacity(alloc, files.len())?;
    for file in files {
        all.push(Positions::new(alloc, file.text.as_slice())?)?;
    }
    Ok(all)
}

impl<'a> PlacedConfig<'a> {
    ghost use Rattle.ncimport.specs.Places.{place_of};

    /// A configuration that does not change any more.
    pub fn new(alloc: Global, whole: &'a Whole) -> Result<PlacedConfig<'a>, AllocError>
        ensures { IfOk result (λ config. config ≡ config_of whole.now) }
    {
        let positions = positions_of(alloc, whole.files.as_slice())?;
        Ok(PlacedConfig { whole, positions })
    }

    /// Puts the name of a file, and the line and the column of a byte of it, at the end of `out`, if there is such a file.
    fn push_file_place(
        &self,
        alloc: Global,
        out: &mut Vec<u8>,
        index: usize,
        at: usize,
    ) -> Result<(), AllocError>
        ensures { OnOk result (out.new.items ≡ out.old.items ++ place_in (slice_get self.now.files index) at) }
    {
        match (self.whole.files.get(index), self.positions.get(index)) {
            (Some(file), Some(positions)) => {
                let position = positions.of(at);
                push_shown(alloc, out, name_of(&file.source))?;
                push_position(out, position.line, position.column)
            }
            _ => Ok(()),
        }
    }

    /// Puts the file, the line and the column of a byte of the configuration at the end of `out`.
    pub fn push_place(
        &self,
        alloc: Global,
        out: &mut Vec<u8>,
        byte: usize,
    ) -> Result<(), AllocError>
        ensures { OnOk result (out.new.items ≡ out.old.items ++ place_of self.now byte) }
    {
        match stretch_of(self.whole, byte) {
            Some(stretch) => {
                let at = stretch.at.saturating_add(byte.saturating_sub(stretch.from));
                self.push_file_place(alloc, out, stretch.file, at)
            }
            None => Ok(()),
        }
    }
}

/// The place of a configuration from which a byte of a filter's text comes; that of the filter if there is none.
pub(crate) fn place_from(origins: &[Origin], byte: Option<usize>, filter: usize) -> usize
    ensures { result ≡ place_from origins.now filter byte }
{
    match byte {
        Some(byte) => origin_of(origins, byte).unwrap_or(filter),
        None => filter,
    }
}

/// Puts the line of a warning at the end of `out`.
fn push_note(
    alloc: Global,
    out: &mut Vec<u8>,
    placed: &PlacedConfig<'_>,
    conversion: &Conversion<'_>,
    origins: &[Origin],
    code: &PlacedCode,
    warning: &Warning,
) -> Result<(), AllocError>
    ensures { OnOk result (out.new.items ≡ out.old.items
        ++ note_line placed.now conversion.now.name.now conversion.now.at origins.now code.now.verified.program.sets warning.now) }
{
    let at = place_from(origins, Some(warning.byte), conversion.at);
    placed.push_place(alloc, out, at)?;
    out.extend_from_slice(b" filter ")?;
    push_shown(alloc, out, conversion.name)?;
    out.extend_from_slice(b": ")?;
    push_warning_words(alloc, out, code.verified.code().sets(), &warning.cause)?;
    out.push(b'\n')?;
    Ok(())
}

/// Puts the lines of warnings at the end of `out`.
fn push_notes(
    alloc: Global,
    out: &mut Vec<u8>,
    placed: &PlacedConfig<'_>,
    conversion: &Conversion<'_>,
    origins: &[Origin],
    code: &PlacedCode,
    warnings: &[Warning],
) -> Result<(), AllocError>
    ensures { OnOk result (out.new.items ≡ out.old.items ++ flat_map
        (note_line placed.now conversion.now.name.now conversion.now.at origins.now code.now.verified.program.sets) warnings.now) }
{
    for warning in warnings {
        push_note(alloc, out, placed, conversion, origins, code, warning)?;
    }
    Ok(())
}

/// The lines of what is said of a filter whose text has this verified code.
pub(crate) fn notes_of(
    alloc: Global,
    placed: &PlacedConfig<'_>,
    conversion: &Conversion<'_>,
    text: &[u8],
    origins: &[Origin],
    code: &PlacedCode,
) -> Result<Vec<u8>, AllocError>
    ensures { IfOk result (λ notes. notes.items ≡ notes_text placed.now conversion.now.name.now conversion.now.at text.now origins.now
        code.now.verified code.now.places.items) }
{
    let warnings = overlap_warnings(alloc, text, code)?;
    let mut notes = Vec::new(alloc);
    push_notes(
        alloc,
        &mut notes,
        placed,
        conversion,
        origins,
        code,
        warnings.as_slice(),
    )?;
    Ok(notes)
}
