//! Where the filters of a script come from, and where they are used.
//!
//! **All filters that were verified are kept**, also one whose name another has now: links may use it still. A plan holds filters and no names, so
//! what uses which is noted here as the script says it.
ghost use Rattle.std.specs.Prelude.{◌≡◌, ◌++◌, ◌∷◌, [], IfOk, OnErr, OnOk, None, false, true};
ghost use Rattle.domain_cmds.specs.Origins as spec;

use filter_reports::list_text;
use filter_verifier::Verified;
use operator_cmds::{Direction, FilterSource};
use std::alloc::{AllocError, Global};
use std::marker::Model;
use std::sync::Arc;

/// A filter that got a name. A contract sees it as an `OriginView`.
#[derive(Drop)]
pub(crate) struct Origin {
    /// The name.
    pub(crate) name: Vec<u8>,
    /// The number of the line.
    pub(crate) line: u32,
    /// The text, where it was not given as code.
    pub(crate) text: Option<Vec<u8>>,
    /// The listing of its code.
    pub(crate) listing: Vec<u8>,
    /// The filter.
    pub(crate) filter: Arc<Verified>,
}

impl Model for Origin {
    ghost use Rattle.std.specs.Option.{option_map};
    ghost use Rattle.domain_cmds.specs.Origins.{OriginView};

    ghost Value = { OriginView };

    ghost view = { λ o. record {
      name = o.name.items;
      line = o.line;
      text = option_map (λ text. text.items) o.text;
      listing = o.listing.items;
      filter = o.filter.value;
    } };
}

/// That a node has what passes between it and another go through a filter.
#[derive(Clone, Copy)]
pub(crate) struct Use {
    /// Whether the node receives it, or tells it.
    direction: Direction,
    /// The node.
    u: u16,
    /// The other one.
    w: u16,
    /// The filter's place among all.
    place: usize,
}

/// All filters of a script, in the order of their lines, and their uses. A contract sees them as an `OriginsView`.
#[derive(Drop)]
pub(crate) struct Origins {
    all: Vec<Origin>,
    uses: Vec<Use>,
}

impl Model for Origins {
    ghost use Rattle.domain_cmds.specs.Origins.{OriginsView};

    ghost Value = { OriginsView };

    ghost view = { λ o. record { all = o.all.items; uses = o.uses.items } };
}

/// Whether two directions are the same.
fn is_same_way(a: Direction, b: Direction) -> bool
    ensures { result ≡ spec.is_same_way a b }
{
    match (a, b) {
        (Direction::Import, Direction::Import) | (Direction::Export, Direction::Export) => true,
        _ => false,
    }
}

/// Whether a filter is used there, in that direction.
fn is_use_of(direction: Direction, u: u16, w: u16, known: Use) -> bool
    ensures { result ≡ spec.is_use_of direction u w known }
{
    is_same_way(known.direction, direction) && known.u == u && known.w == w
}

/// The place of the filter that is used there.
fn used_in(uses: &[Use], direction: Direction, u: u16, w: u16) -> Option<usize>
    ensures { result ≡ spec.used_in uses.now direction u w }
{
    for known in uses {
        if is_use_of(direction, u, w, *known) {
            return Some(known.place);
        }
    }
    None
}

/// A filter is used there from now on, in place of the one that was.
fn put_use(uses: &mut Vec<Use>, new: Use) -> Result<(), AllocError>
    ensures ok { OnOk result (spec.PutsUse new uses.old.items uses.new.items) }
    ensures err { OnErr result (uses.new.items ≡ uses.old.items) }
{
    for it in 0..uses.len() {
        if is_use_of(new.direction, new.u, new.w, uses[it]) {
            uses[it] = new;
            return Ok(());
        }
    }
    uses.push(new)?;
    Ok(())
}

/// The place of the last filter that got a name.
fn last_named(all: &[Origin], name: &[u8]) -> Option<usize>
    ensures { result ≡ spec.last_named all.now name.now }
{
    let mut found = None;
    for place in 0..all.len() {
        let origin = &all[place];
        if origin.name.as_slice() == name {
            found = Some(place);
        }
    }
    found
}

/// The listing of a text, or of a code file in hexadecimal.
fn listing_in(alloc: Global, source: &[u8], is_code: bool) -> Result<Vec<u8>, AllocError>
    ensures { IfOk result (λ listing. spec.HasListing is_code source.now listing.items) }
{
    let listing = list_text(alloc, source, None, is_code)?;
    Ok(listing.text)
}

/// The listing of a source that gives code.
fn listing_of(alloc: Global, source: FilterSource<'_>) -> Result<Vec<u8>, AllocError>
    ensures { IfOk result (λ listing. spec.IsListingOf source.entry listing.items) }
{
    match source {
        FilterSource::Text(text) => listing_in(alloc, text, false),
        FilterSource::File(bytes) => {
            let digits = hex::encode(alloc, bytes)?;
            listing_in(alloc, digits.as_bytes(), true)
        }
    }
}

impl Origins {
    /// No filters.
    pub(crate) fn new(alloc: Global) -> Origins
        ensures { result ≡ record { all = []; uses = [] } }
    {
        Origins {
            all: Vec::new(alloc),
            uses: Vec::new(alloc),
        }
    }

    /// All filters.
    pub(crate) fn all(&self) -> &[Origin]
        ensures { result.now ≡ self.now.all }
    {
        self.all.as_slice()
    }

    /// A filter got a name.
    pub(crate) fn note(
        &mut self,
        alloc: Global,
        line: u32,
        name: &[u8],
        source: FilterSource<'_>,
        filter: Arc<Verified>,
    ) -> Result<(), AllocError>
        ensures ok { OnOk result (spec.Notes line name.now source.entry filter.value self.old self.new) }
        ensures err { OnErr result (self.new ≡ self.old) }
    {
        let text = match source {
            FilterSource::Text(text) => Some(Vec::from_slice(alloc, text)?),
            FilterSource::File(_) => None,
        };
        let origin = Origin {
            name: Vec::from_slice(alloc, name)?,
            line,
            text,
            listing: listing_of(alloc, source)?,
            filter,
        };
        self.all.push(origin)?;
        Ok(())
    }

    /// A node has what passes between it and another go through the filter that has a name now.
    pub(crate) fn note_use(
        &mut self,
        direction: Direction,
        u: u16,
        w: u16,
        name: &[u8],
    ) -> Result<(), AllocError>
        ensures ok { OnOk result (spec.NotesUse direction u w (spec.last_named self.old.all name.now) self.old self.new) }
        ensures err { OnErr result (self.new ≡ self.old) }
    {
        match last_named(self.all.as_slice(), name) {
            Some(place) => put_use(
                &mut self.uses,
                Use {
                    direction,
                    u,
                    w,
                    place,
                },
            ),
            None => Ok(()),
        }
    }

    /// The place of the filter through which a node has go what passes between it and another, if there is one.
    pub(crate) fn used(&self, direction: Direction, u: u16, w: u16) -> Option<usize>
        ensures { result ≡ spec.used_in self.now.uses direction u w }
    {
        used_in(self.uses.as_slice(), direction, u, w)
    }
}
