//! The filters that were put in force under names.
//!
//! **A filter has no name of its own.** Each operator gives names, and what is known here is the name that a filter had for whoever put it in force.
//! The filter itself is kept beside it, so that a name is told of the filter alone that it was given to.

use filter_verifier::Verified;
use operator_cmds::Direction;
use router_status::NamedFilter;
use std::alloc::{AllocError, Global};
use std::sync::{Arc, Mutex, Wait};

/// What was put in force last in a direction of a link.
type Place = Mutex<Option<NamedFilter>>;

/// The filters that were put in force last under names, for each direction of each link.
#[derive(Drop)]
pub(crate) struct FilterNames {
    alloc: Global,
    imports: Vec<Place>,
    exports: Vec<Place>,
}

/// So many places at which nothing was put in force yet.
fn places_of(alloc: Global, links: usize) -> Result<Vec<Place>, AllocError> {
    let mut places = Vec::with_capacity(alloc, links)?;
    for _ in 0..links {
        places.push(Mutex::new(None))?;
    }
    Ok(places)
}

/// A filter with a name.
fn named(alloc: Global, name: &str, filter: &Arc<Verified>) -> Result<NamedFilter, AllocError> {
    Ok(NamedFilter {
        name: String::from_str(alloc, name)?,
        filter: Arc::try_clone(filter)?,
    })
}

impl FilterNames {
    /// Those of so many links.
    pub(crate) fn new(alloc: Global, links: usize) -> Result<FilterNames, AllocError> {
        Ok(FilterNames {
            alloc,
            imports: places_of(alloc, links)?,
            exports: places_of(alloc, links)?,
        })
    }

    /// The place for a direction of a link.
    fn place(&self, direction: Direction, link: usize) -> Option<&Place> {
        match direction {
            Direction::Import => self.imports.get(link),
            Direction::Export => self.exports.get(link),
        }
    }

    /// A filter was put in force under a name. Without memory for it the filter has none.
    pub(crate) fn note<R: Wait>(
        &self,
        rt: &R,
        direction: Direction,
        link: usize,
        name: &str,
        filter: &Arc<Verified>,
    ) {
        let put = named(self.alloc, name, filter).ok();
        if let Some(place) = self.place(direction, link) {
            *place.lock(rt) = put;
        }
    }

    /// The filter that was put in force last under a name in a direction of a link, if one was.
    pub(crate) fn look<R: Wait>(
        &self,
        rt: &R,
        alloc: Global,
        direction: Direction,
        link: usize,
    ) -> Result<Option<NamedFilter>, AllocError> {
        let Some(place) = self.place(direction, link) else {
            return Ok(None);
        };
        let found = place.lock(rt);
        match &*found {
            Some(found) => Ok(Some(named(alloc, found.name.as_str(), &found.filter)?)),
            None => Ok(None),
        }
    }
}
