//! Objects of JSON, member after member.
//!
//! **Whether memory was wanting is asked at the end alone.** Whoever asks after each member lets go of all that was made so far wherever the answer may
//! be no. Here the builder keeps the answer, so that its caller has no such place.
ghost use Rattle.std.specs.Prelude.{◌≡◌, IfOk};
ghost use Rattle.serde_json.specs.Data.{Data, Members, no_members, object, put as with_member};
ghost use Rattle.serde_json.specs.View.{members_view, view};
ghost use Rattle.report_formats.specs.Members.{HoldsMembers};

use serde_json::{Map, Value, put};
use std::alloc::{AllocError, Global};

/// An object to which members are added, or that memory was wanting.
#[derive(Drop)]
pub struct ObjectBuilder {
    alloc: Global,
    members: Result<Map<String, Value>, AllocError>,
}

/// Members with one more, if there is memory for all.
fn with_member(
    alloc: Global,
    members: Result<Map<String, Value>, AllocError>,
    name: &str,
    value: Result<Value, AllocError>,
) -> Result<Map<String, Value>, AllocError>
    ensures { (held : Members) (said : Data) → IfOk members (λ m. members_view m.entries ≡ held) → IfOk value (λ v. view v ≡ said)
        → IfOk result (λ m. members_view m.entries ≡ with_member name.now said held) }
{
    let mut members = members?;
    put(&mut members, alloc, name, value?)?;
    Ok(members)
}

impl ObjectBuilder {
    /// An object without members.
    pub fn new(alloc: Global) -> Self
        ensures { HoldsMembers result no_members }
    {
        ObjectBuilder {
            alloc,
            members: Ok(Map::new(alloc)),
        }
    }

    /// The object with this member, in place of an earlier one of its name.
    pub fn member(self, name: &str, value: Value) -> Self
        ensures { (held : Members) (said : Data) → HoldsMembers self held → view value ≡ said → HoldsMembers result (with_member name.now said held) }
    {
        self.try_member(name, Ok(value))
    }

    /// The same with a value for which memory may have been wanting.
    pub fn try_member(self, name: &str, value: Result<Value, AllocError>) -> Self
        ensures { (held : Members) (said : Data) → HoldsMembers self held → IfOk value (λ v. view v ≡ said)
            → HoldsMembers result (with_member name.now said held) }
    {
        let alloc = self.alloc;
        ObjectBuilder {
            alloc,
            members: with_member(alloc, self.members, name, value),
        }
    }

    /// The object, if there was memory for all of it.
    pub fn finish(self) -> Result<Value, AllocError>
        ensures { (held : Members) → HoldsMembers self held → IfOk result (λ value. view value ≡ object held) }
    {
        Ok(Value::Object(self.members?))
    }
}
