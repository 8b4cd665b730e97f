//! A domain as its file sets it up, and why a text is not such a file.

use domain_cmds::Planning;
use domain_routes::Plan;
use operator_cmds::{Direction, NamedFilters, RefusedLine};
use std::alloc::AllocError;
use std::marker::Model;

/// That what passes between two nodes goes through the filter of a name.
#[derive(Drop)]
pub(crate) struct NamedUse {
    /// What the first node receives from the second, or what it tells it.
    pub(crate) direction: Direction,
    /// The first node.
    pub(crate) u: u16,
    /// The second.
    pub(crate) w: u16,
    /// The name.
    pub(crate) name: Vec<u8>,
}

/// A domain as its file sets it up. A contract sees it as a `FileView`.
#[derive(Drop)]
pub struct DomainFile {
    /// The domain.
    pub(crate) planning: Planning,
    /// The uses of its filters, in the order of their lines. Of two of one direction between the same nodes the later one counts.
    pub(crate) uses: Vec<NamedUse>,
}

impl Model for DomainFile {
    ghost use Rattle.std.specs.Prelude.{map};
    ghost use Rattle.domain_files.specs.FileView.{FileView, use_of};

    ghost Value = { FileView };

    ghost view = { λ f. record { planning = f.planning; uses = map use_of f.uses.items } };
}

impl DomainFile {
    ghost use Rattle.std.specs.Prelude.{◌≡◌, map};
    ghost use Rattle.domain_files.specs.FileView.{use_of};

    /// The domain.
    pub fn plan(&self) -> &Plan
        ensures { result.now ≡ self.now.planning.plan }
    {
        self.planning.plan()
    }

    /// The filters that have names.
    pub fn filters(&self) -> &NamedFilters
        ensures { result.now.entries ≡ self.now.planning.filters }
    {
        self.planning.filters()
    }

    /// The filters that have names, where no more is asked of the file.
    pub fn into_filters(self) -> NamedFilters
        ensures { result.entries ≡ self.planning.filters }
    {
        self.planning.into_filters()
    }

    /// The uses of its filters.
    pub(crate) fn uses(&self) -> &[NamedUse]
        ensures { map use_of result.now ≡ self.now.uses }
    {
        self.uses.as_slice()
    }
}

/// A line of a domain's file that is refused.
#[derive(Drop)]
pub struct WrongLine {
    /// Its number, from 1.
    pub number: u32,
    /// The line.
    pub line: Vec<u8>,
    /// The answer that refuses it.
    pub answer: Vec<u8>,
    /// What the lines before it set up.
    pub before: Option<DomainFile>,
}

impl WrongLine {
    ghost use Rattle.std.specs.Prelude.{◌≡◌};

    /// The line as those see it who tell people why a line of a script is refused.
    pub fn shown(&self) -> RefusedLine<'_>
        ensures number { result.number ≡ self.now.number }
        ensures line { result.line.now ≡ self.now.line.items }
        ensures answer { result.answer.now ≡ self.now.answer.items }
    {
        let planning = self.before.as_ref().map(|file| &file.planning);
        RefusedLine {
            number: self.number,
            line: self.line.as_slice(),
            answer: self.answer.as_slice(),
            size: planning.map(|planning| planning.size()),
            filters: planning.map(|planning| planning.filters()),
            diagnosis: planning.and_then(|planning| planning.diagnosis()),
        }
    }
}

/// Why a text is not the file of a domain.
#[derive(Drop)]
pub enum WrongFile {
    /// This line is refused.
    Refused(WrongLine),
    /// The line of this number gives a name to a filter that another one has.
    NameAgain(u32),
    /// No line says `domain`.
    NoDomain,
    /// Memory was refused.
    Memory,
}

impl From<AllocError> for WrongFile {
    ghost use Rattle.std.specs.Prelude.{◌≡◌};
    ghost use Rattle.domain_files.specs.declared.file.WrongFile.TheVariants.{Memory};

    ghost from_gives = { λ _ why. why ≡ Memory };

    fn from(_: AllocError) -> WrongFile {
        WrongFile::Memory
    }
}
