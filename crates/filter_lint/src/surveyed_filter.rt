//! A filter's text, the code that it was compiled to, and what the verifier knows of the code.
ghost use Rattle.std.specs.Prelude.{◌≡◌, ◌==◌, slice_get};
ghost use Rattle.std.specs.List.{list_any};
ghost use Rattle.std.specs.Option.{option_map};
ghost use Rattle.filter_verifier.specs.Sweep.{in_state_view};
ghost use Rattle.filter_lint.specs.SurveyedFilters as spec;

use filter_code::{Code, Instr};
use filter_verifier::{InState, Survey};
use prefix_patterns::PatternSet;
use std::marker::Model;

/// A filter's text, its code, for each instruction the byte of the text that it comes from, and what the verifier knows before the
/// instructions in domains of a size.
///
/// A contract sees it as a `SurveyedFilterView`.
#[derive(Drop)]
pub(crate) struct SurveyedFilter<'a> {
    text: &'a [u8],
    code: &'a Code,
    places: &'a [usize],
    size: u32,
    survey: &'a Survey,
}

impl<'a> Model for SurveyedFilter<'a> {
    ghost use Rattle.filter_lint.specs.SurveyedFilters.{AreKnown, SurveyedFilterView};

    ghost Value = { SurveyedFilterView };

    ghost view = { λ s. record { text = s.text.now; program = s.code.now; places = s.places.now; size = s.size } };

    ghost invariant = { λ s. AreKnown s.code.now s.size s.survey.now.in_states.items };
}

/// Whether some place is this byte.
fn has(places: &[usize], byte: usize) -> bool
    ensures { result ≡ list_any (λ place. place == byte) places.now }
{
    places.iter().any(|place| *place == byte)
}

impl<'a> SurveyedFilter<'a> {
    /// A view of a filter; `survey` must be the survey of `code`.
    pub(crate) fn new(
        text: &'a [u8],
        code: &'a Code,
        places: &'a [usize],
        size: u32,
        survey: &'a Survey,
    ) -> SurveyedFilter<'a>
        requires { spec.AreKnown code.now size survey.now.in_states.items }
        ensures { result ≡ record { text = text.now; program = code.now; places = places.now; size = size } }
    {
        SurveyedFilter {
            text,
            code,
            places,
            size,
            survey,
        }
    }

    /// The text.
    pub(crate) fn text(&self) -> &'a [u8]
        ensures { result.now ≡ self.now.text }
    {
        self.text
    }

    /// The code.
    pub(crate) fn code(&self) -> &'a Code
        ensures { result.now ≡ self.now.program }
    {
        self.code
    }

    /// The size of the domains.
    pub(crate) fn size(&self) -> u32
        ensures { result ≡ self.now.size }
    {
        self.size
    }

    /// The instructions.
    pub(crate) fn instrs(&self) -> &'a [Instr]
        ensures { result.now ≡ self.now.program.instrs }
    {
        self.code.instrs()
    }

    /// The sets of patterns.
    pub(crate) fn sets(&self) -> &'a [PatternSet]
        ensures { result.now ≡ self.now.program.sets }
    {
        self.code.sets()
    }

    /// The instruction of an index.
    pub(crate) fn instr(&self, at: usize) -> Option<Instr>
        ensures { result ≡ slice_get self.now.program.instrs at }
    {
        self.instrs().get(at).copied()
    }

    /// The byte of the text that the instruction of an index comes from.
    pub(crate) fn place(&self, at: usize) -> Option<usize>
        ensures { result ≡ slice_get self.now.places at }
    {
        self.places.get(at).copied()
    }

    /// Whether no instruction before an index comes from this byte.
    pub(crate) fn is_first(&self, at: usize, byte: usize) -> bool
        ensures { result ≡ spec.is_first self.now.places at byte }
    {
        let (before, _) = self.places.split_at(at.min(self.places.len()));
        !has(before, byte)
    }

    /// What the verifier knows before the instruction of an index, if it comes so far.
    pub(crate) fn known(&self, at: usize) -> Option<&InState>
        ensures { option_map (λ state. in_state_view state.now) result ≡ spec.known_at self.now at }
    {
        self.survey.in_states.as_slice().get(at)
    }
}
