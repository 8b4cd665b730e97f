//! A page of the table, and how it is found.
ghost use Rattle.std.specs.Prelude.{ℕ, List};
ghost use Rattle.refusal_texts.specs.Codes.{ArePages, IsSaidOf};

/// What is said of one code.
#[derive(Clone, Copy, Drop)]
pub struct Page {
    /// The code, as `P2`.
    pub code: &'static str,
    /// What it means, where its place is, an example that earns it, and how to mend that.
    pub text: &'static str,
}

/// The text of the first page of a code.
pub(crate) fn text_of(pages: &[Page], code: &str) -> Option<&'static str>
    ensures { (known : List (List ℕ)) → ArePages known pages.now → IsSaidOf known code.now result }
{
    for page in pages {
        if page.code == code {
            return Some(page.text);
        }
    }
    None
}
