//! What holds of every file and of all bytes.
//!
//! **The printed code of a text is always within the limit of a line, and other code may be over it.** A code file has at most 989,449 bytes, more
//! than a line holds in hexadecimal, so the laws on printed code have that premise. The law `translations_fit_a_line` of `filter_reports` says that
//! each text's code meets it. A range takes 2 bytes of the text and 8 of the file, so a file has at most four times as many bytes as its text, and
//! 6,409 for the rest: 268,553 at most, as a text has at most 65,536.

ghost use Rattle.std.specs.Prelude.{◌≡◌, ◌∷◌, ◌++◌, ◌↔◌, ℕ, List, length, false, Ok, Err};
ghost use Rattle.filter_code.specs.CodeView.{CodeView};
ghost use Rattle.code_file.specs.declared.fault.FileFault.{FileFault as Fault};
ghost use Rattle.code_file.specs.declared.fault.FileFault.TheVariants.{BytesAfterEnd};
ghost use Rattle.code_file.specs.declared.version.Version.{Version};
ghost use Rattle.code_file.specs.declared.version.Version.TheVariants.{One};
ghost use Rattle.code_file.specs.Fields.{IsBytes};
ghost use Rattle.code_file.specs.Spelling.{spelling, spelling_in, needs_int_sets, IsCode, IsCodeIn, IsFile};
ghost use Rattle.code_file.specs.Fault.{IsFault};
ghost use Rattle.code_file.specs.Reading.{file_of};

/// Bytes have at most one fault, and the file of a code has none.
pub fn one_fault()
    ensures one { (bytes : List ℕ) (a b : Fault) → IsFault bytes a → IsFault bytes b → a ≡ b }
    ensures none { (v : Version) (code : CodeView) (found : Fault) → IsCodeIn v code → IsFault (spelling_in v code) found → ⊥ }
{}

/// No file begins another, of the same or of another version, and each is the file of one code.
pub fn one_file()
    ensures { (v w : Version) (a b : CodeView) (x y : List ℕ) → IsCodeIn v a → IsCodeIn w b →
        spelling_in v a ++ x ≡ spelling_in w b ++ y → (v ≡ w) × (a ≡ b) × (x ≡ y) }
{}

/// A code has a file with the mark `NCF1` exactly where it has one with the mark `NCF2`, and no set of ints and no INSET.
/// Both are read as the same code.
pub fn old_files()
    ensures has { (code : CodeView) → IsCodeIn One code ↔ (IsCode code × (needs_int_sets code ≡ false)) }
    ensures same { (code : CodeView) → IsCodeIn One code → file_of (spelling_in One code) ≡ file_of (spelling code) }
{}

/// Reading gives the code whose file the bytes are, or else their fault.
pub fn reading_is_exact()
    ensures code { (bytes : List ℕ) (code : CodeView) → IsBytes bytes →
        (file_of bytes ≡ Ok code) ↔ IsFile bytes code }
    ensures fault { (bytes : List ℕ) (found : Fault) → IsBytes bytes → (file_of bytes ≡ Err found) ↔ IsFault bytes found }
{}

/// The file of a code is read as that code. Bytes that follow it are a fault at the first of them.
pub fn written_is_read()
    ensures again { (v : Version) (code : CodeView) → IsCodeIn v code → file_of (spelling_in v code) ≡ Ok code }
    ensures more { (v : Version) (code : CodeView) (next : ℕ) (others : List ℕ) → IsCodeIn v code →
        file_of (spelling_in v code ++ next ∷ others) ≡ Err (BytesAfterEnd (length (spelling_in v code))) }
{}
