//! The two forms of a code file.
//!
//! **What is written is the newer form of the code file.** `check`, histories and `history` lines have one spelling for each code, `NCF2`, also
//! where the code came from an `NCF1` file. `rewrite --old` gives the older form, for programs that read that alone. A text that tells a history
//! with `NCF1` files is refused (H1): each history has one text.

ghost use Rattle.std.specs.Prelude.{◌≡◌};
ghost use Rattle.code_file.specs.Fields.{version_byte, version_of, has_int_sets};

/// A version of the format. The last byte of the mark tells it.
#[derive(Clone, Copy, PartialEq, Eq)]
pub enum Version {
    /// The mark is `NCF1`. Such a file has no sets of ints, and no INSET.
    One,
    /// The mark is `NCF2`.
    Two,
}

impl Version {
    /// The last byte of the mark.
    pub fn byte(self) -> u8
        ensures { result ≡ version_byte self }
    {
        match self {
            Version::One => b'1',
            Version::Two => b'2',
        }
    }

    /// The version whose mark ends in this byte.
    pub fn of(byte: u8) -> Option<Version>
        ensures { result ≡ version_of byte }
    {
        match byte {
            b'1' => Some(Version::One),
            b'2' => Some(Version::Two),
            _ => None,
        }
    }

    /// Whether files of the version have sets of ints.
    pub fn has_int_sets(self) -> bool
        ensures { result ≡ has_int_sets self }
    {
        match self {
            Version::One => false,
            Version::Two => true,
        }
    }
}
