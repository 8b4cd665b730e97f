//! Names in the tree.
//!
//! **A short name stands in the tree itself.** A name that is read or assigned takes a block of memory only where it has more than 14 bytes. A
//! contract sees the bytes alone, wherever they are.

ghost use Rattle.std.specs.Prelude.{◌≡◌, IfOk};

use std::alloc::{AllocError, Global};
use std::marker::Model;

/// How long a name may be that stands in the tree itself.
const SHORT: usize = 14;

/// Where the bytes of a name stand.
#[derive(Drop)]
pub(crate) enum Letters {
    /// Here, so many of these.
    Here(u8, [u8; SHORT]),
    /// In a block of memory.
    There(Vec<u8>),
}

/// The name of a variable. A short one stands in the tree itself, so that the tree of most texts takes no memory for names.
///
/// A contract sees its bytes.
#[derive(Drop)]
pub struct Name {
    letters: Letters,
}

impl Model for Name {
    ghost use Rattle.std.specs.Prelude.{ℕ, List};
    ghost use Rattle.filter_syntax.specs.Names.{AreLetters, letters_of};

    ghost Value = { List ℕ };

    ghost view = { λ n. letters_of n.letters };

    ghost invariant = { λ n. AreLetters n.letters };
}

impl Name {
    /// A name of these bytes.
    pub fn from_slice(alloc: Global, text: &[u8]) -> Result<Name, AllocError>
        ensures { IfOk result (λ name. name ≡ text.now) }
    {
        if text.len() > SHORT {
            return Ok(Name {
                letters: Letters::There(Vec::from_slice(alloc, text)?),
            });
        }
        let mut bytes = [0; SHORT];
        for (at, byte) in text.iter().enumerate() {
            bytes[at] = *byte;
        }
        Ok(Name {
            letters: Letters::Here(text.len() as u8, bytes),
        })
    }

    /// The bytes of the name.
    pub fn as_slice(&self) -> &[u8]
        ensures { result.now ≡ self.now }
    {
        match &self.letters {
            Letters::Here(length, bytes) => &bytes[..usize::from(*length)],
            Letters::There(bytes) => bytes.as_slice(),
        }
    }
}
