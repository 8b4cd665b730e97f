ghost use Rattle.std.specs.Prelude.{◌<◌, ◌≤◌, ◌^◌, ℕ, Bool, List, Some, length};
ghost use Rattle.prefix_patterns.specs.Bits.{address_length};
ghost use Rattle.prefix_patterns.specs.Spelling.{address_text, prefix_text};
ghost use Rattle.prefix_patterns.specs.Token.{IsAddress, IsPrefix};

use crate::address::Ip;
use crate::prefix::Prefix;
use std::fmt;

impl fmt::Display for Ip {
    ghost output = { λ ip. Some (address_text ip.0) };

    fn fmt<W: fmt::Write>(&self, f: &mut fmt::Formatter<W>) -> fmt::Result {
        let [first, second, third, fourth] = self.0.to_be_bytes();
        write!(f, "{first}.{second}.{third}.{fourth}")
    }
}

impl fmt::Display for Prefix {
    ghost output = { λ prefix. Some (prefix_text prefix) };

    fn fmt<W: fmt::Write>(&self, f: &mut fmt::Formatter<W>) -> fmt::Result {
        let address = self.address();
        let len = self.len();
        write!(f, "{address}/{len}")
    }
}

/// A displayed address or prefix reads back as itself.
pub fn displayed_text_is_read()
    ensures address { (address : ℕ) → address < 2 ^ address_length → IsAddress (address_text address) address }
    ensures prefix { (prefix : List Bool) → length prefix ≤ address_length → IsPrefix (prefix_text prefix) prefix }
{}
