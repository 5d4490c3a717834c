//! The bytes of a word, where they stand.

ghost use Rattle.std.specs.Prelude.{◌≡◌};

use std::marker::Model;

/// The bytes of a word in the text that it is read from. Contracts see the list of them.
#[derive(Debug, Drop)]
pub struct Lexeme<'a> {
    bytes: &'a [u8],
}

impl<'a> Model for Lexeme<'a> {
    ghost use Rattle.std.specs.Prelude.{List, ℕ};
    ghost use Rattle.std.specs.Coded.{coded_list, coded_ℕ};

    ghost Value = { List ℕ };

    ghost coded = { coded_list coded_ℕ };

    ghost view = { λ l. l.bytes.now };
}

impl<'a> Lexeme<'a> {
    pub fn new(bytes: &'a [u8]) -> Lexeme<'a>
        ensures { result ≡ bytes.now }
    {
        Lexeme { bytes }
    }

    pub fn as_slice(&self) -> &'a [u8]
        ensures { result.now ≡ self.now }
    {
        self.bytes
    }
}
