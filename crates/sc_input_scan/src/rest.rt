//! The tokens that are left.

ghost use Rattle.std.specs.Prelude.{◌≡◌};

use sc_input_rules::Token;
use std::marker::Model;

/// The tokens that a loop has left to read, which contracts see as the list of them. A loop may set such a value anew,
/// and not a bare slice of what borrows, which the borrow checker doesn't follow where the branches of a loop join.
#[derive(Drop)]
pub struct Rest<'t, 'a> {
    tokens: &'t [Token<'a>],
}

impl<'t, 'a> Model for Rest<'t, 'a> {
    ghost use Rattle.std.specs.Prelude.{List};
    ghost use Rattle.sc_input_rules.specs.declared.token.Token.{Token};

    ghost Value = { List Token };

    ghost view = { λ r. r.tokens.now };
}

impl<'t, 'a> Rest<'t, 'a> {
    pub fn new(tokens: &'t [Token<'a>]) -> Rest<'t, 'a>
        ensures { result ≡ tokens.now }
    {
        Rest { tokens }
    }

    pub fn tokens(&self) -> &'t [Token<'a>]
        ensures { result.now ≡ self.now }
    {
        self.tokens
    }
}
