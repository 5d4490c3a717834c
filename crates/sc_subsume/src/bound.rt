//! Variables bound to terms, in the order in which they were bound.

ghost use Rattle.std.specs.Prelude.{◌≡◌};
ghost use Rattle.std.specs.Option.{option_copied};
ghost use Rattle.sc_unify.specs.Bindings.{lookup};
ghost use Rattle.sc_subsume.specs.Search.{bindings};

use sc_term::Term;

/// A variable and the term that it was given, whose own variables are constants.
#[derive(Clone, Copy)]
pub struct Bound<'a> {
    pub variable: u32,
    pub term: &'a Term,
}

/// The term that the variable was given.
pub fn find<'a>(bound: &[Bound<'a>], variable: u32) -> Option<&'a Term>
    ensures { option_copied result ≡ lookup (bindings bound.now) variable }
{
    for one in bound {
        if one.variable == variable {
            return Some(one.term);
        }
    }
    None
}
