//! What is known of a clause that is marked.

ghost use Rattle.std.specs.Prelude.{◌≡◌};
ghost use Rattle.sc_mark.specs.Known.{truth_known};

use sc_interp::Truth;

/// The truth of a clause in tables. With False stands the number of an assignment that makes no literal true: the first,
/// when all were tried in their order.
#[derive(Clone, Copy, Debug, PartialEq, Eq)]
pub enum Known {
    True,
    False(u32),
    Wide,
}

/// The truth alone.
pub fn truth_of(known: Known) -> Truth
    ensures { result ≡ truth_known known }
{
    match known {
        Known::True => Truth::True,
        Known::False(_) => Truth::False,
        Known::Wide => Truth::Wide,
    }
}
