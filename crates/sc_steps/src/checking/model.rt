//! Interpretations, none of which makes refuted clauses all true.

ghost use Rattle.std.specs.Prelude.{◌≡◌, ℕ, ◌↔◌, List as AList, [], ◌∷◌, Bool, All, IsTrue};
ghost use Rattle.sc_term.specs.declared.SymId.{SymId as ASymbol};
ghost use Rattle.sc_term.specs.Refuted.{IsRefuted, equals};
ghost use Rattle.sc_steps.specs.Model.{IsModel};

use sc_term::{Clause, List};

/// What symbols mean over a set of whole numbers that isn't empty. It has meanings alone, and no call.
pub trait Interpretation {
    /// Which whole numbers are elements.
    ghost is_element: { Self → ℕ → Type 0 };

    /// One element.
    ghost element: { Self → ℕ };

    /// An element for each symbol and list of elements.
    ghost function: { Self → ASymbol → AList ℕ → ℕ };

    /// A truth value for each symbol and list of elements.
    ghost predicate: { Self → ASymbol → AList ℕ → Bool };

    /// The one element is an element.
    ghost element_is: { (i : Self) → is_element i (element i) };

    /// What symbols give of elements is an element.
    ghost function_is: { (i : Self) (f : ASymbol) (values : AList ℕ) → All (is_element i) values → is_element i (function i f values) };

    /// `=` is identity.
    ghost equality_is: { (i : Self) (m n : ℕ) → is_element i m → is_element i n → IsTrue (predicate i equals (m ∷ n ∷ [])) ↔ (m ≡ n) };
}

/// A law: refuted clauses aren't all true in an interpretation over whole numbers. It doesn't say which of them is
/// false, since whether a clause is true in an infinite interpretation can't be decided. `IsTrueIn` reads `=` as
/// identity, as `equality_is` says of the interpretation's own truth values.
pub fn no_model<I: Interpretation>(i: &I, inputs: &List<Clause>)
    requires { IsRefuted inputs.now }
    ensures { ¬ IsModel (I.is_element i.now) (I.function i.now) (I.predicate i.now) inputs.now }
{}
