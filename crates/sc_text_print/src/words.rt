//! The words of enumerations.

ghost use Rattle.std.specs.Prelude.{◌≡◌};
ghost use Rattle.sc_text_run_rules.specs.ModelText.{role_word};
ghost use Rattle.sc_text_run_rules.specs.RunText.{cause_word, truth_word, end_word};

use sc_core_rules::Cause;
use sc_interp::Truth;
use sc_term::Role;
use sc_text_run_rules::FinderEnd;

pub fn role_word(role: Role) -> &'static str
    ensures { result.now ≡ role_word role }
{
    match role {
        Role::Function => "function",
        Role::Predicate => "predicate",
    }
}

pub fn cause_word(cause: Cause) -> &'static str
    ensures { result.now ≡ cause_word cause }
{
    match cause {
        Cause::Age => "age",
        Cause::False => "false",
        Cause::Weight => "weight",
    }
}

pub fn truth_word(truth: Truth) -> &'static str
    ensures { result.now ≡ truth_word truth }
{
    match truth {
        Truth::True => "true",
        Truth::False => "false",
        Truth::Wide => "wide",
    }
}

pub fn end_word(end: FinderEnd) -> &'static str
    ensures { result.now ≡ end_word end }
{
    match end {
        FinderEnd::Done => "done",
        FinderEnd::Stopped => "stopped",
        FinderEnd::Wide => "wide",
        FinderEnd::Memory => "memory",
    }
}
