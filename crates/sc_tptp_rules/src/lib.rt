//! TPTP's clause form: which problem a text of it states, and the first fault of a text that states none. There is no
//! code here.
//!
//! `cnf_problem_of` in `specs/CnfReading.antt` gives of all bytes the problem that they state, or the byte at which they
//! are refused and why. Its parts have a file each: tokens (`CnfTokens`), which of them may stand where (`Placing`),
//! productions (`CnfGrammar`), the limits in the order in which they are told (`CnfLimits`), and what the items state,
//! which is what items of the problem language do (`CnfStating`). All else is of `sc_input_rules`: tokens, sides, the
//! measures of a clause, numbers of symbols and variables, the fault that comes first, and what a problem is.
#![tactic(auto)]
