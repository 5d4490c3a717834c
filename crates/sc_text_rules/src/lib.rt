//! The texts that are printed and read back, as definitions: which bytes a clause and a proof section are printed as
//! (`ClauseText`, `ProofText`), and which lines a text spells over the symbols of a problem, or where and why it is
//! refused (`TextWords`, `TextPosition`, `TextLimits`, `ProofGrammar`, `ProofReading`). `proofs/` has worked examples
//! and the laws. There is no code here.
#![tactic(auto)]
