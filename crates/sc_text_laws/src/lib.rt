//! What is printed is read back as itself: a proof section or a run over the symbols of a problem, printed behind any
//! bytes, is read from there by `read_proof` and `read_run` of sc_text to the same lines and the same run.
//!
//! Each law is the clause of a public function without a body's work. Lines may be printed whose clauses and instance
//! terms are over the problem's symbols, of weight at most 10,000 and depth at most 256, variables of number at most
//! 65,535, numbers of 32 bits, no empty path (`IsPrintableLine` in `specs/Printable`); a run, where it has one to eight
//! lists, with a finder row for each, tables with an entry in range for each place, turns from 1 and marks from 1 without a
//! gap, and kept numbers that rise (`IsPrintableRun` in `specs/PrintableRun`). A run of a problem that the program prints
//! has that shape.
//!
//! `proofs/` shows of each piece of a line and of each row that the printed bytes are its tokens, that the productions read
//! these tokens to it, and that no limit is passed at any of them (`Parts`); rows of a kind and parts of the text are put
//! together from these (`RowsInTurn`, `RunBack`).
#![tactic(auto)]

ghost use Rattle.std.specs.Prelude.{◌≡◌, ◌<◌, ◌^◌, ◌++◌, ℕ, List, length, Ok};
ghost use Rattle.std.specs.List.{AllByRecursion};
ghost use Rattle.sc_term.specs.declared.Line.{Line};
ghost use Rattle.sc_input_rules.specs.Reading.{StatedItems, items_of};
ghost use Rattle.sc_text_rules.specs.ProofText.{proof_text};
ghost use Rattle.sc_text_rules.specs.ProofReading.{proof_of};
ghost use Rattle.sc_text_laws.specs.Printable.{IsPrintableLine};
ghost use Rattle.sc_text_run_rules.specs.RunText.{run_text};
ghost use Rattle.sc_text_run_rules.specs.RunValue.{RunValue};
ghost use Rattle.sc_text_run_rules.specs.RunReading.{run_of};
ghost use Rattle.sc_text_laws.specs.PrintableRun.{IsPrintableRun};

/// The law that printed lines are read back: for each text that a problem is read of, and each list of fewer than 2^32
/// lines that may be printed over its symbols, the lines' text behind any bytes reads as these lines.
pub fn printed_lines_are_read_back()
    ensures { (problem : List ℕ) (read : StatedItems) (front : List ℕ) (lines : List Line) → items_of problem ≡ Ok read → length lines < 2 ^ 32 → AllByRecursion (IsPrintableLine read.problem.symbols) lines → proof_of read.problem.symbols (front ++ proof_text read.problem.symbols lines) (length front) ≡ Ok lines }
{}

/// The law that printed runs are read back: for each text that a problem is read of, and each run that may be printed
/// over its symbols, the run's text behind any bytes reads as this run.
pub fn printed_runs_are_read_back()
    ensures { (problem : List ℕ) (read : StatedItems) (front : List ℕ) (run : RunValue) → items_of problem ≡ Ok read → IsPrintableRun read.problem.symbols run → run_of read.problem.symbols (front ++ run_text read.problem.symbols run) (length front) ≡ Ok run }
{}
