//! A problem as a value.

ghost use Rattle.std.specs.Prelude.{◌≡◌};
ghost use Rattle.sc_input_rules.specs.Problem.{Stated};
ghost use Rattle.sc_input_rules.specs.WellFormed.{IsProblem};

use crate::settings::{Flags, Home, Params};
use sc_term::{Clause, List, Signature};
use std::marker::Model;

/// Clauses over a signature, the list in which each of them stands, and the flags and parameters. Contracts see the
/// record `Stated` of these; `IsProblem` says what each problem keeps: a home for each clause, canonical clauses over
/// the signature, the form of demodulators, the ranges and the limits.
#[derive(Drop)]
pub struct Problem {
    sig: Signature,
    inputs: List<Clause>,
    homes: List<Home>,
    flags: Flags,
    params: Params,
}

impl Model for Problem {
    ghost use Rattle.std.specs.Coded.{codes};
    ghost use Rattle.sc_term.specs.contracts.Term as term;
    ghost use Rattle.sc_input_rules.specs.Problem.{Stated};
    ghost use Rattle.sc_input_rules.specs.WellFormed.{IsProblem};

    ghost Value = { Stated };

    ghost coded = { Prim.hlevel (codes, term.the_row.coded) };

    ghost view = { λ p. record { symbols = p.sig; inputs = p.inputs; homes = p.homes; flags = p.flags; params = p.params } };

    ghost invariant = { λ p. IsProblem (record { symbols = p.sig; inputs = p.inputs; homes = p.homes; flags = p.flags; params = p.params }) };
}

impl Problem {
    /// The problem of these parts, which have to make one.
    pub fn new(
        sig: Signature,
        inputs: List<Clause>,
        homes: List<Home>,
        flags: Flags,
        params: Params,
    ) -> Problem
        requires { IsProblem (record { symbols = sig; inputs = inputs; homes = homes; flags = flags; params = params }) }
        ensures { result ≡ record { symbols = sig; inputs = inputs; homes = homes; flags = flags; params = params } }
    {
        Problem {
            sig,
            inputs,
            homes,
            flags,
            params,
        }
    }

    /// What every problem keeps.
    pub fn keeps(&self)
        ensures { IsProblem self.now }
    {
        let _ = &self.params;
    }

    /// Its symbols by their numbers.
    pub fn sig(&self) -> &Signature
        ensures { result.now ≡ self.now.symbols }
    {
        &self.sig
    }

    /// Its input clauses, numbered from 1.
    pub fn inputs(&self) -> &List<Clause>
        ensures { result.now ≡ self.now.inputs }
    {
        &self.inputs
    }

    /// The list of each input clause.
    pub fn homes(&self) -> &List<Home>
        ensures { result.now ≡ self.now.homes }
    {
        &self.homes
    }

    pub fn flags(&self) -> Flags
        ensures { result ≡ self.now.flags }
    {
        self.flags
    }

    pub fn params(&self) -> Params
        ensures { result ≡ self.now.params }
    {
        self.params
    }
}
