//! Marks by clause number.

ghost use Rattle.std.specs.Prelude.{◌≡◌, IfOk, OnOk, OnErr, IfSome, IfNone, Contains};
ghost use Rattle.sc_term.specs.Clause.{IsCanonical, IsWithinLimits};
ghost use Rattle.sc_term.specs.declared.Numbered.{Numbered as ANumbered};
ghost use Rattle.sc_interp.specs.Marks.{IsMark};
ghost use Rattle.sc_mark.specs.Marked.{unmarked, HasMark, HasTruth, with_mark, without_mark};

use crate::changes::changes;
use crate::known::{Known, truth_of};
use crate::truths::{add, carried, clear, known_in, known_of, leave_out};
use sc_interp::{Truth, Version, VersionName};
use sc_term::{Clause, List, MAX_WEIGHT, Mem, Numbered, Signature};
use std::alloc::Global;
use std::marker::Model;

/// Whether a clause is true in the version of that name.
#[derive(Clone, Copy, Debug, PartialEq, Eq)]
pub struct Mark {
    pub name: VersionName,
    pub truth: Truth,
}

/// Clauses that are marked in one version. Contracts see the version, its name and the clauses (`Marked`); `IsMarking`
/// says what they keep. The clauses stand in the order in which they were marked, and the truth of clause n at place n of
/// a list, so that a mark is told in one look. The register is as wide as a clause within the limits.
#[derive(Drop)]
pub struct Marks {
    name: VersionName,
    version: Version,
    clauses: Vec<Numbered>,
    stored: List<Option<Known>>,
    register: Vec<u8>,
}

impl Model for Marks {
    ghost use Rattle.std.specs.Prelude.{length};
    ghost use Rattle.std.specs.Coded.{codes};
    ghost use Rattle.sc_term.specs.contracts.Term as term;
    ghost use Rattle.sc_mark.specs.Marked.{Marked};
    ghost use Rattle.sc_mark.specs.Marking.{IsMarking};

    ghost Value = { Marked };

    ghost coded = { Prim.hlevel (codes, term.the_row.coded) };

    ghost view = { λ m. record { name = m.name; version = m.version; clauses = m.clauses.items } };

    ghost invariant = { λ m. IsMarking (record { name = m.name; version = m.version; clauses = m.clauses.items }) m.stored (length m.register.items) };
}

impl Marks {
    /// No marks, in the opening version.
    pub fn new(alloc: Global, sig: &Signature) -> Mem<Marks>
        ensures { IfOk result (λ marks. marks ≡ unmarked sig.now) }
    {
        let version = Version::opening(alloc, sig)?;
        let register = vec![in alloc; 0u8; MAX_WEIGHT as usize]?;
        Ok(Marks {
            name: VersionName {
                finder: 0,
                place: 0,
            },
            version,
            clauses: Vec::new(alloc),
            stored: List::new(alloc),
            register,
        })
    }

    /// Marks clause n, which isn't marked, and tells its truth in the version. Where memory is wanting, nothing changes.
    /// It takes memory in proportion to n where n is greater than every number that was marked since the last carry.
    pub fn mark(&mut self, alloc: Global, n: u32, c: &Clause) -> Mem<Truth>
        requires fresh { ¬ HasMark self.old n }
        requires canonical { IsCanonical c.now }
        requires within { IsWithinLimits c.now }
        ensures truth { IfOk result (λ truth. IsMark self.old.version.tables c.now truth) }
        ensures marked { OnOk result (self.new ≡ with_mark self.old n c.now) }
        ensures refused { OnErr result (self.new ≡ self.old) }
    {
        let known = known_in(self.version.tables(), c, &mut self.register);
        add(alloc, &mut self.clauses, &mut self.stored, n, c, known)?;
        Ok(truth_of(known))
    }

    /// The mark of clause n, None exactly where it isn't marked.
    pub fn of(&self, n: u32) -> Option<Mark>
        ensures there { IfSome result (λ mark. HasTruth self.now n mark.truth) }
        ensures only { IfSome result (λ mark. (p : ANumbered) → Contains self.now.clauses p → p.number ≡ n → IsMark self.now.version.tables p.clause mark.truth) }
        ensures name { IfSome result (λ mark. mark.name ≡ self.now.name) }
        ensures none { IfNone result (¬ HasMark self.now n) }
    {
        match known_of(self.stored.as_slice(), n) {
            Some(known) => Some(Mark {
                name: self.name,
                truth: truth_of(known),
            }),
            None => None,
        }
    }

    /// Clause n isn't marked any more. Where it wasn't, this takes one look.
    pub fn forget(&mut self, n: u32)
        ensures { self.new ≡ without_mark self.old n }
    {
        match known_of(self.stored.as_slice(), n) {
            Some(_) => {
                leave_out(&mut self.clauses, n);
                clear(&mut self.stored, n);
            }
            None => {}
        }
    }

    /// Every clause that is marked is marked anew, in this version, of that name. Where memory is wanting, nothing changes.
    pub fn carry(&mut self, alloc: Global, name: VersionName, to: &Version) -> Mem<()>
        ensures carried { OnOk result (self.new ≡ record self.old { name = name; version = to.now }) }
        ensures refused { OnErr result (self.new ≡ self.old) }
    {
        let (old, new) = (self.version.tables(), to.tables());
        let changes = changes(alloc, old.tables(), new.tables())?;
        let stored = carried(
            alloc,
            old,
            new,
            changes.as_slice(),
            self.clauses.as_slice(),
            self.stored.as_slice(),
            &mut self.register,
        )?;
        let version = to.copy(alloc)?;
        self.name = name;
        self.version = version;
        self.stored = stored;
        Ok(())
    }

    /// The name of the version.
    pub fn name(&self) -> VersionName
        ensures { result ≡ self.now.name }
    {
        self.name
    }
}
