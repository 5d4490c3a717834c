//! The work list of a turn.

ghost use Rattle.std.specs.Prelude.{◌≡◌, ◌+◌, ◌*◌, ◌<◌, ◌≤◌, ◌^◌, List as AList, true, All, IfOk, OnOk, Contains, length, map};
ghost use Rattle.sc_term.specs.declared.Numbered.{Numbered as ANumbered};
ghost use Rattle.sc_core_rules.specs.Book.{numbered_clauses};
ghost use Rattle.sc_core_rules.specs.Sites.{AreSites};
ghost use Rattle.sc_core_rules.specs.Turn.{IsPassedOver};
ghost use Rattle.sc_core_rules.specs.WorkList.{At, Again, Works};
ghost use Rattle.sc_core_sites.specs.Sites.{site_of};
ghost use Rattle.sc_core.specs.Finish.{finish_of};
ghost use Rattle.sc_core.specs.Items.{HasClause};

use crate::finish::Finish;
use crate::item::{work_again, work_site};
use sc_core_sites::Site;
use sc_keep::Book;
use sc_term::{List, MAX_WORK, Mem, Numbered};
use std::alloc::Global;
use std::collections::VecDeque;

/// Works the clauses of the numbers that wait, at most `left` of them (`Works`), which are the end of the work list:
/// what comes back meanwhile waits behind them.
fn work_waiting(
    alloc: Global,
    book: &mut Book,
    waiting: VecDeque<u32>,
    turn: u32,
    left: u32,
) -> Mem<Finish>
    requires whole { book.old.whole ≡ true }
    requires there { All (HasClause (numbered_clauses book.old.problem book.old.book)) waiting.items }
    requires few { length book.old.problem.inputs + length book.old.book.derived + 2 * left + 2 < 2 ^ 32 }
    ensures works { IfOk result (λ finish. (given : ANumbered) (usable : AList ANumbered)
        → Works book.old.problem turn given usable IsPassedOver left book.old.book (map Again waiting.items) book.new.book (finish_of finish)) }
    ensures problem { book.new.problem ≡ book.old.problem }
    ensures whole { OnOk result (book.new.whole ≡ true) }
{
    let mut waiting = waiting;
    let mut left = left;
    while let Some(n) = waiting.pop_front() {
        if left == 0 {
            return Ok(Finish::TooMany);
        }
        match work_again(alloc, book, &mut waiting, n, turn)? {
            Some(k) => return Ok(Finish::Found(k)),
            None => {}
        }
        left -= 1;
    }
    Ok(Finish::Done)
}

/// Works the sites of the given clause, which stands in usable, in order, and then the clauses that come back, in the
/// order in which they do, at most 100,000 items in all (`Works`): what each gives is processed, and an empty clause
/// ends it. The sites are the first 100,001, so that one too many shows. After want of memory no more is known of the
/// book than that it has the same problem.
pub fn work(
    alloc: Global,
    book: &mut Book,
    given: &Numbered,
    sites: &List<Site>,
    turn: u32,
) -> Mem<Finish>
    requires whole { book.old.whole ≡ true }
    requires listed { Contains book.old.book.usable given.now }
    requires sites { AreSites book.old.problem.flags given.now book.old.book.usable 100001 (map site_of sites.now) }
    requires few { length book.old.problem.inputs + length book.old.book.derived + 200002 < 2 ^ 32 }
    ensures works { IfOk result (λ finish. Works book.old.problem turn given.now book.old.book.usable IsPassedOver 100000 book.old.book (map At (map site_of sites.now)) book.new.book (finish_of finish)) }
    ensures problem { book.new.problem ≡ book.old.problem }
    ensures whole { OnOk result (book.new.whole ≡ true) }
{
    book.keeps();
    let mut waiting = VecDeque::new(alloc);
    let mut left = MAX_WORK;
    for site in sites.as_slice() {
        if left == 0 {
            return Ok(Finish::TooMany);
        }
        match work_site(alloc, book, &mut waiting, given, site, turn)? {
            Some(k) => return Ok(Finish::Found(k)),
            None => {}
        }
        left -= 1;
    }
    let finish = work_waiting(alloc, book, waiting, turn, left)?;
    Ok(finish)
}
