//! Sites of one rule as sites of any rule.

ghost use Rattle.std.specs.Prelude.{IfOk};
ghost use Rattle.std.specs.List.{AllZip};

use crate::site::Site;
use sc_term::{List, Mem};
use std::alloc::Global;

/// What `tell` makes of each of the sites, in their order.
pub fn told<S: Drop, F: Fn(S) -> Site>(alloc: Global, found: List<S>, tell: F) -> Mem<List<Site>>
    requires { F.IsAlwaysCallable tell }
    ensures { IfOk result (λ sites. AllZip (λ s x. F.post tell s x) found sites) }
{
    let mut rest = found;
    let mut turned = Vec::new(alloc);
    while let Some(site) = rest.pop() {
        turned.push(tell(site))?;
    }
    turned.reverse();
    Ok(List::from_vec(turned))
}
