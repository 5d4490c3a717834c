//! Where sites are looked for.

ghost use Rattle.std.specs.Prelude.{◌≡◌, IfOk};
ghost use Rattle.sc_para.specs.Spots.{site_at};

use sc_core_rules::ParaSite;
use sc_term::{List, Mem, Side};
use std::alloc::Global;

/// All of a site but its path.
#[derive(Clone, Copy)]
pub struct Spot {
    pub from: u32,
    pub from_lit: u32,
    pub side: Side,
    pub into: u32,
    pub into_lit: u32,
}

/// The site with this path.
pub fn site_at(alloc: Global, spot: Spot, path: &[u32]) -> Mem<ParaSite>
    ensures { IfOk result (λ site. site ≡ site_at spot path.now) }
{
    Ok(ParaSite {
        from: spot.from,
        from_lit: spot.from_lit,
        side: spot.side,
        into: spot.into,
        into_lit: spot.into_lit,
        path: List::from_slice(alloc, path)?,
    })
}
