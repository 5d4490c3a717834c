//! The versions that are seen, and the best of them.

ghost use Rattle.std.specs.Prelude.{◌≡◌, ◌≤◌, ◌<◌, ◌^◌, ◌⊎◌, ◌↔◌, [], IsTrue, IfOk, OnOk, OnErr, IsSomeAnd, length, replicate};
ghost use Rattle.sc_term.specs.Numbering.{numbered};
ghost use Rattle.sc_core_rules.specs.Order.{Where};
ghost use Rattle.sc_core_rules.specs.Selection.{IsBetter, opening_name};
ghost use Rattle.sc_guide.specs.Guided.{nothing_seen, grown, lengths_of, version_named, IsNamed, AreCounted, IsGuideOver};

use sc_interp::{Version, VersionName};
use sc_term::{List, Mem, Signature};
use std::alloc::Global;
use std::marker::Model;

/// The name of the opening version.
pub const OPENING: VersionName = VersionName {
    finder: 0,
    place: 0,
};

/// The versions of each finder that are seen. Contracts see them with the guide and its name (`Guided`); `IsKept` says
/// what each keeps. The guide is kept as its name.
#[derive(Drop)]
pub struct Guide {
    opening: Version,
    lists: Vec<List<Version>>,
    name: VersionName,
}

impl Model for Guide {
    ghost use Rattle.std.specs.Coded.{codes};
    ghost use Rattle.sc_term.specs.contracts.Term as term;
    ghost use Rattle.sc_guide.specs.Guided.{Guided, IsKept, version_named};

    ghost Value = { Guided };

    ghost coded = { Prim.hlevel (codes, term.the_row.coded) };

    ghost view = { λ g. record { opening_version = g.opening; seen = g.lists.items; name = g.name; version = version_named g.opening g.lists.items g.name } };

    ghost invariant = { λ g. IsKept g.opening g.lists.items g.name };
}

/// An empty list for each finder.
fn empty_lists(alloc: Global, finders: u32) -> Mem<Vec<List<Version>>>
    ensures { IfOk result (λ lists. lists.items ≡ replicate finders []) }
{
    let mut lists = Vec::new(alloc);
    for _finder in 0..finders {
        lists.push(List::new(alloc))?;
    }
    Ok(lists)
}

/// The version of that name, which has to be the opening one's or that of a version in the lists.
fn find<'a>(opening: &'a Version, lists: &'a [List<Version>], name: VersionName) -> &'a Version
    requires { IsNamed opening.now lists.now name }
    ensures { result.now ≡ version_named opening.now lists.now name }
{
    if name.finder == 0 {
        return opening;
    }
    let versions = &lists[name.finder as usize - 1];
    &versions.as_slice()[name.place as usize]
}

/// Whether the version of that name is better than the other: its score is greater, or else its finder lesser, or else its
/// place greater.
fn is_better(name: VersionName, version: &Version, other: VersionName, than: &Version) -> bool
    ensures { IsTrue result ↔ IsBetter name version.now other than.now }
{
    let score = version.claims().len();
    let least = than.claims().len();
    if score != least {
        return least < score;
    }
    if name.finder != other.finder {
        return name.finder < other.finder;
    }
    other.place < name.place
}

/// The name of the guide once a version of the name `new` joins the lists whose guide has that name. Any version takes the
/// place of the opening one.
fn next_name(
    opening: &Version,
    lists: &[List<Version>],
    guide: VersionName,
    new: VersionName,
    version: &Version,
) -> VersionName
    requires { IsNamed opening.now lists.now guide }
    ensures { Where ((guide ≡ opening_name) ⊎ IsBetter new version.now guide (version_named opening.now lists.now guide)) (result ≡ new) (result ≡ guide) }
{
    if guide.finder == 0 {
        return new;
    }
    if is_better(new, version, guide, find(opening, lists, guide)) {
        return new;
    }
    guide
}

/// The version joins the end of the list of that finder.
fn push(lists: &mut [List<Version>], finder: u32, version: Version) -> Mem<()>
    requires some { 1 ≤ finder }
    requires there { finder ≤ length lists.old }
    ensures seen { OnOk result (lists.new ≡ grown lists.old finder version) }
    ensures refused { OnErr result (lists.new ≡ lists.old) }
{
    let versions = &mut lists[finder as usize - 1];
    versions.push(version)?;
    Ok(())
}

/// How many versions each list has.
fn count_each(alloc: Global, lists: &[List<Version>]) -> Mem<List<u32>>
    requires { AreCounted lists.now }
    ensures { IfOk result (λ counts. counts ≡ lengths_of lists.now) }
{
    let mut counts = List::new(alloc);
    for versions in lists {
        counts.push(versions.len() as u32)?;
    }
    Ok(counts)
}

impl Guide {
    /// No version is seen of any of so many finders.
    pub fn new(alloc: Global, sig: &Signature, finders: u32) -> Mem<Guide>
        ensures { IfOk result (λ guide. guide ≡ nothing_seen sig.now finders) }
    {
        let opening = Version::opening(alloc, sig)?;
        let lists = empty_lists(alloc, finders)?;
        Ok(Guide {
            opening,
            lists,
            name: OPENING,
        })
    }

    /// A copy of the version joins the end of the list of that finder, from 1. Where memory is wanting, nothing changes.
    pub fn add(&mut self, alloc: Global, finder: u32, version: &Version) -> Mem<()>
        requires some { 1 ≤ finder }
        requires there { finder ≤ length self.old.seen }
        requires few { IsSomeAnd (numbered self.old.seen finder) (λ versions. length versions < 2 ^ 31) }
        ensures seen { OnOk result (self.new.seen ≡ grown self.old.seen finder version.now) }
        ensures opening { self.new.opening_version ≡ self.old.opening_version }
        ensures refused { OnErr result (self.new ≡ self.old) }
    {
        let copied = version.copy(alloc)?;
        self.receive(finder, copied)?;
        Ok(())
    }

    /// The version itself joins the end of the list of that finder, from 1. Where memory is wanting, nothing changes.
    pub fn receive(&mut self, finder: u32, version: Version) -> Mem<()>
        requires some { 1 ≤ finder }
        requires there { finder ≤ length self.old.seen }
        requires few { IsSomeAnd (numbered self.old.seen finder) (λ versions. length versions < 2 ^ 31) }
        ensures seen { OnOk result (self.new.seen ≡ grown self.old.seen finder version) }
        ensures opening { self.new.opening_version ≡ self.old.opening_version }
        ensures refused { OnErr result (self.new ≡ self.old) }
    {
        let place = self.lists[finder as usize - 1].len() as u32;
        let name = next_name(
            &self.opening,
            self.lists.as_slice(),
            self.name,
            VersionName { finder, place },
            &version,
        );
        push(self.lists.as_mut_slice(), finder, version)?;
        self.name = name;
        Ok(())
    }

    /// The name of the guide.
    pub fn name(&self) -> VersionName
        ensures value { result ≡ self.now.name }
        ensures guide { IsGuideOver self.now.opening_version self.now.seen self.now.name self.now.version }
    {
        self.name
    }

    /// The guide.
    pub fn version(&self) -> &Version
        ensures value { result.now ≡ self.now.version }
        ensures guide { IsGuideOver self.now.opening_version self.now.seen self.now.name self.now.version }
    {
        find(&self.opening, self.lists.as_slice(), self.name)
    }

    /// The versions of each finder that are seen, in order.
    pub fn seen(&self) -> &[List<Version>]
        ensures { result.now ≡ self.now.seen }
    {
        self.lists.as_slice()
    }

    /// The versions of each finder that are seen, in order, and nothing else.
    pub fn into_seen(self) -> List<List<Version>>
        ensures { result ≡ self.seen }
    {
        let Guide {
            opening: _,
            lists,
            name: _,
        } = self;
        List::from_vec(lists)
    }

    /// How many versions of each finder are seen.
    pub fn lengths(&self, alloc: Global) -> Mem<List<u32>>
        ensures { IfOk result (λ lengths. lengths ≡ lengths_of self.now.seen) }
    {
        let counts = count_each(alloc, self.lists.as_slice())?;
        Ok(counts)
    }
}
