//! The modules of a build by their places in the list of texts.

ghost use Rattle.std.specs.Prelude.{◌≡◌, ◌<◌, ◌≤◌, [], length, map, replicate, IfOk, IsTrue};
ghost use Rattle.qtt_graph.specs.Graph.{below, names, all_differ, is_whole};
ghost use Rattle.qtt_graph.specs.Laws.{Closed};
ghost use Rattle.qtt_graph.specs.Ranks.{rank, ranked};
ghost use Rattle.qtt_graph.specs.Ranking.{Known, LeadsOn, HasNone, unvisited};
ghost use Rattle.qtt_graph.specs.Levels.{AreRanks};
ghost use Rattle.qtt_graph.specs.Modules.{
  graph_of,
  rows_of,
  order_of,
  name_at,
  ArePlaces,
  AreWithin,
  AreTurned,
  AreImporters,
};

use crate::places::Places;
use qtt_base::{MemoryError, Name};
use qtt_syntax::ModuleText;
use std::alloc::Global;

/// The modules of a build, each by its place in the list of texts.
#[derive(Drop)]
pub struct Modules<'t> {
    texts: &'t [ModuleText],
    /// Those that each imports, in text order.
    below: Vec<Vec<usize>>,
    /// Those that import each.
    above: Vec<Vec<usize>>,
    /// In byte order of their names.
    order: Vec<usize>,
    ghost differ: { IsTrue (all_differ (names (graph_of texts.now))) },
    ghost closed: { Closed (graph_of texts.now) },
    ghost imports: { map (λ row. row.items) below.items ≡ rows_of (graph_of texts.now) },
    ghost importers: { AreTurned (map (λ row. row.items) below.items)
        (map (λ row. row.items) above.items) },
    ghost ordered: { order.items ≡ order_of (graph_of texts.now) },
}

impl<'t> Modules<'t> {
    pub fn new(alloc: Global, texts: &'t [ModuleText]) -> Result<Modules<'t>, MemoryError>
        requires whole { IsTrue (is_whole (graph_of texts.now)) }
        ensures { IfOk result (λ m. m.texts.now ≡ texts.now) }
    {
        let places = Places::new(alloc, texts)?;
        let mut below = Vec::with_capacity(alloc, texts.len())?;
        for text in texts {
            below.push(places.all_imported(alloc, &text.imports)?)?;
        }
        let above = turned(alloc, &below)?;
        let order = places.in_order(alloc)?;
        Ok(Modules {
            texts,
            below,
            above,
            order,
        })
    }

    pub fn len(&self) -> usize
        ensures { result ≡ length self.now.texts.now }
    {
        self.texts.len()
    }

    /// The places of all modules, in byte order of their names.
    pub fn order(&self) -> &[usize]
        ensures { result.now ≡ order_of (graph_of self.now.texts.now) }
    {
        &self.order
    }

    pub fn name(&self, place: usize) -> Result<Name, MemoryError>
        requires there { place < length self.now.texts.now }
        ensures { IfOk result (λ n. n ≡ name_at (graph_of self.now.texts.now) place) }
    {
        self.texts[place].name.copy()
    }

    /// The places of the modules that the module at a place imports, in text order.
    pub fn imports(&self, place: usize) -> &[usize]
        requires there { place < length self.now.texts.now }
        ensures { ArePlaces (graph_of self.now.texts.now) result.now
            (below (graph_of self.now.texts.now) (name_at (graph_of self.now.texts.now) place)) }
    {
        &self.below[place]
    }

    /// The places of the modules that import the one at a place.
    pub fn importers(&self, place: usize) -> &[usize]
        requires there { place < length self.now.texts.now }
        ensures { AreImporters (graph_of self.now.texts.now) place result.now }
    {
        &self.above[place]
    }

    /// The rank of a module, or nothing where it has none. While its imports are followed none is
    /// known of it: an import that leads back to it has none.
    #[cycle(rank)]
    fn rank(&self, known: &mut Vec<Option<Option<usize>>>, place: usize) -> Option<usize>
        requires there { place < length self.now.texts.now }
        requires known { Known (graph_of self.now.texts.now)
            (LeadsOn (graph_of self.now.texts.now) place) known.old.items }
        ensures known { Known (graph_of self.now.texts.now)
            (HasNone known.old.items) known.new.items }
        ensures fewer { unvisited known.new.items ≤ unvisited known.old.items }
        ensures found { result ≡ rank (graph_of self.now.texts.now)
            (name_at (graph_of self.now.texts.now) place) }
    {
        if let Some(found) = known[place] {
            return found;
        }
        known[place] = Some(None);
        let mut rank = 0;
        for below in self.imports(place) {
            let next = self.rank(known, *below)?;
            rank = rank.max(next + 1);
        }
        known[place] = Some(Some(rank));
        Some(rank)
    }
    /// The rank of each module, or nothing where it has none.
    pub fn ranks(&self, alloc: Global) -> Result<Vec<Option<usize>>, MemoryError>
        ensures { IfOk result (λ ranks. AreRanks (graph_of self.now.texts.now) ranks.items) }
    {
        let mut known = vec![in alloc; None; self.texts.len()]?;
        let mut ranks = Vec::with_capacity(alloc, self.texts.len())?;
        for place in 0..self.texts.len() {
            ranks.push(self.rank(&mut known, place))?;
        }
        Ok(ranks)
    }
    /// The places of the modules of each rank, within a rank in byte order of their names.
    pub fn by_rank(
        &self,
        alloc: Global,
        ranks: &Vec<Option<usize>>,
    ) -> Result<Vec<Vec<u32>>, MemoryError>
        requires ranks { AreRanks (graph_of self.now.texts.now) ranks.now.items }
        ensures { IfOk result (λ found. map (λ level. level.items) found.items ≡
            ranked (graph_of self.now.texts.now)) }
    {
        let mut levels = empty_levels(alloc, self.texts.len())?;
        for place in &self.order {
            if let Some(rank) = ranks[*place] {
                levels[rank].push(number(*place)?)?;
            }
        }
        levels.retain(|level| !level.is_empty());
        Ok(levels)
    }
}

/// For each module, those that import it.
fn turned(alloc: Global, below: &[Vec<usize>]) -> Result<Vec<Vec<usize>>, MemoryError>
    requires within { AreWithin (map (λ row. row.items) below.now) }
    ensures { IfOk result (λ above. AreTurned (map (λ row. row.items) below.now)
        (map (λ row. row.items) above.items)) }
{
    let mut above = empty_rows(alloc, below.len())?;
    for (place, row) in below.iter().enumerate() {
        for target in row {
            above[*target].push(place)?;
        }
    }
    Ok(above)
}

/// So many rows without places.
fn empty_rows(alloc: Global, count: usize) -> Result<Vec<Vec<usize>>, MemoryError>
    ensures { IfOk result (λ rows. map (λ row. row.items) rows.items ≡ replicate count []) }
{
    let mut rows = Vec::with_capacity(alloc, count)?;
    for _row in 0..count {
        rows.push(Vec::new(alloc))?;
    }
    Ok(rows)
}

/// So many levels without places.
fn empty_levels(alloc: Global, count: usize) -> Result<Vec<Vec<u32>>, MemoryError>
    ensures { IfOk result (λ levels. map (λ level. level.items) levels.items ≡ replicate count []) }
{
    let mut levels = Vec::with_capacity(alloc, count)?;
    for _level in 0..count {
        levels.push(Vec::new(alloc))?;
    }
    Ok(levels)
}

/// A place as a number of 32 bits; more than these hold are told as want of memory.
fn number(place: usize) -> Result<u32, MemoryError>
    ensures { IfOk result (λ n. n ≡ place) }
{
    u32::try_from(place).map_err(|_| MemoryError)
}
