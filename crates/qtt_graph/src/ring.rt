//! The ring of imports that is told.

ghost use Rattle.std.specs.Prelude.{◌≡◌, ◌<◌, length, option_map, IfOk};
ghost use Rattle.qtt_graph.specs.Modules.{graph_of, name_at, IsWithin};
ghost use Rattle.qtt_graph.specs.Levels.{AreRanks};
ghost use Rattle.qtt_graph.specs.Near.{
  Near,
  Widened,
  Stepped,
  IsAt,
  IsFirstWay,
  imports_one,
  goes_on_from,
};
ghost use Rattle.qtt_graph.specs.Ring.{back, ring as told};

use crate::modules::Modules;
use qtt_base::{MemoryError, Name};
use std::alloc::Global;

/// Whether a way of `count + 1` imports to the module at `target` goes on from the one at `place`.
fn goes_on(near: &Vec<Option<usize>>, target: usize, count: usize, place: usize) -> bool
    requires there { place < length near.now.items }
    ensures { result ≡ goes_on_from near.now.items target count place }
{
    if count == 0 {
        return place == target;
    }
    match near[place] {
        Some(nearer) => nearer == count - 1,
        None => false,
    }
}

impl<'t> Modules<'t> {
    /// The module to which a way of `count + 1` imports to `target` goes on from `place`.
    fn step(
        &self,
        near: &Vec<Option<usize>>,
        target: usize,
        count: usize,
        place: usize,
    ) -> Option<usize>
        requires all { length near.now.items ≡ length self.now.texts.now }
        requires there { place < length self.now.texts.now }
        ensures { Stepped (graph_of self.now.texts.now) near.now.items target count place result }
    {
        for below in self.imports(place) {
            if goes_on(near, target, count, *below) {
                return Some(*below);
            }
        }
        None
    }
    /// Notes `count` for each module that imports one of `frontier` and is not noted yet, and gives
    /// the places of these.
    fn widen(
        &self,
        alloc: Global,
        near: &mut Vec<Option<usize>>,
        frontier: &[usize],
        count: usize,
    ) -> Result<Vec<usize>, MemoryError>
        requires all { length near.old.items ≡ length self.now.texts.now }
        requires there { IsWithin (length self.now.texts.now) frontier.now }
        ensures { IfOk result (λ next. Widened
            (imports_one (graph_of self.now.texts.now) frontier.now) count
            near.old.items near.new.items next.items) }
    {
        let mut next = Vec::new(alloc);
        for place in frontier {
            for above in self.importers(*place) {
                if near[*above].is_none() {
                    near[*above] = Some(count);
                    next.push(*above)?;
                }
            }
        }
        Ok(next)
    }
    /// The imports beyond the first of each module's shortest way to `target`: a search from it
    /// along importers, which comes to each module once.
    fn nearness(&self, alloc: Global, target: usize) -> Result<Vec<Option<usize>>, MemoryError>
        requires there { target < length self.now.texts.now }
        ensures { IfOk result (λ near. Near (graph_of self.now.texts.now)
            (name_at (graph_of self.now.texts.now) target) (length self.now.texts.now) near.items) }
    {
        let mut near = vec![in alloc; None; self.len()]?;
        let mut frontier = vec![in alloc; target]?;
        for count in 0..self.len() {
            if frontier.is_empty() {
                return Ok(near);
            }
            frontier = self.widen(alloc, &mut near, &frontier, count)?;
        }
        Ok(near)
    }

    /// The modules on the first of the shortest ways from `target` back to itself.
    fn way(
        &self,
        alloc: Global,
        near: &Vec<Option<usize>>,
        target: usize,
        count: usize,
    ) -> Result<Vec<Name>, MemoryError>
        requires there { target < length self.now.texts.now }
        requires near { Near (graph_of self.now.texts.now)
            (name_at (graph_of self.now.texts.now) target) (length self.now.texts.now)
            near.now.items }
        requires back { IsAt near.now.items target count }
        ensures { IfOk result (λ way. IsFirstWay (graph_of self.now.texts.now) count target target
            way.items) }
    {
        let mut way = Vec::new(alloc);
        let mut place = target;
        let mut left = count;
        while let Some(next) = self.step(near, target, left, place) {
            way.push(self.name(place)?)?;
            if left == 0 {
                return Ok(way);
            }
            place = next;
            left -= 1;
        }
        Ok(way)
    }
    /// The first of the shortest ways from a module back to itself, if there is one.
    fn way_back(&self, alloc: Global, target: usize) -> Result<Option<Vec<Name>>, MemoryError>
        requires there { target < length self.now.texts.now }
        ensures { IfOk result (λ way. option_map (λ w. w.items) way ≡
            back (graph_of self.now.texts.now) (name_at (graph_of self.now.texts.now) target)) }
    {
        let near = self.nearness(alloc, target)?;
        match near[target] {
            Some(count) => Ok(Some(self.way(alloc, &near, target, count)?)),
            None => Ok(None),
        }
    }

    /// The ring that is told, where there is one: a search from each module without a rank, in byte
    /// order, until one leads back. Each search takes time linear in modules and imports. A module
    /// with a rank is on no ring.
    pub fn ring(
        &self,
        alloc: Global,
        ranks: &Vec<Option<usize>>,
    ) -> Result<Option<Vec<Name>>, MemoryError>
        requires ranks { AreRanks (graph_of self.now.texts.now) ranks.now.items }
        ensures { IfOk result (λ way. option_map (λ w. w.items) way ≡
            told (graph_of self.now.texts.now)) }
    {
        for place in self.order() {
            if ranks[*place].is_none() {
                if let Some(way) = self.way_back(alloc, *place)? {
                    return Ok(Some(way));
                }
            }
        }
        Ok(None)
    }
}
