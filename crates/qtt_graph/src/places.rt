//! The places of modules in the list of texts, by their names.

ghost use Rattle.std.specs.Prelude.{◌≡◌, IfOk, IsTrue};
ghost use Rattle.std.specs.Ordering.{nat_cmp};
ghost use Rattle.std.specs.Cmp.Lexicographic.{slice_cmp};
ghost use Rattle.std.specs.BTreeMap as tree;
ghost use Rattle.qtt_graph.specs.Graph.{Name, names, all_differ, is_there, all_there, is_whole};
ghost use Rattle.qtt_graph.specs.Ranks.{place_among};
ghost use Rattle.qtt_graph.specs.Modules.{graph_of, place_imported, places_imported, order_of};

use qtt_base::MemoryError;
use qtt_syntax::{Import, ModuleText};
use std::alloc::Global;
use std::collections::BTreeMap;

/// The place of each module by its name.
#[derive(Drop)]
pub struct Places<'t> {
    texts: &'t [ModuleText],
    by_name: BTreeMap<&'t str, usize>,
    /// Whether no two names are the same.
    differ: bool,
    pub ghost told: { differ ≡ all_differ (names (graph_of texts.now)) },
    ghost found: { (q : Name) → tree.get_by (λ k. slice_cmp nat_cmp q k.now) by_name ≡
        place_among (names (graph_of texts.now)) q },
}

impl<'t> Places<'t> {
    pub fn new(alloc: Global, texts: &'t [ModuleText]) -> Result<Places<'t>, MemoryError>
        ensures { IfOk result (λ p. p.texts.now ≡ texts.now) }
    {
        let mut by_name = BTreeMap::new(alloc);
        let mut differ = true;
        for (place, text) in texts.iter().enumerate() {
            let name = text.name.as_str();
            if by_name.get(name).is_some() {
                differ = false;
            } else {
                by_name.insert(name, place)?;
            }
        }
        Ok(Places {
            texts,
            by_name,
            differ,
        })
    }

    /// Whether no two names are the same and each import but Prim is one of the modules.
    pub fn is_whole(&self) -> bool
        ensures { result ≡ is_whole (graph_of self.now.texts.now) }
    {
        for text in self.texts {
            if !self.all_there(&text.imports) {
                return false;
            }
        }
        self.differ
    }

    fn all_there(&self, imports: &[Import]) -> bool
        ensures { result ≡ all_there (names (graph_of self.now.texts.now)) imports.now }
    {
        for import in imports {
            if !self.is_there(import) {
                return false;
            }
        }
        true
    }

    /// Whether an import is Prim or one of the modules.
    fn is_there(&self, import: &Import) -> bool
        ensures { result ≡ is_there (names (graph_of self.now.texts.now)) import.now }
    {
        import.name.as_str() == "Prim" || self.imported(import).is_some()
    }

    /// The place of the module that is imported; an import of Prim has none.
    fn imported(&self, import: &Import) -> Option<usize>
        ensures { result ≡ place_imported (names (graph_of self.now.texts.now)) import.now }
    {
        if import.name.as_str() == "Prim" {
            return None;
        }
        self.by_name.get(import.name.as_str()).copied()
    }

    /// The places of the modules that are imported, in text order.
    pub fn all_imported(&self, alloc: Global, imports: &[Import]) -> Result<Vec<usize>, MemoryError>
        ensures { IfOk result (λ row. row.items ≡
            places_imported (names (graph_of self.now.texts.now)) imports.now) }
    {
        let mut row = Vec::with_capacity(alloc, imports.len())?;
        for import in imports {
            if let Some(place) = self.imported(import) {
                row.push(place)?;
            }
        }
        Ok(row)
    }

    /// All places, in byte order of the modules' names.
    pub fn in_order(&self, alloc: Global) -> Result<Vec<usize>, MemoryError>
        requires differ { IsTrue (all_differ (names (graph_of self.now.texts.now))) }
        ensures { IfOk result (λ order. order.items ≡ order_of (graph_of self.now.texts.now)) }
    {
        Ok(self.by_name.values().copied().collect(alloc)?)
    }
}
