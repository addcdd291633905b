ghost use Rattle.std.specs.Prelude.{◌≡◌, ◌+◌, ◌<◌, true, [], ◌∷◌, ◌++◌, length, IfOk, vec_len, vec_capacity};
ghost use Rattle.rules.specs.Network.{joins};
ghost use Rattle.sheet.specs.Asks.{with_node, with_leg, with_path};
ghost use Rattle.sheet.specs.Checks.{PathOf};
ghost use Rattle.sheet.specs.Sheets.{drawing, nothing_drawn, EntersNode, EntersLeg, EntersPath};
ghost use Rattle.sheet.specs.Views.{node_of, leg_of, path_legs, told_leg};

use crate::leg::{Leg, LegFigures};
use crate::node::{Node, NodeFigures};
use crate::path::Path;
use crate::question::SheetQuestion;
use crate::sheet::Sheet;
use rules::fault::Fault;
use std::alloc::{AllocError, Global};

// Adds an item to a list that has room for it, and tells its number.
fn append<T>(list: &mut Vec<T>, item: T) -> usize
    requires { vec_len list.old < vec_capacity list.old }
    ensures number { result ≡ vec_len list.old }
    ensures items { list.new.items ≡ list.old.items ++ item ∷ [] }
    ensures len { vec_len list.new ≡ vec_len list.old + 1 }
    ensures room { vec_capacity list.new ≡ vec_capacity list.old }
{
    let number = list.len();
    list.push_reserved(item);
    number
}

impl Sheet {
    // An empty sheet, with the memory for all that can be entered.
    pub fn new(heap: Global) -> Result<Sheet, AllocError>
        ensures { IfOk result (λ s. drawing s ≡ nothing_drawn) }
    {
        let nodes = Vec::with_capacity(heap, 40)?;
        let legs = Vec::with_capacity(heap, 64)?;
        let paths = Vec::with_capacity(heap, 128)?;
        Ok(Sheet { nodes, legs, paths })
    }

    fn add_node(&mut self, node: Node) -> usize
        requires { vec_len self.old.nodes < 40 }
        ensures number { result ≡ length (drawing self.old).nodes }
        ensures shows { drawing self.new ≡ with_node (drawing self.old) (node_of node) }
    {
        append(&mut self.nodes, node)
    }

    fn add_leg(&mut self, leg: Leg) -> usize
        requires room { vec_len self.old.legs < 64 }
        requires joined { joins (vec_len self.old.nodes) (leg_of leg) ≡ true }
        ensures number { result ≡ length (drawing self.old).legs }
        ensures shows { drawing self.new ≡ with_leg (drawing self.old) (leg_of leg) }
    {
        append(&mut self.legs, leg)
    }

    fn add_path(&mut self, path: Path) -> usize
        requires room { vec_len self.old.paths < 128 }
        requires sound { PathOf (drawing self.old).nodes (drawing self.old).legs (path_legs path) path }
        ensures number { result ≡ length (drawing self.old).paths }
        ensures shows { drawing self.new ≡ with_path (drawing self.old) (path_legs path) }
    {
        append(&mut self.paths, path)
    }

    // One node more, and its number; or the first question that its figures fail.
    pub fn enter_node(&mut self, figures: NodeFigures) -> Result<usize, Fault<SheetQuestion>>
        ensures { EntersNode self.old self.new figures.province figures.standalone figures.tight figures.congested result }
    {
        let node = self.check_node(figures)?;
        Ok(self.add_node(node))
    }

    // One leg more, and its number; or the first question that its figures fail.
    pub fn enter_leg(&mut self, figures: LegFigures) -> Result<usize, Fault<SheetQuestion>>
        ensures { EntersLeg self.old self.new (told_leg figures) result }
    {
        let leg = self.check_leg(figures)?;
        Ok(self.add_leg(leg))
    }

    // One path more, and its number; or the first question that its legs fail.
    pub fn enter_path(&mut self, legs: &[u32]) -> Result<usize, Fault<SheetQuestion>>
        ensures { EntersPath self.old self.new legs.now result }
    {
        let path = self.check_path(legs)?;
        Ok(self.add_path(path))
    }
}
