ghost use Rattle.std.specs.Prelude.{◌≡◌, ◌<◌, true, vec_len};
ghost use Rattle.rules.specs.Network.{joins};
ghost use Rattle.rules.specs.Questions.{Checked};
ghost use Rattle.sheet.specs.Asks.{node_questions, leg_questions, path_questions, node_figures_fit};
ghost use Rattle.sheet.specs.Checks.{PathOf};
ghost use Rattle.sheet.specs.Sheets.{drawing};
ghost use Rattle.sheet.specs.Views.{node_of, leg_of, told_node, told_leg};

use crate::chain::Chain;
use crate::leg::{Leg, LegFigures};
use crate::node::{Node, NodeFigures};
use crate::path::Path;
use crate::question::SheetQuestion;
use crate::sheet::Sheet;
use rules::fault::Fault;
use rules::limit::Limit;
use rules::rate::Rate;
use rules::tariff::Tariff;

fn node_figures_fit(figures: NodeFigures) -> bool
    ensures { result ≡ node_figures_fit figures.province figures.standalone figures.tight figures.congested }
{
    figures.province <= 99
        && (figures.standalone <= 1 && (figures.tight <= 1 && figures.congested <= 1))
}

impl Sheet {
    // The node of these figures, if it may be entered.
    pub(crate) fn check_node(&self, figures: NodeFigures) -> Result<Node, Fault<SheetQuestion>>
        ensures { Checked (node_questions (drawing self.now) figures.province figures.standalone figures.tight figures.congested) (λ n. (node_of n ≡ told_node figures) × (vec_len self.now.nodes < 40)) result }
    {
        if self.nodes.len() >= 40 {
            return Err(SheetQuestion::NodeCount.into());
        }
        if !node_figures_fit(figures) {
            return Err(SheetQuestion::NodeFigures.into());
        }
        Ok(Node {
            province: figures.province,
            standalone: figures.standalone == 1,
            tight: figures.tight == 1,
            congested: figures.congested == 1,
        })
    }

    // The leg of these figures, if it may be entered.
    pub(crate) fn check_leg(&self, figures: LegFigures) -> Result<Leg, Fault<SheetQuestion>>
        ensures { Checked (leg_questions (drawing self.now) (told_leg figures)) (λ l. (leg_of l ≡ told_leg figures) × (joins (vec_len self.now.nodes) (leg_of l) ≡ true) × (vec_len self.now.legs < 64)) result }
    {
        let count = self.nodes.len();
        let (from, to) = (figures.from as usize, figures.to as usize);
        if self.legs.len() >= 64 {
            return Err(SheetQuestion::LegCount.into());
        }
        if from >= count || to >= count || from == to {
            return Err(SheetQuestion::LegNodes.into());
        }
        Ok(Leg {
            from,
            to,
            rate: Rate::new(figures.rate).ok_or(SheetQuestion::LegFigures)?,
            tariff: Tariff::new(figures.tariff).ok_or(SheetQuestion::LegFigures)?,
            limit: Limit::new(figures.limit).ok_or(SheetQuestion::LegFigures)?,
        })
    }

    // The path along these legs, if it may be entered.
    pub(crate) fn check_path(&self, legs: &[u32]) -> Result<Path, Fault<SheetQuestion>>
        ensures { Checked (path_questions (drawing self.now) legs.now) (λ p. PathOf (drawing self.now).nodes (drawing self.now).legs legs.now p × (vec_len self.now.paths < 128)) result }
    {
        if self.paths.len() >= 128 {
            return Err(SheetQuestion::PathCount.into());
        }
        let chain = Chain::new(self.legs.as_slice(), legs).map_err(|place| Fault {
            question: SheetQuestion::PathLegs,
            place,
        })?;
        chain.linked().map_err(|place| Fault {
            question: SheetQuestion::PathChain,
            place,
        })?;
        chain.nodes_once().map_err(|place| Fault {
            question: SheetQuestion::PathNodes,
            place,
        })?;
        let (from, to) = (self.nodes[chain.start()], self.nodes[chain.end()]);
        if !from.may_trade(to) {
            return Err(SheetQuestion::PathEnds.into());
        }
        Ok(chain.path())
    }
}
