ghost use Rattle.std.specs.Prelude.{◌≡◌};
ghost use Rattle.sheet.specs.Views.{told_leg};
ghost use Rattle.reader.specs.Case.{Acts, line_leg, nth_figure};

use rules::fault::Fault;
use sheet::leg::LegFigures;
use sheet::node::NodeFigures;
use sheet::question::SheetQuestion;
use sheet::sheet::Sheet;
use text::word::Word;

// The figure of this number, 0 where there is none.
fn at(figures: &[u32], number: usize) -> u32
    ensures { result ≡ nth_figure figures.now number }
{
    figures.get(number).copied().unwrap_or(0)
}

fn node_figures(figures: &[u32]) -> NodeFigures
    ensures province { result.province ≡ nth_figure figures.now 0 }
    ensures standalone { result.standalone ≡ nth_figure figures.now 1 }
    ensures tight { result.tight ≡ nth_figure figures.now 2 }
    ensures congested { result.congested ≡ nth_figure figures.now 3 }
{
    NodeFigures {
        province: at(figures, 0),
        standalone: at(figures, 1),
        tight: at(figures, 2),
        congested: at(figures, 3),
    }
}

fn leg_figures(figures: &[u32]) -> LegFigures
    ensures { told_leg result ≡ line_leg figures.now }
{
    LegFigures {
        from: at(figures, 0),
        to: at(figures, 1),
        rate: at(figures, 2),
        tariff: at(figures, 3),
        limit: at(figures, 4),
    }
}

// Enters what a line of this word and these figures says. Each word takes figures of its own shape, so a table of functions would be no plainer than
// this match.
pub(crate) fn enter(
    sheet: &mut Sheet,
    word: Word,
    figures: &[u32],
) -> Result<(), Fault<SheetQuestion>>
    ensures { Acts sheet.old sheet.new word figures.now result }
{
    match word {
        Word::Node => {
            sheet.enter_node(node_figures(figures))?;
        }
        Word::Leg => {
            sheet.enter_leg(leg_figures(figures))?;
        }
        Word::Path => {
            sheet.enter_path(figures)?;
        }
        Word::Section | Word::Limits | Word::Sell | Word::Buy | Word::Go => {}
    }
    Ok(())
}
