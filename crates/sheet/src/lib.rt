// Nodes, legs and paths: what may be entered, and what a MW sent along a path becomes.
#![tactic(auto)]

mod chain;
mod check;
mod enter;
pub mod laws;
pub mod leg;
pub mod node;
mod passages;
pub mod path;
pub mod question;
mod reads;
pub mod sheet;
mod trace;

#[cfg(test)]
mod tests {
    use crate::leg::LegFigures;
    use crate::node::NodeFigures;
    use crate::question::SheetQuestion;
    use crate::sheet::Sheet;
    use rules::fault::Fault;
    use rules::price::Yuan;
    use std::process::Abort;
    use std::test::Fail;

    // What an entry says: 0 with the item's number, or the question's number with the place.
    fn said(answer: Result<usize, Fault<SheetQuestion>>) -> (u32, usize) {
        match answer {
            Ok(number) => (0, number),
            Err(fault) => (fault.question.number(), fault.place),
        }
    }

    fn counts(sheet: &Sheet) -> (usize, usize, usize) {
        (sheet.node_count(), sheet.leg_count(), sheet.path_count())
    }

    fn node(figures: [u32; 4]) -> NodeFigures {
        let [province, standalone, tight, congested] = figures;
        NodeFigures {
            province,
            standalone,
            tight,
            congested,
        }
    }

    fn leg(figures: [u32; 5]) -> LegFigures {
        let [from, to, rate, tariff, limit] = figures;
        LegFigures {
            from,
            to,
            rate,
            tariff,
            limit,
        }
    }

    // Enters the nodes of the table, each with what its entry must say.
    fn enter_nodes(rt: &impl Abort, sheet: &mut Sheet, table: &[([u32; 4], (u32, usize))]) {
        for (figures, says) in table.iter() {
            assert_eq!(rt; said(sheet.enter_node(node(*figures))), *says);
        }
    }

    fn enter_legs(rt: &impl Abort, sheet: &mut Sheet, table: &[([u32; 5], (u32, usize))]) {
        for (figures, says) in table.iter() {
            assert_eq!(rt; said(sheet.enter_leg(leg(*figures))), *says);
        }
    }

    fn enter_paths(rt: &impl Abort, sheet: &mut Sheet, table: &[(&[u32], (u32, usize))]) {
        for (legs, says) in table.iter() {
            assert_eq!(rt; said(sheet.enter_path(*legs)), *says);
        }
    }

    // Ten nodes, each in a province of its own, and a leg from each to the next.
    fn enter_row(rt: &impl Abort, sheet: &mut Sheet) {
        for i in 0..10 {
            assert_eq!(rt; said(sheet.enter_node(node([i, 0, 0, 0]))).0, 0);
        }
        for i in 0..9 {
            assert_eq!(rt; said(sheet.enter_leg(leg([i, i + 1, 200_000, 0, 0]))).0, 0);
        }
    }

    // What lands of each MW sent along the path, and what it charges.
    fn path_is(
        rt: &impl Abort,
        sheet: &Sheet,
        path: usize,
        figures: (u64, u64),
    ) -> Result<(), Fail> {
        let path = sheet.path(path).ok_or("no path")?;
        assert_eq!(rt; (path.yields.watts, path.charge.billionths), figures);
        Ok(())
    }

    // A leg of the path, with what enters and what leaves it.
    fn passage_is(
        rt: &impl Abort,
        sheet: &Sheet,
        path: usize,
        place: usize,
        figures: (usize, u64, u64),
    ) -> Result<(), Fail> {
        let passages = sheet.path(path).ok_or("no path")?.passages();
        assert!(rt; place < passages.len());
        let passage = passages[place];
        assert_eq!(rt; (passage.leg, passage.enters.0, passage.leaves.0), figures);
        Ok(())
    }

    fn claim_is(
        rt: &impl Abort,
        sheet: &Sheet,
        path: usize,
        bid: i32,
        billionths: i64,
    ) -> Result<(), Fail> {
        let Some(bid) = Yuan::new(bid) else {
            return Err(Fail::new("no bid"));
        };
        assert_eq!(rt; sheet.path(path).ok_or("no path")?.claim(bid).0, billionths);
        Ok(())
    }

    #[test]
    fn figures_at_their_limits(rt: HostRuntime) -> Result<(), Fail> {
        let mut sheet = Sheet::new(rt.alloc())?;
        let nodes = [
            ([99, 1, 1, 1], (0, 0)),
            ([0, 0, 0, 0], (0, 1)),
            ([100, 0, 0, 0], (6, 0)),
            ([0, 2, 0, 0], (6, 0)),
            ([0, 0, 2, 0], (6, 0)),
            ([0, 0, 0, 2], (6, 0)),
        ];
        let legs = [
            ([0, 1, 200_000, 1_000_000, 100_000], (0, 0)),
            ([0, 1, 200_001, 0, 0], (9, 0)),
            ([0, 0, 200_001, 0, 0], (8, 0)),
            ([0, 1, 0, 1_000_001, 0], (9, 0)),
            ([0, 1, 0, 0, 100_001], (9, 0)),
            ([2, 1, 0, 0, 0], (8, 0)),
            ([0, 2, 0, 0, 0], (8, 0)),
            ([1, 1, 0, 0, 0], (8, 0)),
        ];
        enter_nodes(&rt, &mut sheet, &nodes);
        enter_legs(&rt, &mut sheet, &legs);
        assert_eq!(rt; counts(&sheet), (2, 1, 0), "a refusal leaves the counts");
        Ok(())
    }

    #[test]
    fn a_full_sheet(rt: HostRuntime) -> Result<(), Fail> {
        let mut sheet = Sheet::new(rt.alloc())?;
        for i in 0..40 {
            assert_eq!(rt; said(sheet.enter_node(node([i, 0, 0, 0]))), (0, i as usize));
        }
        for i in 0..64 {
            assert_eq!(rt; said(sheet.enter_leg(leg([0, 1, 0, 0, 0]))), (0, i));
        }
        for i in 0..128 {
            assert_eq!(rt; said(sheet.enter_path(&[0])), (0, i));
        }
        // Where there is no room, the figures do not matter.
        assert_eq!(rt; said(sheet.enter_node(node([100, 2, 0, 0]))), (5, 0));
        assert_eq!(rt; said(sheet.enter_leg(leg([0, 0, 200_001, 0, 0]))), (7, 0));
        assert_eq!(rt; said(sheet.enter_path(&[])), (10, 0));
        assert_eq!(rt;
            counts(&sheet),
            (40, 64, 128),
            "a refusal leaves the counts"
        );
        Ok(())
    }

    #[test]
    fn paths_that_are_refused(rt: HostRuntime) -> Result<(), Fail> {
        let mut sheet = Sheet::new(rt.alloc())?;
        enter_row(&rt, &mut sheet);
        // A node more in province 0, a standalone one there, and legs that lead back.
        enter_nodes(
            &rt,
            &mut sheet,
            &[([0, 0, 0, 0], (0, 10)), ([0, 1, 0, 0], (0, 11))],
        );
        enter_legs(
            &rt,
            &mut sheet,
            &[
                ([1, 10, 0, 0, 0], (0, 9)),
                ([1, 11, 0, 0, 0], (0, 10)),
                ([2, 0, 0, 0, 0], (0, 11)),
                ([3, 1, 0, 0, 0], (0, 12)),
            ],
        );
        let paths: [(&[u32], (u32, usize)); 13] = [
            (&[], (11, 0)),
            (&[0, 1, 2, 3, 4, 5, 6, 7, 8], (11, 0)),
            (&[99, 99, 99, 99, 99, 99, 99, 99, 99], (11, 0)),
            (&[0, 1, 13], (11, 3)),
            (&[0, 2], (12, 2)),
            (&[0, 1, 11, 3], (12, 4)),
            (&[0, 1, 11], (13, 3)),
            (&[0, 1, 2, 12], (13, 4)),
            (&[0, 9], (14, 0)),
            (&[0, 10], (0, 0)),
            (&[0, 1, 2, 3, 4, 5, 6, 7], (0, 1)),
            (&[8], (0, 2)),
            (&[13], (11, 1)),
        ];
        enter_paths(&rt, &mut sheet, &paths);
        assert_eq!(rt; counts(&sheet), (12, 13, 3), "a refusal leaves the counts");
        Ok(())
    }

    #[test]
    fn worked_figures(rt: HostRuntime) -> Result<(), Fail> {
        let mut sheet = Sheet::new(rt.alloc())?;
        enter_row(&rt, &mut sheet);
        let legs = [
            ([0, 1, 50_000, 30_000, 0], (0, 9)),
            ([1, 2, 20_000, 10_000, 0], (0, 10)),
        ];
        enter_legs(&rt, &mut sheet, &legs);
        let paths: [(&[u32], (u32, usize)); 3] = [
            (&[9], (0, 0)),
            (&[9, 10], (0, 1)),
            (&[0, 1, 2, 3, 4, 5, 6, 7], (0, 2)),
        ];
        enter_paths(&rt, &mut sheet, &paths);
        path_is(&rt, &sheet, 0, (950_000, 28_500_000_000))?;
        path_is(&rt, &sheet, 1, (931_000, 37_810_000_000))?;
        path_is(&rt, &sheet, 2, (167_772, 0))?;
        passage_is(&rt, &sheet, 1, 0, (9, 1_000_000, 950_000))?;
        passage_is(&rt, &sheet, 1, 1, (10, 950_000, 931_000))?;
        claim_is(&rt, &sheet, 0, 500, 446_500_000_000)?;
        claim_is(&rt, &sheet, 0, -100, -123_500_000_000)
    }

    #[test]
    fn paths_compared_and_printed(rt: HostRuntime) -> Result<(), Fail> {
        let mut sheet = Sheet::new(rt.alloc())?;
        enter_row(&rt, &mut sheet);
        // A second leg from node 0 to node 1, like the first.
        enter_legs(&rt, &mut sheet, &[([0, 1, 200_000, 0, 0], (0, 9))]);
        let paths: [(&[u32], (u32, usize)); 3] = [(&[0], (0, 0)), (&[0], (0, 1)), (&[9], (0, 2))];
        enter_paths(&rt, &mut sheet, &paths);
        let path = sheet.path(0).ok_or("no path")?;
        assert!(rt; *path == *sheet.path(1).ok_or("no path")?);
        assert!(rt;
            *path != *sheet.path(2).ok_or("no path")?,
            "over another leg"
        );
        let printed = format!(in rt.alloc(); "{path:?}")?;
        assert_eq!(rt;
            printed.as_str(),
            "Path { from: 0, to: 1, yields: Yield { watts: 800000 }, \
             charge: Charge { billionths: 0 }, passages: [Passage { leg: 0, enters: Watts(1000000), leaves: Watts(800000) }] }"
        );
        Ok(())
    }
}
