// Network limits, told in one way: the trait that every grid meets, the grid of a sheet's legs, and sections on any grid.
#![tactic(auto)]

mod add;
pub mod carry;
pub mod grid;
pub mod laws;
mod layers;
pub mod leg_gauges;
pub mod legs;
mod make;
pub mod question;
mod rooms;
pub mod section_gauges;
mod section_weights;
pub mod sections;
mod weigh;
#[cfg(test)]
mod wide;

#[cfg(test)]
mod tests {
    use crate::carry::carries_one;
    use crate::grid::Grid;
    use crate::legs::LegGrid;
    use crate::question::GridQuestion;
    use crate::sections::SectionGrid;
    use crate::wide::Wide;
    use rules::fault::Fault;
    use rules::power::Mw;
    use sheet::leg::LegFigures;
    use sheet::node::NodeFigures;
    use sheet::sheet::Sheet;
    use std::alloc::Global;
    use std::process::Abort;
    use std::test::Fail;

    // What adding says: 0 with the gauge's number, or the question's number with the place.
    fn added(answer: Result<usize, Fault<GridQuestion>>) -> (u32, usize) {
        match answer {
            Ok(number) => (0, number),
            Err(fault) => (fault.question.number(), fault.place),
        }
    }

    // What booking says: 0, or the question's number.
    fn booked<G: Grid>(grid: &mut G, path: usize, mw: u32) -> u32 {
        match grid.book(path, Mw(mw)) {
            Ok(()) => 0,
            Err(fault) => fault.question.number(),
        }
    }

    fn rooms_are<G: Grid>(rt: &impl Abort, grid: &G, rooms: &[u64]) {
        assert_eq!(rt; grid.gauges(), rooms.len());
        for (gauge, room) in rooms.iter().enumerate() {
            assert_eq!(rt; grid.room(gauge).0, *room);
        }
        assert_eq!(rt; grid.room(rooms.len()).0, 0);
    }

    fn weights_are<G: Grid>(rt: &impl Abort, grid: &G, path: usize, weights: &[u64]) {
        for (gauge, weight) in weights.iter().enumerate() {
            assert_eq!(rt; grid.weight(path, gauge).0, *weight);
        }
        assert_eq!(rt; grid.weight(path, weights.len()).0, 0);
    }

    fn leg(from: u32, to: u32, rate: u32, limit: u32) -> LegFigures {
        LegFigures {
            from,
            to,
            rate,
            tariff: 0,
            limit,
        }
    }

    // Legs of 100, 50 and 10 MW; a path along the first, one along the first two, and one along the third.
    fn three_legs(rt: &impl Abort, heap: Global) -> Result<LegGrid, Fail> {
        let mut sheet = Sheet::new(heap)?;
        for province in 0..3 {
            let node = NodeFigures {
                province,
                standalone: 0,
                tight: 0,
                congested: 0,
            };
            assert!(rt; sheet.enter_node(node).is_ok());
        }
        assert!(rt; sheet.enter_leg(leg(0, 1, 50_000, 100)).is_ok());
        assert!(rt; sheet.enter_leg(leg(1, 2, 20_000, 50)).is_ok());
        assert!(rt; sheet.enter_leg(leg(0, 2, 0, 10)).is_ok());
        assert!(rt; sheet.enter_path(&[0]).is_ok());
        assert!(rt; sheet.enter_path(&[0, 1]).is_ok());
        assert!(rt; sheet.enter_path(&[2]).is_ok());
        Ok(LegGrid::new(heap, &sheet)?)
    }

    // A section grid can be named without a bound on what it stands on.
    fn sections_of<G>(grid: &SectionGrid<G>) -> usize {
        grid.section_count()
    }

    #[test]
    fn legs_by_hand(rt: HostRuntime) -> Result<(), Fail> {
        let mut grid = three_legs(&rt, rt.alloc())?;
        assert_eq!(rt; (grid.ground_gauges(), grid.paths()), (3, 3));
        rooms_are(&rt, &grid, &[100_000_000, 50_000_000, 10_000_000]);
        weights_are(&rt, &grid, 0, &[1_000_000, 0, 0]);
        weights_are(&rt, &grid, 1, &[1_000_000, 950_000, 0]);
        weights_are(&rt, &grid, 2, &[0, 0, 1_000_000]);
        // An unknown path weighs nothing.
        weights_are(&rt, &grid, 3, &[0, 0, 0]);
        assert_eq!(rt; booked(&mut grid, 1, 10), 0);
        rooms_are(&rt, &grid, &[90_000_000, 40_500_000, 10_000_000]);
        // 43 MW would take 40,850,000 W of the second leg.
        assert_eq!(rt; booked(&mut grid, 1, 43), 19);
        assert_eq!(rt; booked(&mut grid, 3, 0), 18);
        assert_eq!(rt; booked(&mut grid, 1, 0), 0);
        // A refusal leaves the rooms.
        rooms_are(&rt, &grid, &[90_000_000, 40_500_000, 10_000_000]);
        assert_eq!(rt; booked(&mut grid, 1, 42), 0);
        rooms_are(&rt, &grid, &[48_000_000, 600_000, 10_000_000]);
        assert_eq!(rt; booked(&mut grid, 2, 10), 0);
        assert_eq!(rt; booked(&mut grid, 2, 1), 19);
        assert_eq!(rt; carries_one(&grid, 0), true);
        assert_eq!(rt; carries_one(&grid, 1), false);
        assert_eq!(rt; carries_one(&grid, 2), false);
        assert_eq!(rt;
            carries_one(&grid, 3),
            false,
            "an unknown path carries nothing"
        );
        Ok(())
    }

    #[test]
    fn sections_by_hand(rt: HostRuntime) -> Result<(), Fail> {
        let mut grid = SectionGrid::new(three_legs(&rt, rt.alloc())?);
        assert_eq!(rt; added(grid.add_section(20, &[0, 1])), (0, 3));
        assert_eq!(rt; added(grid.add_section(100_000, &[0, 1, 2])), (0, 4));
        assert_eq!(rt; (grid.ground_gauges(), grid.section_count()), (3, 2));
        weights_are(&rt, &grid, 0, &[1_000_000, 0, 0, 1_000_000, 1_000_000]);
        weights_are(
            &rt,
            &grid,
            1,
            &[1_000_000, 950_000, 0, 1_950_000, 1_950_000],
        );
        weights_are(&rt, &grid, 2, &[0, 0, 1_000_000, 0, 1_000_000]);
        assert_eq!(rt; booked(&mut grid, 1, 10), 0);
        let rooms = [90_000_000, 40_500_000, 10_000_000, 500_000, 99_980_500_000];
        rooms_are(&rt, &grid, &rooms);
        // The legs have room, the first section has not.
        assert_eq!(rt; booked(&mut grid, 1, 1), 19);
        assert_eq!(rt; booked(&mut grid, 0, 1), 19);
        // The sections have room, the third leg has not.
        assert_eq!(rt; booked(&mut grid, 2, 11), 19);
        // A refusal leaves every layer.
        rooms_are(&rt, &grid, &rooms);
        assert_eq!(rt; carries_one(&grid, 0), false);
        assert_eq!(rt; carries_one(&grid, 2), true);
        assert_eq!(rt; booked(&mut grid, 2, 10), 0);
        rooms_are(
            &rt,
            &grid,
            &[90_000_000, 40_500_000, 0, 500_000, 99_970_500_000],
        );
        Ok(())
    }

    #[test]
    fn a_stack(rt: HostRuntime) -> Result<(), Fail> {
        let mut lower = SectionGrid::new(three_legs(&rt, rt.alloc())?);
        assert_eq!(rt; added(lower.add_section(60, &[0, 1])), (0, 3));
        assert_eq!(rt; booked(&mut lower, 1, 10), 0);
        let mut grid = SectionGrid::new(lower);
        assert_eq!(rt; sections_of(&grid), 0);
        // A section below is a gauge, and not ground.
        assert_eq!(rt; added(grid.add_section(5, &[0, 3])), (16, 2));
        assert_eq!(rt;
            added(grid.add_section(12, &[1, 2])),
            (0, 4),
            "a new section is full"
        );
        weights_are(&rt, &grid, 1, &[1_000_000, 950_000, 0, 1_950_000, 950_000]);
        rooms_are(
            &rt,
            &grid,
            &[90_000_000, 40_500_000, 10_000_000, 40_500_000, 12_000_000],
        );
        // 13 MW would take 12,350,000 W of the upper section.
        assert_eq!(rt; booked(&mut grid, 1, 13), 19);
        assert_eq!(rt; booked(&mut grid, 1, 12), 0);
        rooms_are(
            &rt,
            &grid,
            &[78_000_000, 29_100_000, 10_000_000, 17_100_000, 600_000],
        );
        // 18 MW along the first leg would take 18,000,000 W of the lower section.
        assert_eq!(rt; booked(&mut grid, 0, 18), 19);
        assert_eq!(rt; booked(&mut grid, 3, 1), 18);
        rooms_are(
            &rt,
            &grid,
            &[78_000_000, 29_100_000, 10_000_000, 17_100_000, 600_000],
        );
        Ok(())
    }

    #[test]
    fn sections_that_are_refused(rt: HostRuntime) -> Result<(), Fail> {
        let mut grid = SectionGrid::new(three_legs(&rt, rt.alloc())?);
        let many = [0, 1, 2, 3, 4, 5, 6, 7, 8, 9, 10, 11, 12, 13, 14, 15, 16];
        let tries: [(u32, &[u32], (u32, usize)); 9] = [
            (100_001, &[], (16, 0)),
            (100_001, &many, (16, 0)),
            (100_001, &[3], (16, 1)),
            (0, &[0, 3], (16, 2)),
            (0, &[0, 0], (16, 2)),
            (0, &[0, 2, 1], (16, 3)),
            (100_001, &[0, 2], (17, 0)),
            (100_000, &[0, 2], (0, 3)),
            (0, &[2], (0, 4)),
        ];
        for (limit, gauges, says) in tries.iter() {
            assert_eq!(rt; added(grid.add_section(*limit, *gauges)), *says);
        }
        assert_eq!(rt;
            (grid.gauges(), grid.section_count()),
            (5, 2),
            "a refusal leaves the grid"
        );
        for number in 5..11 {
            assert_eq!(rt; added(grid.add_section(1, &[1])), (0, number));
        }
        assert_eq!(rt; added(grid.add_section(100_001, &[])), (15, 0), "8 are all");
        let mut above = SectionGrid::new(grid);
        assert_eq!(rt;
            added(above.add_section(1, &[1])),
            (0, 11),
            "fewer than 8 here"
        );
        Ok(())
    }

    #[test]
    fn as_many_gauges_as_may_be(rt: HostRuntime) {
        let mut grid = SectionGrid::new(Wide::new(255));
        let sixteen = [0, 1, 2, 3, 4, 5, 6, 7, 8, 9, 10, 11, 12, 13, 14, 254];
        assert_eq!(rt; added(grid.add_section(7, &sixteen)), (0, 255));
        assert_eq!(rt; added(grid.add_section(7, &[0])), (15, 0), "256 in all");
        assert_eq!(rt; (grid.gauges(), grid.section_count()), (256, 1));
        assert_eq!(rt; (grid.room(254).0, grid.room(255).0), (0, 7_000_000));
    }
}
