ghost use Rattle.std.specs.Prelude.{◌≡◌, ◌≤◌, length, MatchOption};
ghost use Rattle.sheet.specs.Sheets.{drawing, NodeRead, LegRead, LegsRead, PathRead, PathsRead};

use crate::leg::Leg;
use crate::node::Node;
use crate::path::Path;
use crate::sheet::Sheet;

// What is read of three lists, by the library's own methods; one generic reader would be no shorter, and have the same names above it.
impl Sheet {
    pub fn node_count(&self) -> usize
        ensures { result ≡ length (drawing self.now).nodes }
    {
        self.nodes.len()
    }

    pub fn leg_count(&self) -> usize
        ensures { result ≡ length (drawing self.now).legs }
    {
        self.legs.len()
    }

    pub fn path_count(&self) -> usize
        ensures { result ≡ length (drawing self.now).paths }
    {
        self.paths.len()
    }

    // All legs, in the order of their numbers.
    #[tactic(auto, using(crate::proofs::Keeping::sheet_legs))]
    pub fn legs(&self) -> &[Leg]
        ensures { LegsRead (drawing self.now) result.now }
    {
        self.legs.as_slice()
    }

    // All paths, in the order of their numbers.
    #[tactic(auto, using(crate::proofs::Keeping::sheet_paths))]
    pub fn paths(&self) -> &[Path]
        ensures { PathsRead (drawing self.now) result.now }
    {
        self.paths.as_slice()
    }

    // The node of this number; none where it is not entered.
    pub fn node(&self, number: usize) -> Option<Node>
        ensures { MatchOption result (length (drawing self.now).nodes ≤ number) (λ n. NodeRead (drawing self.now) number n) }
    {
        self.nodes.get(number).copied()
    }

    // The leg of this number; none where it is not entered.
    pub fn leg(&self, number: usize) -> Option<Leg>
        ensures { MatchOption result (length (drawing self.now).legs ≤ number) (λ l. LegRead (drawing self.now) number l) }
    {
        self.legs().get(number).copied()
    }

    // The path of this number, with its figures worked out from the sheet's legs; none where it is not entered.
    pub fn path(&self, number: usize) -> Option<&Path>
        ensures { MatchOption result (length (drawing self.now).paths ≤ number) (λ p. PathRead (drawing self.now) number p.now) }
    {
        self.paths().get(number)
    }
}
