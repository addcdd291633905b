ghost use Rattle.std.specs.Prelude.{◌≡◌, ◌≤◌};

// A node's figures as they come, before they are asked.
#[derive(Clone, Copy, PartialEq, Eq, Debug)]
pub struct NodeFigures {
    pub province: u32,
    pub standalone: u32,
    pub tight: u32,
    pub congested: u32,
}

// A trading node: its province, and its three marks.
#[derive(Clone, Copy, PartialEq, Eq, Debug)]
pub struct Node {
    pub province: u32,
    pub standalone: bool,
    pub tight: bool,
    pub congested: bool,
    ghost within: { province ≤ 99 },
}

impl Node {
    ghost use Rattle.rules.specs.Network.{may_trade};
    ghost use Rattle.sheet.specs.Views.{node_of};

    // Two nodes may trade that lie in different provinces, or of which one is standalone.
    pub(crate) fn may_trade(self, other: Node) -> bool
        ensures { result ≡ may_trade (node_of self) (node_of other) }
    {
        self.province != other.province || (self.standalone || other.standalone)
    }
}
