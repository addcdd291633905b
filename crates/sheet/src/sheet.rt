ghost use Rattle.std.specs.Prelude.{◌≡◌, ◌≤◌, true, vec_len, vec_capacity};
ghost use Rattle.rules.specs.Lists.{all_of};
ghost use Rattle.rules.specs.Network.{joins_all};
ghost use Rattle.sheet.specs.Views.{legs_of, nodes_of, is_sound};

use crate::leg::Leg;
use crate::node::Node;
use crate::path::Path;

// The nodes, legs and paths that were entered. Each leg joins two of the nodes, and each path is a chain of the legs that
// meets no node twice, whose ends may trade, with its figures worked out. All memory is reserved when it is made.
#[derive(Debug, Drop)]
pub struct Sheet {
    pub(crate) nodes: Vec<Node>,
    pub(crate) legs: Vec<Leg>,
    pub(crate) paths: Vec<Path>,
    ghost few_nodes: { vec_len nodes ≤ 40 },
    ghost few_legs: { vec_len legs ≤ 64 },
    ghost few_paths: { vec_len paths ≤ 128 },
    ghost node_room: { 40 ≤ vec_capacity nodes },
    ghost leg_room: { 64 ≤ vec_capacity legs },
    ghost path_room: { 128 ≤ vec_capacity paths },
    ghost joined: { joins_all (vec_len nodes) (legs_of legs.items) ≡ true },
    ghost sound: { all_of (is_sound (nodes_of nodes.items) (legs_of legs.items)) paths.items ≡ true },
}
