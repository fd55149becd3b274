//! Networks, and their cuts into groups.

use sim_base::Time;

/// A network as its cutting sees it: the number of nodes, the links with the nodes at their ends and
/// their delays, and the LANs with their members.
#[derive(Debug, Drop)]
pub struct Shape {
    pub nodes: u32,
    pub links: Vec<(u32, u32, Time)>,
    pub lans: Vec<Vec<u32>>,
}

/// A cut: the group of each node, the number of groups, and the least delay of a link whose ends are
/// in two groups, if there is such a link.
#[derive(Debug, Drop)]
pub struct Cut {
    pub group_of: Vec<u32>,
    pub groups: u32,
    pub lookahead: Option<Time>,
}
