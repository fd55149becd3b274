//! The cut into one group.

ghost use Rattle.std.specs.Prelude.{◌≡◌, All, IfOk, None};
ghost use Rattle.partition_cut.specs.AllowedCut.{IsCutOf};
ghost use Rattle.partition_cut.specs.NamedCut.{one_cut};
ghost use Rattle.partition_cut.specs.Network.{IsShape, plain_cut, plain_shape};

use crate::network::{Cut, Shape};
use sim_base::NoMemory;

/// The cut that puts all nodes into one group.
pub fn one(shape: &Shape) -> Result<Cut, NoMemory>
    requires { IsShape shape.now }
    ensures allowed { IfOk result (λ cut. IsCutOf shape.now cut) }
    ensures together { IfOk result (λ cut. All (λ group. group ≡ 0) cut.group_of.items) }
    ensures no_lookahead { IfOk result (λ cut. cut.lookahead ≡ None) }
    ensures named { IfOk result (λ cut. plain_cut cut ≡ one_cut (plain_shape shape.now)) }
{
    let alloc = *shape.links.allocator();
    let group_of = vec![in alloc; 0; shape.nodes as usize]?;
    Ok(Cut {
        group_of,
        groups: shape.nodes.min(1),
        lookahead: None,
    })
}
