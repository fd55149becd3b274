//! A net of five nodes, and the tokens with which a run begins.

use model_tokens::{Link, Net, Part, Token, group_at, put};
use sim_base::{Key, NodeId, Time};
use std::alloc::{AllocError, Global};

/// Five nodes, each with a link to another.
pub fn net(alloc: Global, allowance: u64) -> Result<Net, AllocError> {
    Ok(Net {
        links: vec![in alloc;
            Link { to: 4, delay: 7 },
            Link { to: 3, delay: 6 },
            Link { to: 1, delay: 4 },
            Link { to: 0, delay: 3 },
            Link { to: 0, delay: 7 },
        ]?,
        allowance,
        stop: 60,
    })
}

/// A token that a node has sent itself.
fn own_token(node: u32, time: u64, count: u64, hops: u64) -> Token {
    Token {
        key: Key {
            time: Time(time),
            node: NodeId(node),
            sent: Time(0),
            by: NodeId(node),
            count,
        },
        hops,
    }
}

/// A group's part of the net before a run: the tokens that are for its nodes.
pub fn opening(alloc: Global, groups: &[u32], group: u32) -> Result<Part, AllocError> {
    let mut pending = Vec::new(alloc);
    for token in [
        own_token(0, 3, 0, 6),
        own_token(0, 3, 1, 5),
        own_token(1, 1, 0, 7),
        own_token(2, 3, 0, 30),
        own_token(2, 6, 1, 10),
        own_token(4, 6, 0, 30),
    ] {
        if group_at(groups, token.key.node.0) == group {
            put(&mut pending, token)?;
        }
    }
    Ok(Part {
        counts: vec![in alloc; 2; 5]?,
        pending,
        sent: Vec::new(alloc),
        fired: Vec::new(alloc),
    })
}
