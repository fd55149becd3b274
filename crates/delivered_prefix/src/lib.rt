//! The law of the delivered prefix, said of what nodes do: of two nodes' connections, each taking any inputs, what the sink
//! of a connection between them delivers is a prefix of what its opener has written.
#![tactic(auto)]

mod law;

pub use law::{handshakes_begin_transfers, inputs_concern_one_connection, nodes_deliver_a_prefix};
