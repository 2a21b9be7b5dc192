// The cube: its three kinds of number, the ports that lead towards a target, and the order in which they are tried.
#![tactic(auto)]

mod board;
mod first_port_table;
mod folds;
mod helical;
mod kinds;
mod routing_type;
mod vector_ports;
mod vectors;

pub use board::{Board, NarrowBoard, WideBoard};
pub use folds::{
    POSITIONS, axis, axis_ports, folded_neighbour, partner, partners, present, with_partners,
};
pub use helical::first_by_rule;
pub use kinds::{
    CHANNELS, Circuit, LARGEST_DIMENSION, Node, PORTS, Port, channel_of, circuit_of, source_of,
};
pub use routing_type::RoutingType;
pub use vector_ports::VectorPorts;
pub use vectors::{
    lowest_of, lowest_port, neighbour, node_count, uphill_vector, wide_without, without,
};
