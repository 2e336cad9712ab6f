//! Reads the p-median files of the OR-Library: networks of vertices and edges, and the instances in
//! which each vertex is a site and a customer and serves along a cheapest walk.
//!
//! A file has the number of vertices, the number of edges and the number of medians, and for each edge
//! its two ends and its cost. Line ends don't matter.
#![tactic(auto)]

mod arcs;
mod distances;
mod file;
mod labels;
mod laws;
mod limits;
mod median;
mod network;

pub use distances::{Distances, least_from};
pub use file::read_net;
pub use laws::{least_walks, meanings};
pub use limits::MAX_EDGES;
pub use median::{PathFault, read, to_instance};
pub use network::Network;

#[cfg(test)]
mod tests;
