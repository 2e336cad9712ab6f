//! A network as it is stored.

ghost use Rattle.std.specs.Prelude.{◌≡◌, ◌≤◌};
ghost use Rattle.pmed_paths.specs.Network.{AreCounts, AreEdges, IsNetwork, network_of};
ghost use Rattle.pmed_paths.specs.Stored.{edges_in};

use location_terms::MAX_SITES;
use std::collections::BTreeMap;
use std::marker::Model;

/// Vertices with the numbers 1, 2, 3 and so on, edges without direction between different vertices,
/// each with a cost in millionths, and how many vertices are to be opened as medians. A clause sees the
/// edges as a map from pairs of vertices.
#[derive(Drop)]
pub struct Network {
    vertices: u32,
    medians: u32,
    edges: BTreeMap<(u32, u32), u64>,
}

impl Model for Network {
    ghost use Rattle.pmed_paths.specs.Network.{Network as Meaning, network_code, IsNetwork};
    ghost use Rattle.pmed_paths.specs.Stored.{stored_network};

    ghost Value = { Meaning };

    ghost coded = { network_code };

    ghost view = { stored_network };

    ghost invariant = { λ a. IsNetwork (stored_network a) };
}

impl Network {
    /// The network of these vertices and edges.
    pub(crate) fn new(vertices: u32, medians: u32, edges: BTreeMap<(u32, u32), u64>) -> Network
        requires counts { AreCounts vertices medians }
        requires joins { AreEdges vertices (edges_in edges) }
        ensures { result ≡ network_of vertices medians (edges_in edges) }
    {
        Network {
            vertices,
            medians,
            edges,
        }
    }

    /// The number of vertices, from 1 to 3,000.
    pub fn vertices(&self) -> u32
        ensures count { result ≡ self.now.vertices }
        ensures network { IsNetwork self.now }
    {
        self.vertices
    }

    /// How many vertices are to be opened, from 1 to 3,000; it may be more than there are.
    pub fn medians(&self) -> u32
        ensures { result ≡ self.now.medians }
    {
        self.medians
    }

    /// The edges by their ends, of which the lesser number comes first.
    pub(crate) fn edges(&self) -> &BTreeMap<(u32, u32), u64>
        ensures { edges_in result.now ≡ self.now.edges }
    {
        &self.edges
    }
}
