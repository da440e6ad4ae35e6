//! Reports of small graphs, worked out by hand.

/// One vertex and no edge.
pub const LONE: &[u8] = b"superstep,0,11.390942
superstep,1,11.390942
end,1,stable
gain,0.000000
vertex,x,11.390942,0.000000,0.000000,1.000000,15
";

/// Nothing at all.
pub const NOTHING: &[u8] = b"superstep,0,0.000000
superstep,1,0.000000
end,1,stable
gain,0.000000
";

/// Two vertices, each with an edge to the other.
pub const CYCLE: &[u8] = b"superstep,0,22.506296
superstep,1,23.560752
superstep,2,23.560752
end,2,stable
gain,0.527228
vertex,a,11.780376,0.389434,2.567829,356.356298,14
vertex,b,11.780376,0.665022,1.503709,208.680703,14
";

/// The two edges, of whose vertices only a is counted.
pub const ONE_COUNTED: &[u8] = b"superstep,0,32.926942
superstep,1,33.549884
superstep,2,34.172826
superstep,3,34.172826
end,3,stable
gain,0.467206
vertex,a,11.390942,0.000000,0.000000,1.000000,15
vertex,b,11.390942,0.622942,1.605285,208.291557,15
vertex,c,11.390942,0.311471,0.802642,104.145778,15
";
