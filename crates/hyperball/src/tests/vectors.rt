//! Checkpoints of two edges, from a to b and from b to c, in two partitions: a and c are of the first, and b of the second.
//! Counters have 16 registers under seed 0. `tests/vectors.py tests` prints this file, from the definitions and the formats
//! alone: nothing of it comes from the program.
//!
//! A checkpoint has a line for what is before the digest of the job, and two for that. Four follow for each vertex:
//! its mark, its estimate and harmonic centrality, its sum of distances, its registers. Then comes a line for the sum of
//! the estimates at each superstep, one for what is heard and whether a change is, one for the registers accumulated of
//! each vertex, one for the number of batches, and two for the SHA-256 of all that.

/// Partition 0 at the end: 291 bytes.
pub(super) const FIRST_END: &[u8] = b"HBCK\x02\x04\0\x02\0\0\0\0\0\x03\0\0\0\x02\0\0\0\x03\
\xe4\x87\x78\x82\x8d\xfe\xa5\x0f\x8c\x6f\x4c\x3f\x13\xc9\x4f\xf2\
\xeb\xd3\x33\xd7\xa4\x76\x10\x77\x8d\x84\xb6\xc7\xed\x7a\x08\xd3\
\0\
\0\0\0\0\0\xad\xcf\xde\0\0\0\0\0\0\0\0\
\0\0\0\0\0\0\0\0\0\0\0\0\0\0\0\0\
\0\0\0\0\0\0\0\0\0\0\0\0\0\0\x03\0\
\0\
\0\0\0\0\0\xbd\x78\x81\0\0\0\0\0\x0b\x76\xaa\
\0\0\0\0\0\0\0\0\0\0\0\0\0\x1c\x52\xbf\
\x02\0\0\0\0\0\x01\0\0\0\0\0\0\0\x03\0\
\0\0\0\0\0\0\0\0\0\0\0\0\x01\x5a\x33\x03\
\0\0\0\0\0\0\0\0\0\0\0\0\x01\x60\x0a\xfc\
\0\0\0\0\0\0\0\0\0\0\0\0\x01\x6b\x48\x5f\
\0\0\0\0\0\0\0\0\0\0\0\0\x01\x6b\x48\x5f\
\0\0\0\0\0\0\0\x02\0\
\0\0\0\0\0\0\0\0\0\0\0\0\0\0\x03\0\
\x02\0\0\0\0\0\x01\0\0\0\0\0\0\0\x03\0\
\0\0\
\xc5\x54\x91\x54\x62\x72\xb3\x68\x45\xe8\xda\xf7\xac\x80\x41\xc4\
\x48\xb3\x30\x98\x8d\x2b\x8b\xab\x55\x29\x51\xa3\xe7\x42\x1e\x2d";

/// Partition 1 at the end: 226 bytes.
pub(super) const SECOND_END: &[u8] = b"HBCK\x02\x04\0\x02\0\x01\0\0\0\x03\0\0\0\x01\0\0\0\x03\
\xe4\x87\x78\x82\x8d\xfe\xa5\x0f\x8c\x6f\x4c\x3f\x13\xc9\x4f\xf2\
\xeb\xd3\x33\xd7\xa4\x76\x10\x77\x8d\x84\xb6\xc7\xed\x7a\x08\xd3\
\0\
\0\0\0\0\0\xb3\xc1\x18\0\0\0\0\0\x0a\x25\xbe\
\0\0\0\0\0\0\0\0\0\0\0\0\0\x0a\x25\xbe\
\0\0\0\0\0\0\x01\0\0\0\0\0\0\0\x03\0\
\0\0\0\0\0\0\0\0\0\0\0\0\0\xa9\x9b\x5a\
\0\0\0\0\0\0\0\0\0\0\0\0\0\xb3\xc1\x18\
\0\0\0\0\0\0\0\0\0\0\0\0\0\xb3\xc1\x18\
\0\0\0\0\0\0\0\0\0\0\0\0\0\xb3\xc1\x18\
\0\0\0\0\0\0\0\x01\0\
\0\0\0\0\0\0\x01\0\0\0\0\0\0\0\x03\0\
\0\0\
\x7d\x61\x96\xfa\xeb\x42\xe7\xdc\x55\xdb\xcf\x5b\x8e\x67\x79\x95\
\x30\xe5\x9e\x0b\x21\xed\x68\x7b\x62\xee\xc9\xdd\xf0\x1d\x5d\xa4";
