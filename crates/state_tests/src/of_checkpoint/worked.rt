//! Worked checkpoints, as FORMATS.md spells them: made by other programs, digests too. That of two early batches is
//! `path_with_early` of `tests/vectors.py`.
//!
//! Hashes are those under seed 0 at 16 registers: vertex 0 has rank 3 in register 14, vertex 1 rank 1 in register 6,
//! vertex 2 rank 2 in register 0, vertex 3 rank 1 in register 15.

/// The one partition of the edges a to b and b to c, at superstep 2: c alone changed there.
pub(super) static TWO_EDGES: [u8; 340] = [
    0x48, 0x42, 0x43, 0x4b, // HBCK
    2, 4, // version, log2m
    0, 1, 0, 0, // parts, partition
    0, 0, 0, 3, // vertices
    0, 0, 0, 3, // vertices of the partition
    0, 0, 0, 2, // superstep
    0x7c, 0x4f, 0xec, 0x3a, 0xb1, 0xc9, 0x4e, 0xe5, 0x4b, 0x6c, 0xe8, 0xab, 0xf2, 0xac, 0x51, 0x80,
    0x2b, 0x07, 0xb5, 0x58, 0x99, 0x2c, 0xeb, 0xe6, 0x1a, 0x88, 0x7d, 0x03, 0x4e, 0xbf, 0x03, 0x68,
    0, // vertex 0: its mark
    0, 0, 0, 0, 0, 173, 207, 222, // its estimate
    0, 0, 0, 0, 0, 0, 0, 0, // its harmonic centrality
    0, 0, 0, 0, 0, 0, 0, 0, 0, 0, 0, 0, 0, 0, 0, 0, // its sum of distances
    0, 0, 0, 0, 0, 0, 0, 0, 0, 0, 0, 0, 0, 0, 3, 0, // its registers
    0, // vertex 1: its mark
    0, 0, 0, 0, 0, 179, 193, 24, // its estimate
    0, 0, 0, 0, 0, 10, 37, 190, // its harmonic centrality
    0, 0, 0, 0, 0, 0, 0, 0, 0, 0, 0, 0, 0, 10, 37, 190, // its sum of distances
    0, 0, 0, 0, 0, 0, 1, 0, 0, 0, 0, 0, 0, 0, 3, 0, // its registers
    1, // vertex 2: its mark
    0, 0, 0, 0, 0, 189, 120, 129, // its estimate
    0, 0, 0, 0, 0, 11, 118, 170, // its harmonic centrality
    0, 0, 0, 0, 0, 0, 0, 0, 0, 0, 0, 0, 0, 28, 82, 191, // its sum of distances
    2, 0, 0, 0, 0, 0, 1, 0, 0, 0, 0, 0, 0, 0, 3, 0, // its registers
    0, 0, 0, 0, 0, 0, 0, 0, 0, 0, 0, 0, 2, 3, 206, 93, // sum at 0
    0, 0, 0, 0, 0, 0, 0, 0, 0, 0, 0, 0, 2, 19, 204, 20, // at 1
    0, 0, 0, 0, 0, 0, 0, 0, 0, 0, 0, 0, 2, 31, 9, 119, // at 2
    0, 0, 0, 0, 0, 0, 0, 0, 0, // heard, and whether a change is
    0, 0, 0, 0, 0, 0, 0, 0, 0, 0, 0, 0, 0, 0, 3, 0, // accumulated: vertex 0
    0, 0, 0, 0, 0, 0, 1, 0, 0, 0, 0, 0, 0, 0, 3, 0, // vertex 1
    2, 0, 0, 0, 0, 0, 1, 0, 0, 0, 0, 0, 0, 0, 3, 0, // vertex 2
    0, 0, // batches
    0x4f, 0x38, 0xb3, 0x5f, 0x48, 0xb3, 0x69, 0x46, 0x89, 0x8b, 0x52, 0x9f, 0x48, 0xab, 0x24, 0xf3,
    0xad, 0x74, 0x16, 0x00, 0x13, 0x09, 0x4f, 0x55, 0x2e, 0x75, 0x27, 0x6b, 0xa0, 0x2b, 0xcc, 0x0f,
];

/// Version 1 of the same, as it was written.
pub(super) static FIRST: [u8; 281] = [
    0x48, 0x42, 0x43, 0x4b, // HBCK
    1, 4, // version, log2m
    0, 1, 0, 0, // parts, partition
    0, 0, 0, 3, // vertices
    0, 0, 0, 3, // vertices of the partition
    0, 0, 0, 2, // superstep
    0x7c, 0x4f, 0xec, 0x3a, 0xb1, 0xc9, 0x4e, 0xe5, 0x4b, 0x6c, 0xe8, 0xab, 0xf2, 0xac, 0x51, 0x80,
    0x2b, 0x07, 0xb5, 0x58, 0x99, 0x2c, 0xeb, 0xe6, 0x1a, 0x88, 0x7d, 0x03, 0x4e, 0xbf, 0x03, 0x68,
    0, // vertex 0: its mark
    0, 0, 0, 0, 0, 173, 207, 222, // its estimate
    0, 0, 0, 0, 0, 0, 0, 0, // its harmonic centrality
    0, 0, 0, 0, 0, 0, 0, 0, 0, 0, 0, 0, 0, 0, 0, 0, // its sum of distances
    0, 0, 0, 0, 0, 0, 0, 0, 0, 0, 0, 0, 0, 0, 3, 0, // its registers
    0, // vertex 1: its mark
    0, 0, 0, 0, 0, 179, 193, 24, // its estimate
    0, 0, 0, 0, 0, 10, 37, 190, // its harmonic centrality
    0, 0, 0, 0, 0, 0, 0, 0, 0, 0, 0, 0, 0, 10, 37, 190, // its sum of distances
    0, 0, 0, 0, 0, 0, 1, 0, 0, 0, 0, 0, 0, 0, 3, 0, // its registers
    1, // vertex 2: its mark
    0, 0, 0, 0, 0, 189, 120, 129, // its estimate
    0, 0, 0, 0, 0, 11, 118, 170, // its harmonic centrality
    0, 0, 0, 0, 0, 0, 0, 0, 0, 0, 0, 0, 0, 28, 82, 191, // its sum of distances
    2, 0, 0, 0, 0, 0, 1, 0, 0, 0, 0, 0, 0, 0, 3, 0, // its registers
    0, 0, 0, 0, 0, 0, 0, 0, 0, 0, 0, 0, 2, 3, 206, 93, // sum at 0
    0, 0, 0, 0, 0, 0, 0, 0, 0, 0, 0, 0, 2, 19, 204, 20, // at 1
    0, 0, 0, 0, 0, 0, 0, 0, 0, 0, 0, 0, 2, 31, 9, 119, // at 2
    0x0c, 0x4a, 0xeb, 0x7b, 0xc7, 0x6f, 0xdd, 0x84, 0x36, 0x0c, 0x3a, 0x39, 0xcd, 0x4d, 0x94, 0x00,
    0x35, 0x1b, 0xcd, 0x76, 0xf5, 0xb3, 0x5f, 0x9d, 0x60, 0x9d, 0x14, 0x6b, 0x0a, 0xfd, 0x99, 0x1b,
];

/// Partition 1 of the path a, b, c, d, e in two partitions, at superstep 0, which keeps batches of supersteps 2 and 3.
pub(super) static TWO_EARLY: [u8; 367] = [
    0x48, 0x42, 0x43, 0x4b, // HBCK
    2, 4, // version, log2m
    0, 2, 0, 1, // parts, partition
    0, 0, 0, 5, // vertices
    0, 0, 0, 2, // vertices of the partition
    0, 0, 0, 0, // superstep
    0x95, 0x27, 0x45, 0xe7, 0xab, 0xd9, 0x7d, 0x56, 0x33, 0x04, 0xe8, 0xec, 0x8d, 0x76, 0xfc, 0x6e,
    0x79, 0x3b, 0xea, 0x8d, 0x10, 0x5e, 0xb0, 0x92, 0x45, 0x2c, 0xd9, 0x71, 0xe1, 0x39, 0x19, 0x51,
    1, // vertex 1: its mark
    0, 0, 0, 0, 0, 169, 155, 90, // its estimate
    0, 0, 0, 0, 0, 0, 0, 0, // its harmonic centrality
    0, 0, 0, 0, 0, 0, 0, 0, 0, 0, 0, 0, 0, 0, 0, 0, // its sum of distances
    0, 0, 0, 0, 0, 0, 1, 0, 0, 0, 0, 0, 0, 0, 0, 0, // its registers
    1, // vertex 3: its mark
    0, 0, 0, 0, 0, 169, 155, 90, // its estimate
    0, 0, 0, 0, 0, 0, 0, 0, // its harmonic centrality
    0, 0, 0, 0, 0, 0, 0, 0, 0, 0, 0, 0, 0, 0, 0, 0, // its sum of distances
    0, 0, 0, 0, 0, 0, 0, 0, 0, 0, 0, 0, 0, 0, 0, 1, // its registers
    0, 0, 0, 0, 0, 0, 0, 0, 0, 0, 0, 0, 1, 83, 54, 180, // sum at 0
    0, 0, 0, 0, 0, 0, 0, 0, 0, // heard, and whether a change is
    0, 0, 0, 0, 0, 0, 1, 0, 0, 0, 0, 0, 0, 0, 0, 0, // accumulated: vertex 1
    0, 0, 0, 0, 0, 0, 0, 0, 0, 0, 0, 0, 0, 0, 0, 1, // vertex 3
    0, 2, // batches
    0, 0, 0, 0, 0, 0, 0, 54, // length of the batch
    0x48, 0x42, 0x42, 0x54, // HBBT
    1, 4, // version, log2m
    0, 0, 0, 2, // superstep
    0, 0, 0, 1, // source, target
    0x95, 0x27, 0x45, 0xe7, 0xab, 0xd9, 0x7d, 0x56, 0x33, 0x04, 0xe8, 0xec, 0x8d, 0x76, 0xfc, 0x6e,
    0x79, 0x3b, 0xea, 0x8d, 0x10, 0x5e, 0xb0, 0x92, 0x45, 0x2c, 0xd9, 0x71, 0xe1, 0x39, 0x19, 0x51,
    0, 0, 0, 1, // changed
    0, 0, 0, 0, // rows
    0, 0, 0, 0, 0, 0, 0, 54, // length of the batch
    0x48, 0x42, 0x42, 0x54, // HBBT
    1, 4, // version, log2m
    0, 0, 0, 3, // superstep
    0, 0, 0, 1, // source, target
    0x95, 0x27, 0x45, 0xe7, 0xab, 0xd9, 0x7d, 0x56, 0x33, 0x04, 0xe8, 0xec, 0x8d, 0x76, 0xfc, 0x6e,
    0x79, 0x3b, 0xea, 0x8d, 0x10, 0x5e, 0xb0, 0x92, 0x45, 0x2c, 0xd9, 0x71, 0xe1, 0x39, 0x19, 0x51,
    0, 0, 0, 1, // changed
    0, 0, 0, 0, // rows
    0x50, 0xc0, 0x5f, 0xe7, 0x36, 0x2a, 0x27, 0x2b, 0x75, 0x7a, 0xef, 0x36, 0x04, 0x1d, 0xea, 0x53,
    0x61, 0x6d, 0x09, 0xe9, 0x13, 0xed, 0x7a, 0xf0, 0x79, 0x35, 0xe4, 0x7d, 0x5e, 0x00, 0xb7, 0x9a,
];
