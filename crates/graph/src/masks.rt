//! Feed masks of vertices.

ghost use Rattle.std.specs.Prelude.{◌≡◌, ◌^◌, ◌<◌, ◌≤◌, length, slice_index, slice_set, bit_or};
ghost use Rattle.std.specs.Prelude.{replicate, IfOk};
ghost use Rattle.ball_model.specs.PlanValue.{most_parts};
ghost use Rattle.graph.specs.Feeding.{masks_of, width_of};

use std::alloc::{AllocError, Global};

/// Masks of 64 bits, one a vertex: in a byte each if no bit above the eighth is needed.
#[derive(Drop)]
pub(crate) enum Masks {
    Narrow(Vec<u8>),
    Wide(Vec<u64>),
}

impl Masks {
    // Masks of which no bit is set, each with room for `bits` bits.
    pub(crate) fn zeros(alloc: Global, count: usize, bits: u32) -> Result<Masks, AllocError>
        requires { bits ≤ most_parts }
        ensures masks { IfOk result (λ masks. masks_of masks ≡ replicate count 0) }
        ensures room { IfOk result (λ masks. bits ≤ width_of masks) }
    {
        if bits <= 8 {
            Ok(Masks::Narrow(vec![in alloc; 0u8; count]?))
        } else {
            Ok(Masks::Wide(vec![in alloc; 0u64; count]?))
        }
    }

    pub(crate) fn get(&self, i: usize) -> u64
        requires { i < length (masks_of self.now) }
        ensures { result ≡ slice_index (masks_of self.now) i }
    {
        match self {
            Masks::Narrow(bytes) => u64::from(bytes[i]),
            Masks::Wide(words) => words[i],
        }
    }

    pub(crate) fn set_bit(&mut self, i: usize, bit: u32)
        requires index { i < length (masks_of self.old) }
        requires room { bit < width_of self.old }
        ensures masks { masks_of self.new ≡
            slice_set (masks_of self.old) i (bit_or (slice_index (masks_of self.old) i) (2 ^ bit)) }
        ensures room { width_of self.new ≡ width_of self.old }
    {
        match self {
            Masks::Narrow(bytes) => bytes[i] |= 1 << bit,
            Masks::Wide(words) => words[i] |= 1 << bit,
        }
    }
}
