// What is taken in, beside its registers or its values: the numbers that module 6's paths use. Those of a state are one case (`state_numbers` in adding).
// A row of registers and a count of values go beside it, where an empty row means values. An enum of the two would be matched in three functions that have one `if` now.
ghost use Rattle.std.specs.Prelude.{◌≡◌};
ghost use Rattle.rollup.specs.Taking.{counted};

use crate::accumulator::Accumulator;

#[derive(Clone, Copy)]
pub struct Incoming {
    // The type mask.
    pub mask: u8,
    pub value_type: u32,
    pub num_values: u64,
    // p and s.
    pub precision: u32,
    pub sparse_precision: u32,
    pub sparse_size: u32,
    // The kept bytes of the roll-up where this comes first.
    pub list_bytes: usize,
    // What its values count for in the waiting test, and how many values may wait at most, these included.
    pub growth: usize,
    pub most: usize,
}

impl Accumulator {
    // The head with the masks' common bits and the sum of the value counts, which wraps: whatever comes after the first changes these two.
    pub(crate) fn counted(self, x: Incoming) -> Accumulator
        ensures { result ≡ counted self x }
    {
        Accumulator {
            allowed: self.allowed & x.mask,
            num_values: self.num_values.wrapping_add(x.num_values),
            ..self
        }
    }
}
