// The memory that a roll-up is lent. New: the Rust's accumulator has `Vec`s of its own, and here there is no heap.
ghost use Rattle.std.specs.Prelude.{◌≡◌, ◌+◌, ◌≤◌, ◌++◌, length, take, drop};

// Its slices may have any lengths: a call that needs more than is there is refused (17). Where a part of one is lent beside another, or one as `&`, it is taken out
// of the struct first, as in `let (sparse, scratch) = (&mut *memory.sparse, &mut *memory.scratch);`: the borrow checker does not cover
// `f(memory.sparse, &memory.scratch[..k])`. Where both are lent whole and as `&mut`, it covers `f(memory.sparse, memory.scratch)`.
#[derive(Drop)]
pub struct Memory<'a> {
    // The registers, a byte each.
    pub registers: &'a mut [u8],
    // The values that are kept, and those that wait. The head says how many of each there are.
    pub sparse: &'a mut [u32],
    pub pending: &'a mut [u32],
    // Working memory, of which nothing is kept between two calls. A count of its first cells goes beside a `Memory`, since a part of it cannot be lent next to the whole.
    pub scratch: &'a mut [u32],
}

// The values go behind the first n of `list`, and what stands behind them stays.
pub(crate) fn append(list: &mut [u32], n: usize, values: &[u32])
    requires { n + length values.now ≤ length list.old }
    ensures front { take (n + length values.now) list.new ≡ take n list.old ++ values.now }
    ensures rest { drop (n + length values.now) list.new ≡ drop (n + length values.now) list.old }
{
    list[n..n + values.len()].copy_from_slice(values);
}
