// The head of a roll-up as ten numbers in a row: form, type mask, value type, value count, p, s, sparse size, kept count, kept bytes, waiting count.
ghost use Rattle.std.specs.Prelude.{◌≡◌, ◌≤◌, length};
ghost use Rattle.capi.specs.Heads.{read_head, with_head};

use rollup::accumulator::{Accumulator, Form};

// The head that a row of numbers is, if it is one. Numbers behind the ten do not count.
#[tactic(auto, unfolding(crate::specs::Heads::is_head, crate::specs::Heads::head_in))]
pub fn read_head(row: &[u64]) -> Option<Accumulator>
    ensures { result ≡ read_head row.now }
{
    let &[
        form,
        allowed,
        value_type,
        num_values,
        precision,
        sparse_precision,
        sparse_size,
        sparse_len,
        sparse_bytes,
        pending_len,
        ..
    ] = row
    else {
        return None;
    };
    Some(Accumulator {
        form: Form::try_from(form).ok()?,
        allowed: u8::try_from(allowed).ok()?,
        value_type: u32::try_from(value_type).ok()?,
        num_values,
        precision: u32::try_from(precision).ok()?,
        sparse_precision: u32::try_from(sparse_precision).ok()?,
        sparse_size: u32::try_from(sparse_size).ok()?,
        sparse_len: sparse_len as usize,
        sparse_bytes: sparse_bytes as usize,
        pending_len: pending_len as usize,
    })
}

#[tactic(auto, unfolding(crate::specs::Heads::with_head))]
pub fn put_head(row: &mut [u64], a: Accumulator)
    requires { 10 ≤ length row.old }
    ensures { row.new ≡ with_head a row.old }
{
    row[..10].copy_from_slice(&[
        a.form as u64,
        u64::from(a.allowed),
        u64::from(a.value_type),
        a.num_values,
        u64::from(a.precision),
        u64::from(a.sparse_precision),
        u64::from(a.sparse_size),
        a.sparse_len as u64,
        a.sparse_bytes as u64,
        a.pending_len as u64,
    ]);
}
