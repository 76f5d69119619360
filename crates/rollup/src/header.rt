// Header rules. Ported from `allowed_types`, `check_normal_precision`, `check_sparse_precision`, `validate_structure` and `validate_header` in
// src/hll.rs of zetasketch-rs at commit 9abe68bf87 (Apache-2.0, see NOTICE). Changed: document 01's order and numbers (`Refusal`) in the place of strings; the mask is
// asked for by itself; a signed precision is the unsigned number of the same bits, so that a negative one is too large.
ghost use Rattle.std.specs.Prelude.{◌≡◌, ◌≤◌, not};
ghost use Rattle.rollup.specs.Refusals.{answer_of};
ghost use Rattle.rollup.specs.Accumulator.{normal_range, sparse_range};
ghost use Rattle.rollup.specs.Header.{viewed, data_of, list_of, is_empty, is_value_type, mask_of, kind_answer, list_has_precision, data_has_length, needs_pair, structure_answer, registers_in_range, header_answer};

use crate::refusal::Refusal;
use lists::{registers, values};
use wire::view::StateView;

// The aggregator's type and the value types are numbers of the format, and a value type is one of C's head as well: an enum would be made of them and turned back.

pub(crate) const HYPERLOGLOG_PLUS_UNIQUE: u32 = 112;

pub(crate) const ENCODING_VERSION: u32 = 2;

const MINIMUM_PRECISION: u32 = 4;

const MAXIMUM_PRECISION: u32 = 24;

const MAXIMUM_SPARSE_PRECISION: u32 = 25;

const VALUE_TYPE_UNKNOWN: u32 = 0;

const VALUE_TYPE_UINT32: u32 = 7;

const VALUE_TYPE_UINT64: u32 = 8;

const VALUE_TYPE_BYTES_OR_UTF8_STRING: u32 = 11;

const TYPE_LONG: u8 = 1;

const TYPE_INTEGER: u8 = 2;

const TYPE_STRING_OR_BYTES: u8 = 12;

const TYPE_ALL: u8 = 15;

// Whether a value type is known.
fn is_value_type(value_type: u32) -> bool
    ensures { result ≡ is_value_type value_type }
{
    matches!(
        value_type,
        VALUE_TYPE_UNKNOWN | VALUE_TYPE_UINT32 | VALUE_TYPE_UINT64 | VALUE_TYPE_BYTES_OR_UTF8_STRING
    )
}

// The type mask of a value type that is known.
pub fn allowed_types(value_type: u32) -> u8
    ensures { result ≡ mask_of value_type }
{
    match value_type {
        VALUE_TYPE_UNKNOWN => TYPE_ALL,
        VALUE_TYPE_UINT32 => TYPE_INTEGER,
        VALUE_TYPE_UINT64 => TYPE_LONG,
        _ => TYPE_STRING_OR_BYTES,
    }
}

pub(crate) fn check_normal_precision(p: u32) -> bool
    ensures { result ≡ normal_range p }
{
    (MINIMUM_PRECISION..=MAXIMUM_PRECISION).contains(&p)
}

pub(crate) fn check_sparse_precision(p: u32, s: u32) -> bool
    ensures { result ≡ sparse_range p s }
{
    (p..=MAXIMUM_SPARSE_PRECISION).contains(&s)
}

// Whether field 5 has bytes.
pub fn has_data(view: StateView) -> bool
    ensures { result ≡ not (is_empty (data_of (viewed view.entry))) }
{
    !view.data().is_empty()
}

// Whether field 6 has bytes.
pub fn has_sparse_data(view: StateView) -> bool
    ensures { result ≡ not (is_empty (list_of (viewed view.entry))) }
{
    !view.sparse_data().is_empty()
}

// 7 to 9.
#[tactic(auto, unfolding(crate::specs::Header::kind_answer))]
fn validate_kind(view: StateView) -> Result<(), Refusal>
    ensures { answer_of result ≡ kind_answer (viewed view.entry) }
{
    if view.fields.aggregator_type != HYPERLOGLOG_PLUS_UNIQUE {
        return Err(Refusal::WrongType);
    }
    if view.fields.encoding_version != ENCODING_VERSION {
        return Err(Refusal::WrongVersion);
    }
    if !is_value_type(view.fields.value_type) {
        return Err(Refusal::UnknownValueType);
    }
    Ok(())
}

// 10: a list has an s.
fn list_has_precision(view: StateView) -> bool
    ensures { result ≡ list_has_precision (viewed view.entry) }
{
    !has_sparse_data(view) || view.fields.hll.sparse_precision != 0
}

// 12: data of 2^p bytes, if any.
fn data_has_length(view: StateView) -> bool
    requires { view.fields.hll.precision ≤ 24 }
    ensures { result ≡ data_has_length (viewed view.entry) }
{
    let n = view.data().len();
    n == 0 || n == 1 << view.fields.hll.precision
}

// Whether 13 is asked.
fn needs_pair(view: StateView) -> bool
    ensures { result ≡ needs_pair (viewed view.entry) }
{
    has_sparse_data(view) || !has_data(view) && view.fields.hll.sparse_precision != 0
}

// 7 to 13: all but a look at the registers.
#[tactic(auto, using(crate::proofs::RefusalLaws::number_some), unfolding(crate::specs::Header::structure_answer))]
pub fn validate_structure(view: StateView) -> Result<(), Refusal>
    ensures { answer_of result ≡ structure_answer (viewed view.entry) }
{
    validate_kind(view)?;
    if !list_has_precision(view) {
        return Err(Refusal::NoSparsePrecision);
    }
    let p = view.fields.hll.precision;
    if !check_normal_precision(p) {
        return Err(Refusal::BadPrecision);
    }
    if !data_has_length(view) {
        return Err(Refusal::BadDataLength);
    }
    if needs_pair(view) && !check_sparse_precision(p, view.fields.hll.sparse_precision) {
        return Err(Refusal::BadSparsePrecision);
    }
    Ok(())
}

// 14: no register above the largest rank.
fn registers_in_range(view: StateView) -> bool
    requires { structure_answer (viewed view) ≡ 0 }
    ensures { result ≡ registers_in_range (viewed view.entry) }
{
    let d = view.data();
    let p = view.fields.hll.precision;
    d.is_empty() || registers::largest_register(d, p) <= values::largest_rank(p)
}

// 7 to 14.
#[tactic(auto, using(crate::proofs::RefusalLaws::number_some), unfolding(crate::specs::Header::header_answer))]
pub fn validate_header(view: StateView) -> Result<(), Refusal>
    ensures { answer_of result ≡ header_answer (viewed view.entry) }
{
    validate_structure(view)?;
    if !registers_in_range(view) {
        return Err(Refusal::BadRegister);
    }
    Ok(())
}
