// Judging a state before anything is written: questions 2 to 14, of the bytes alone (`read_header`), 2 to 16 (`judge`), 17 (`has_room`) and 18 to 20
// (`decode_listed`). Ported from the first part of `Accumulator::add_view` and from `start` and `merge_sparse` in src/accumulator.rs of zetasketch-rs
// at commit 9abe68bf87 (Apache-2.0, see NOTICE). Changed: every question stands in front of the first store, a refusal has document 01's number, and a list is
// read into a lent slice.
ghost use Rattle.std.specs.Prelude.{◌≡◌, ◌+◌, ◌^◌, ◌<◌, ◌≤◌, length, IfOk};
ghost use Rattle.lists.specs.Lists.{Decodes};
ghost use Rattle.rollup.specs.Header.{viewed};
ghost use Rattle.rollup.specs.Refusals.{answer_of};
ghost use Rattle.rollup.specs.Lent.{mem_of};
ghost use Rattle.rollup.specs.Adding.{masks_meet, has_both, same_pair, carried, match_answer, wanted_precision, wanted_registers, wanted_cells, has_room, listed_in};
ghost use Rattle.rollup.specs.Judging.{HeaderPost, JudgePost, RoomPre, ListedPre};

use crate::accumulator::{Accumulator, Form, MAX_STATE_BYTES};
use crate::header;
use crate::memory::Memory;
use crate::refusal::Refusal;
use lists::decoding::DecodeError;
use lists::registers;
use lists::values::Sparse;
use wire::view::StateView;

// 2 to 14: what is asked of the bytes alone.
pub fn read_header<'a>(bytes: &'a [u8]) -> Result<StateView<'a>, Refusal>
    ensures read { HeaderPost bytes.now result }
    ensures same { IfOk result (λ v. v.bytes ≡ bytes.entry) }
{
    if MAX_STATE_BYTES < bytes.len() {
        return Err(Refusal::TooLong);
    }
    let view = StateView::parse(bytes)?;
    header::validate_header(view)?;
    Ok(view)
}

impl Accumulator {
    // 15: the masks meet, if there are two.
    fn masks_meet(self, view: StateView) -> bool
        ensures { result ≡ masks_meet self (viewed view.entry) }
    {
        self.is_empty() || self.allowed & header::allowed_types(view.fields.value_type) != 0
    }

    // 16: a list roll-up takes states of its own pair.
    fn same_pair(self, view: StateView) -> bool
        ensures { result ≡ same_pair self.form self (viewed view.entry) }
    {
        let hll = view.fields.hll;
        self.form != Form::Sparse
            || self.precision == hll.precision && self.sparse_precision == hll.sparse_precision
    }

    // 16.
    fn is_carried(self, view: StateView) -> bool
        ensures { result ≡ carried self (viewed view.entry) }
    {
        view.fields.hll.sparse_precision != 0 && !has_both(view) && self.same_pair(view)
    }

    // 15 and 16.
    #[tactic(auto, unfolding(crate::specs::Adding::match_answer))]
    fn validate_match(self, view: StateView) -> Result<(), Refusal>
        ensures { answer_of result ≡ match_answer self (viewed view.entry) }
    {
        if !self.masks_meet(view) {
            return Err(Refusal::NoCommonType);
        }
        if !self.is_carried(view) {
            return Err(Refusal::NotCarried);
        }
        Ok(())
    }

    // 2 to 16.
    pub fn judge<'a>(self, bytes: &'a [u8]) -> Result<StateView<'a>, Refusal>
        ensures read { JudgePost self bytes.now result }
        ensures same { IfOk result (λ v. v.bytes ≡ bytes.entry) }
    {
        let state = read_header(bytes)?;
        self.validate_match(state)?;
        Ok(state)
    }

    // The precision whose registers 17 asks for.
    fn wanted_precision(self, p: u32) -> u32
        ensures { result ≡ wanted_precision self.form self p }
    {
        if self.is_empty() { p } else { self.precision }
    }

    // 17: how many register bytes are wanted, for what has precision p.
    pub fn wanted_registers(self, p: u32) -> usize
        requires { wanted_precision self.form self p ≤ 24 }
        ensures { result ≡ wanted_registers self p }
    {
        registers::register_bytes(self.wanted_precision(p))
    }

    // 17: how many cells of each list are wanted, for a sparse field of n bytes.
    pub fn wanted_cells(self, n: usize) -> usize
        requires { self.sparse_len + self.pending_len + n < 2 ^ 64 }
        ensures { result ≡ wanted_cells self n }
    {
        if n == 0 {
            0
        } else {
            self.sparse_len + self.pending_len + n
        }
    }

    // 17.
    #[tactic(auto, unfolding(crate::specs::Adding::has_room))]
    pub(crate) fn has_room(self, view: StateView, memory: &Memory) -> bool
        requires { RoomPre self (mem_of memory.now) (viewed view) }
        ensures { result ≡ has_room self (mem_of memory.now) (length memory.now.scratch.now) (viewed view.entry) }
    {
        let cells = self.wanted_cells(view.sparse_data().len());
        self.wanted_registers(view.fields.hll.precision) <= memory.registers.len()
            && cells <= memory.sparse.len()
            && cells <= memory.pending.len()
            && cells <= memory.scratch.len()
    }
}

// 16: data bytes beside a sparse field, even an empty one.
fn has_both(view: StateView) -> bool
    ensures { result ≡ has_both (viewed view.entry) }
{
    header::has_data(view) && view.fields.hll.sparse_data_present
}

// 18 to 20: the list's values, into `scratch`. A state without list bytes has no values, and its s may be one that no list can have.
pub(crate) fn decode_listed(view: StateView, scratch: &mut [u32]) -> Result<usize, DecodeError>
    requires { ListedPre (viewed view) (length scratch.old) }
    ensures { Decodes (listed_in (viewed view.entry)) result scratch.new }
{
    let list = view.sparse_data();
    if list.is_empty() {
        return Ok(0);
    }
    let hll = view.fields.hll;
    Sparse::new(hll.precision, hll.sparse_precision).decode_validated_into(list, scratch)
}
