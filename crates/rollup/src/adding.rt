// Adding a state. Ported from `Accumulator::add_view` in src/accumulator.rs of zetasketch-rs at commit 9abe68bf87 (Apache-2.0, see NOTICE). Changed:
// every question is asked before anything but `scratch` is written, a refusal has document 01's number, and the memory is lent.
ghost use Rattle.std.specs.Prelude.{◌≡◌, ◌≤◌, false, length, take};
ghost use Rattle.rollup.specs.Header.{viewed, list_of};
ghost use Rattle.rollup.specs.Refusals.{answer_of};
ghost use Rattle.rollup.specs.Accumulator.{kept_of};
ghost use Rattle.rollup.specs.Lent.{mem_of, SameLent};
ghost use Rattle.rollup.specs.Adding.{numbers_of, AddPost};
ghost use Rattle.rollup.specs.Stages.{AcceptPre, distinct_after, Sound, AcceptPost, FittingPost};

use crate::accumulator::{Accumulator, Form, MAX_PENDING, MAX_VALUE_BYTES};
use crate::incoming::Incoming;
use crate::memory::Memory;
use crate::paths::Path;
use crate::refusal::Refusal;
use crate::{header, judging};
use wire::view::StateView;

// A head that fits its memory, and what is known of the list that is kept: `distinct` says that it is one that a merge can leave. An insertion need not walk such a
// list first. New: the Rust inserts without looking (document 01, "Difference"). A bool, since an enum of two names would say no more than the field's name does.
#[derive(Clone, Copy, Debug, PartialEq, Eq)]
pub struct Fitted {
    pub head: Accumulator,
    pub distinct: bool,
}

// The numbers of a state whose list has k values.
fn state_numbers(view: StateView, k: usize) -> Incoming
    requires { k ≤ 2147483647 }
    ensures { result ≡ numbers_of (viewed view.entry) (length (list_of (viewed view.entry))) k }
{
    let fields = view.fields;
    Incoming {
        mask: header::allowed_types(fields.value_type),
        value_type: fields.value_type,
        num_values: fields.num_values,
        precision: fields.hll.precision,
        sparse_precision: fields.hll.sparse_precision,
        sparse_size: fields.hll.sparse_size,
        list_bytes: view.sparse_data().len(),
        growth: MAX_VALUE_BYTES * k,
        most: MAX_PENDING,
    }
}

// What is known of the list after a path, by the form before. All values of a merge are distinct, and without a merge as much is known as before. Of a first list
// nothing is known.
fn distinct_after(before: Form, path: Option<Path>, known: bool) -> bool
    ensures { result ≡ distinct_after before path known }
{
    match (before, path) {
        (Form::Unstarted, _) => false,
        (Form::Sparse, Some(Path::Sorts | Path::Inserts | Path::Merges)) => true,
        _ => known,
    }
}

impl Accumulator {
    // The values that are kept.
    fn kept<'a>(self, memory: &'a Memory) -> &'a [u32]
        requires { self.sparse_len ≤ length memory.now.sparse.now }
        ensures { result.now ≡ kept_of self (mem_of memory.now) }
    {
        &memory.sparse[..self.sparse_len]
    }
}

// A head of which no more is known than that it fits.
impl From<Accumulator> for Fitted {
    ghost from_gives = { λ a r. r ≡ record { head = a; distinct = false } };

    fn from(head: Accumulator) -> Fitted {
        Fitted {
            head,
            distinct: false,
        }
    }
}

impl Fitted {
    // A state that is accepted takes its path. The first k cells of `scratch` hold the values of its list.
    fn accept(self, view: StateView, memory: &mut Memory, k: usize) -> Fitted
        requires { AcceptPre self.head self.distinct (mem_of memory.old) memory.old.scratch.now (viewed view) k }
        ensures post { AcceptPost self.head (mem_of memory.old) (viewed view.entry) (take k memory.old.scratch.now) result (mem_of memory.new) }
        ensures same { SameLent memory.old memory.new }
    {
        let a = self.head;
        let x = state_numbers(view, k);
        let path = a.path_of(x, a.kept(memory), k, self.distinct);
        Fitted {
            head: a.take(x, path, memory, view.data(), k),
            distinct: distinct_after(a.form, path, self.distinct),
        }
    }

    // Adds a state: questions 2 to 20, and then the path. After a refusal all is as it was.
    pub fn add(&mut self, memory: &mut Memory, bytes: &[u8]) -> Result<(), Refusal>
        requires { Sound self.old.head self.old.distinct (mem_of memory.old) }
        ensures post { FittingPost self.old.head (mem_of memory.old) (length memory.old.scratch.now) bytes.now (answer_of result) self.new (mem_of memory.new) }
        ensures same { SameLent memory.old memory.new }
    {
        let view = self.head.judge(bytes)?;
        if !self.head.has_room(view, memory) {
            return Err(Refusal::NoRoom);
        }
        let k = judging::decode_listed(view, memory.scratch)?;
        *self = self.accept(view, memory, k);
        Ok(())
    }
}

impl Accumulator {
    // Adds a state to a roll-up: document 01's questions in their order, and then the path. After a refusal all is as it was.
    pub fn add(&mut self, memory: &mut Memory, bytes: &[u8]) -> Result<(), Refusal>
        ensures post { AddPost self.old (mem_of memory.old) (length memory.old.scratch.now) bytes.now (answer_of result) self.new (mem_of memory.new) }
        ensures same { SameLent memory.old memory.new }
    {
        if !self.fits_in(memory) {
            return Err(Refusal::Misfit);
        }
        let mut fitted = Fitted::from(*self);
        let answer = fitted.add(memory, bytes);
        *self = fitted.head;
        answer
    }
}
