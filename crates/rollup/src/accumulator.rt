// The head of a roll-up, and what is asked of it. Ported from `Accumulator`, `new`, `is_empty`, `precisions`, `num_values` and `encoding` in src/accumulator.rs of
// zetasketch-rs at commit 9abe68bf87 (Apache-2.0, see NOTICE). Changed: the numbers alone, with counts in the place of `Vec`; an enum in the place of two flags; and
// a contract on every function. A head is small and `Copy`, so that a method that only reads it takes it by value.
ghost use Rattle.std.specs.Prelude.{◌≡◌, not};
ghost use Rattle.lists.specs.Values.{Pair};
ghost use Rattle.lists.specs.Pairs.{NewPost};
ghost use Rattle.rollup.specs.Accumulator.{fresh, count_of, precisions_of, is_started};

use lists::values::Sparse;

// How many values wait at most.
pub(crate) const MAX_PENDING: usize = 2048;

// How many bytes a value takes at most where a list is written.
pub(crate) const MAX_VALUE_BYTES: usize = 5;

// How many bytes a state has at most, and so a list.
pub(crate) const MAX_STATE_BYTES: usize = 2147483647;

#[derive(Clone, Copy, Debug, Default, PartialEq, Eq)]
pub enum Form {
    #[default]
    Unstarted,
    Sparse,
    Dense,
}

// A number that stands for no form.
#[derive(Clone, Copy, Debug, PartialEq, Eq)]
pub struct NoForm;

// The form that a number of document 01 stands for: that of `form as u64`.
impl TryFrom<u64> for Form {
    ghost use Rattle.std.specs.Prelude.{◌≡◌, MatchResult, Some, None};
    ghost use Rattle.rollup.specs.Accumulator.{read_form};

    type Error = NoForm;

    ghost try_from_gives = { λ n r. MatchResult r (λ f. read_form n ≡ Some f) (λ _. read_form n ≡ None) };

    fn try_from(n: u64) -> Result<Form, NoForm> {
        match n {
            0 => Ok(Form::Unstarted),
            1 => Ok(Form::Sparse),
            2 => Ok(Form::Dense),
            _ => Err(NoForm),
        }
    }
}

// Document 01's head. A signed number is carried as the unsigned one of the same bits.
#[derive(Clone, Copy, Debug, Default, PartialEq, Eq)]
pub struct Accumulator {
    pub form: Form,
    // The type mask.
    pub allowed: u8,
    pub value_type: u32,
    pub num_values: u64,
    // p, the normal precision.
    pub precision: u32,
    // s, the sparse precision.
    pub sparse_precision: u32,
    pub sparse_size: u32,
    // The kept count and kept bytes.
    pub sparse_len: usize,
    pub sparse_bytes: usize,
    // The waiting count.
    pub pending_len: usize,
}

impl Accumulator {
    // An accumulator to which nothing was added.
    pub fn new() -> Accumulator
        ensures { result ≡ fresh }
    {
        Accumulator::default()
    }

    // Whether nothing was added.
    pub fn is_empty(self) -> bool
        ensures { result ≡ not (is_started self.form) }
    {
        self.form == Form::Unstarted
    }

    // The number of values in all that was added, each as often as it was.
    pub fn num_values(self) -> u64
        ensures { result ≡ count_of self.form self }
    {
        if self.is_empty() { 0 } else { self.num_values }
    }

    // p and s, where something was added.
    pub fn precisions(self) -> Option<(u32, u32)>
        ensures { result ≡ precisions_of self.form self }
    {
        (!self.is_empty()).then_some((self.precision, self.sparse_precision))
    }

    // How the values of a list are to be read.
    pub fn encoding(self) -> Sparse
        requires { Pair self.precision self.sparse_precision }
        ensures { NewPost self.precision self.sparse_precision result }
    {
        Sparse::new(self.precision, self.sparse_precision)
    }
}
