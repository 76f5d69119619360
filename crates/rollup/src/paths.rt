// Which path the values that come to a roll-up take. Ported from the tests in `merge_sparse` in src/accumulator.rs of zetasketch-rs at commit 9abe68bf87 (Apache-2.0,
// see NOTICE). Changed: the tests stand by themselves, in front of the first store, with an enum for the answer.
ghost use Rattle.std.specs.Prelude.{◌≡◌};
ghost use Rattle.rollup.specs.Taking.{waits, inserts, list_path, path_of};
ghost use Rattle.rollup.specs.Stages.{WaitPre, InsertsPre, PathPre};

use crate::accumulator::{Accumulator, Form};
use crate::fitting;
use crate::incoming::Incoming;

// How many values are inserted at most, and how many are to be kept already for each of them.
const MAX_INSERT: usize = 16;

const KEPT_FOR_EACH: usize = 16;

// The paths of values at a list roll-up.
#[derive(Clone, Copy, Debug, PartialEq, Eq)]
pub enum Path {
    Waits,
    // They are sorted with those that wait, and all are merged.
    Sorts,
    Inserts,
    Merges,
}

impl Accumulator {
    // Whether k values wait.
    fn waits(self, x: Incoming, k: usize) -> bool
        requires { WaitPre self x k }
        ensures { result ≡ waits self x k }
    {
        self.waiting_bound() + x.growth < fitting::size_limit(self.precision)
            && self.pending_len + k <= x.most
    }

    // Whether k values are inserted, where none wait. `distinct` says that the list is known to be one that a merge can leave; else it is walked.
    fn inserts(self, kept: &[u32], k: usize, distinct: bool) -> bool
        requires { InsertsPre self kept.now distinct }
        ensures { result ≡ inserts self kept.now k }
    {
        k <= MAX_INSERT
            && KEPT_FOR_EACH * k <= self.sparse_len
            && (distinct || self.encoding().has_distinct_slots(kept))
    }

    // The path of k values at a list roll-up; without values there is none.
    fn list_path(self, x: Incoming, kept: &[u32], k: usize, distinct: bool) -> Option<Path>
        requires { WaitPre self x k × InsertsPre self kept.now distinct }
        ensures { result ≡ list_path self kept.now x k }
    {
        if k == 0 {
            None
        } else if self.waits(x, k) {
            Some(Path::Waits)
        } else if self.pending_len != 0 {
            Some(Path::Sorts)
        } else if self.inserts(kept, k, distinct) {
            Some(Path::Inserts)
        } else {
            Some(Path::Merges)
        }
    }

    // The path of k values at any roll-up: one without a list has none. It takes a head and `distinct`, and no `Fitted` of the two: a caller may have a head alone,
    // and would have to make one.
    pub fn path_of(self, x: Incoming, kept: &[u32], k: usize, distinct: bool) -> Option<Path>
        requires { PathPre self x kept.now k distinct }
        ensures { result ≡ path_of self.form self kept.now x k }
    {
        if self.form == Form::Sparse {
            self.list_path(x, kept, k, distinct)
        } else {
            None
        }
    }
}
