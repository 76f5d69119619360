// How many sparse indices a list has. Takes the place of `distinct_indices` in src/accumulator.rs of zetasketch-rs at commit 9abe68bf87
// (Apache-2.0, see NOTICE). Changed: of a list in order, in one walk over its plain and its marked values side by side, in the place of a set of
// bits.
ghost use Rattle.std.specs.Prelude.{◌≡◌};
ghost use Rattle.lists.specs.Lists.{distinct_indices, IndexPre};

use crate::merging;
use crate::values::Sparse;

impl Sparse {
    // The plain values stand first, and each is its index; the indices of the marked ones ascend, too. So an index can be there twice at most, and
    // the two are met side by side.
    pub fn distinct_indices(self, l: &[u32]) -> usize
        requires { IndexPre self l.now }
        ensures { result ≡ distinct_indices self.normal_precision self.sparse_precision l.now }
    {
        let m = self.split_point(l);
        let mut i: usize = 0;
        let mut j = m;
        let mut twice: usize = 0;
        // Which of two values is passed depends on both: no iterator goes along.
        while i < m && j < l.len() {
            let x = l[i];
            let y = self.decode_sparse_index(l[j]);
            twice += usize::from(x == y);
            i += usize::from(x <= y);
            j += usize::from(y <= x);
        }
        l.len() - twice
    }
}
