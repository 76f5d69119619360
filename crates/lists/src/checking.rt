// Tests of a whole list, for memory that was lent: nothing of it is taken on trust. A loop goes to the end even where the answer is known before. The library's
// `is_sorted` and `all` leave their loop early, and then LLVM takes one value a turn; without a way out it takes eight.
ghost use Rattle.std.specs.Prelude.{◌≡◌, true};
ghost use Rattle.lists.specs.Values.{mark};
ghost use Rattle.lists.specs.Sorting.{ascends};
ghost use Rattle.lists.specs.Order.{Below};
ghost use Rattle.lists.specs.Lists.{all_valid};

use crate::merging;
use crate::values::Sparse;

// Whether no value is less than the one before it.
pub fn is_ascending(l: &[u32]) -> bool
    ensures { result ≡ ascends l.now }
{
    let mut all = true;
    for pair in l.windows(2) {
        all &= pair[0] <= pair[1];
    }
    all
}

impl Sparse {
    // Whether every value is valid.
    pub fn all_valid(self, l: &[u32]) -> bool
        ensures { result ≡ all_valid self.normal_precision self.sparse_precision l.now }
    {
        let mut all = true;
        for &v in l {
            all &= self.is_valid(v);
        }
        all
    }

    // Whether every value of an ascending list below the mark is valid: the last one is the largest, and valid is below a bound.
    #[tactic(auto, using(crate::proofs::CheckingLaws::plain_none, crate::proofs::CheckingLaws::plain_last))]
    fn plain_valid(self, l: &[u32]) -> bool
        requires { (ascends l.now ≡ true) × Below (mark self.normal_precision self.sparse_precision) l.now }
        ensures { result ≡ all_valid self.normal_precision self.sparse_precision l.now }
    {
        match l {
            [] => true,
            [.., last] => self.is_valid(*last),
        }
    }

    // Whether every value of an ascending list is valid: the plain ones stand first, and almost every value is one.
    pub fn all_valid_ascending(self, l: &[u32]) -> bool
        requires { ascends l.now ≡ true }
        ensures { result ≡ all_valid self.normal_precision self.sparse_precision l.now }
    {
        let (plain, marked) = l.split_at(self.split_point(l));
        self.plain_valid(plain) && self.all_valid(marked)
    }
}
