// The memory that the programs lend.
ghost use Rattle.std.specs.Prelude.{◌≡◌, length};

// This value N times. Of an array that is lent as a slice a caller need only know the length, and written out it would stand in each goal.
pub fn filled<T: Copy, const N: usize>(v: T) -> [T; N]
    ensures { N ≡ length result }
{
    [v; N]
}
