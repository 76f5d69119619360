// A batch of the states that the lines of a text spell.
ghost use Rattle.std.specs.Prelude.{◌≡◌, length};
ghost use Rattle.exports.specs.Lines.{held};
ghost use Rattle.exports.specs.Packing.{packing_of, LinePre, LinePost, PackPre, PackedPost};

use crate::lines;
use batch::packing;
use console::input::Pieces;

// Where the batch so far ends, and where the index stands that ends its chain.
#[derive(Clone, Copy)]
pub struct Place {
    pub last: usize,
    pub end: usize,
}

// The number of the first line that spells no state, or whose record does not fit.
#[derive(Clone, Copy, Debug, PartialEq, Eq)]
pub enum PackError {
    BadLine(usize),
    TooLong(usize),
}

// Packs the state of line n, where it has one.
fn pack_line(
    word: &[u8],
    n: usize,
    spare: &mut [u8],
    out: &mut [u8],
    p: Place,
) -> Result<Place, PackError>
    requires { LinePre word.now spare.old out.old p }
    ensures { LinePost (held word.now) n out.old p result out.new }
{
    if word.is_empty() {
        return Ok(p);
    }
    let Some(len) = lines::read_state(word, spare) else {
        return Err(PackError::BadLine(n));
    };
    if out.len() - p.end < len + 8 {
        return Err(PackError::TooLong(n));
    }
    let end = packing::put_record(out, p.last, p.end, &spare[..len]);
    Ok(Place { last: p.end, end })
}

// Packs the states of the lines into `out`, in their order, up to the first line that is refused. The answer is how many bytes the batch has. A state is read
// into `spare` first.
pub fn pack(text: &[u8], spare: &mut [u8], out: &mut [u8]) -> Result<usize, PackError>
    requires { PackPre text.now spare.old out.old }
    ensures { PackedPost (packing_of (length out.old) text.now) spare.old out.old result spare.new out.new }
{
    let first = packing::put_word(out, 0, 0);
    let mut p = Place {
        last: 0,
        end: first,
    };
    for (n, piece) in Pieces::new(text, b'\n').enumerate() {
        p = pack_line(lines::trim(piece), n + 1, spare, out, p)?;
    }
    Ok(p.end)
}
