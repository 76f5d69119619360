// Base64, as RFC 4648 has it in section 4: strict, with padding, and the bits that padding leaves over are zero. By hand, and not by the kit's crate `base64`:
// its contract is for any engine, the definition here follows the RFC, and a crate would be one more library to believe.
ghost use Rattle.std.specs.Prelude.{◌≡◌, ◌+◌, ◌≤◌, ◌<◌, length, take, Some, IfSome};
ghost use Rattle.std.proofs.lemmas.List.Edits.{sets};
ghost use Rattle.console.specs.Input.{up_to, onto};
ghost use Rattle.exports.specs.Words.{Decodes, DecodedPost};
ghost use Rattle.exports.specs.Base64.{alphabet, sextet_of, bits_of, three_of, end_of, base64_of, EndPre};

// The place in the alphabet of each character from `+` to `z`, 64 where it has none.
const PLACES: [u8; 80] = [
    62, 64, 64, 64, 63, 52, 53, 54, 55, 56, 57, 58, 59, 60, 61, 64, 64, 64, 64, 64, 64, 64, 0, 1,
    2, 3, 4, 5, 6, 7, 8, 9, 10, 11, 12, 13, 14, 15, 16, 17, 18, 19, 20, 21, 22, 23, 24, 25, 64, 64,
    64, 64, 64, 64, 26, 27, 28, 29, 30, 31, 32, 33, 34, 35, 36, 37, 38, 39, 40, 41, 42, 43, 44, 45,
    46, 47, 48, 49, 50, 51,
];

// The place of a character in the alphabet, 64 for any other byte. From a table: a search takes several times as long.
#[tactic(auto, using(crate::proofs::Base64Laws::place_at, crate::proofs::Base64Laws::place_before, crate::proofs::Base64Laws::place_behind))]
fn place(b: u8) -> usize
    ensures { result ≡ up_to b alphabet }
{
    if b < b'+' {
        return 64;
    }
    match PLACES.get(usize::from(b - b'+')) {
        Some(&v) => usize::from(v),
        None => 64,
    }
}

// The value of a character is its place.
#[tactic(auto, unfolding(crate::specs::Base64::sextet_of))]
fn sextet(b: u8) -> Option<usize>
    ensures value { result ≡ sextet_of b }
    ensures small { IfSome result (λ v. v < 64) }
{
    let v = place(b);
    if v < 64 { Some(v) } else { None }
}

// The 24 bits of four characters.
fn bits(a: u8, b: u8, c: u8, d: u8) -> Option<usize>
    ensures value { result ≡ bits_of (sextet_of a) (sextet_of b) (sextet_of c) (sextet_of d) }
    ensures small { IfSome result (λ v. v < 16777216) }
{
    let high = sextet(a)? * 262144 + sextet(b)? * 4096;
    Some(high + sextet(c)? * 64 + sextet(d)?)
}

fn put_three(out: &mut [u8], n: usize, v: usize)
    requires { (v < 16777216) × (n + 3 ≤ length out.old) }
    ensures { out.new ≡ sets out.old n (three_of v) }
{
    out[n] = (v / 65536) as u8;
    out[n + 1] = (v / 256 % 256) as u8;
    out[n + 2] = (v % 256) as u8;
}

// The last group's bytes behind the n that stand there.
fn put_end(out: &mut [u8], n: usize, v: usize, k: usize, unit: usize) -> Option<usize>
    requires { EndPre v k unit n (length out.old) }
    ensures { Decodes (onto (take n out.old) (end_of k unit (Some v))) result out.new }
{
    if v % unit != 0 {
        return None;
    }
    put_three(out, n, v);
    Some(n + k)
}

// The group at the end of the word, which alone may be padded. What padding leaves out counts as an A, whose value is 0.
fn last_group(group: &[u8], out: &mut [u8], n: usize) -> Option<usize>
    requires { (length group.now ≡ 4) × (n + 3 ≤ length out.old) }
    ensures { Decodes (onto (take n out.old) (base64_of group.now)) result out.new }
{
    let (a, b, third, fourth) = (group[0], group[1], group[2], group[3]);
    if fourth != b'=' {
        return put_end(out, n, bits(a, b, third, fourth)?, 3, 1);
    }
    if third != b'=' {
        return put_end(out, n, bits(a, b, third, b'A')?, 2, 256);
    }
    put_end(out, n, bits(a, b, b'A', b'A')?, 1, 65536)
}

// A byte string in base64, which is the whole word, put at the front of `out`. The answer is how many bytes there are.
pub fn decode_base64(word: &[u8], out: &mut [u8]) -> Option<usize>
    requires { length word.now ≤ length out.old }
    ensures { DecodedPost (base64_of word.now) out.old result out.new }
{
    if word.is_empty() {
        return Some(0);
    }
    if word.len() % 4 != 0 {
        return None;
    }
    let (front, last) = word.split_at(word.len() - 4);
    // By the place, and not over `out.chunks_exact_mut(3)`: no contract says what a slice that is lent to it ends as.
    for (i, group) in front.chunks_exact(4).enumerate() {
        let v = bits(group[0], group[1], group[2], group[3])?;
        put_three(out, 3 * i, v);
    }
    last_group(last, out, front.len() / 4 * 3)
}
