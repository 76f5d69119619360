// The text that is printed of a batch, made in a lent buffer. Each function's contract says which bytes it puts: they are the definition's.
// (The whole output and a place in it: the contract says what stands at that place of the whole.)
ghost use Rattle.std.specs.Prelude.{◌≡◌, ◌+◌, ◌*◌, ◌≤◌, length, take};
ghost use Rattle.std.specs.Int.{cast_unsigned, w64};
ghost use Rattle.std.specs.Counts.{IsPrefixLen};
ghost use Rattle.wire.specs.Varints.{PutPost};
ghost use Rattle.reporting.specs.Numbers.{number_text};
ghost use Rattle.rollup.specs.Refusals.{answer_of, length_of};
ghost use Rattle.reporting.specs.Text.{answer_line, answer_lines, ending_text, not_zero_of, numbers_text, state_text, report_text};
ghost use Rattle.reporting.specs.Report.{ReportIn};

use batch::closing::Report;
use batch::records::Ending;
use console::output;
use rollup::accumulator::Accumulator;
use rollup::refusal::Refusal;
use wire::encoding::put_bytes;

// Puts a number in decimal and the byte after it, a blank or a newline, and answers the position past them.
fn put_number(text: &mut [u8], at: usize, v: i64, end: u8) -> usize
    requires { at + 22 ≤ length text.old }
    ensures put { PutPost text.old at (number_text (cast_unsigned w64 v) end) result text.new }
    ensures room { result ≤ at + 22 }
{
    let mut digits = itoa::Buffer::new();
    let next = put_bytes(text, at, digits.format(v).as_bytes());
    put_bytes(text, next, &[end])
}

// A line with an ordinal and a number.
fn put_answer(text: &mut [u8], at: usize, ordinal: usize, answer: u8) -> usize
    requires { at + 44 ≤ length text.old }
    ensures put { PutPost text.old at (answer_line ordinal answer) result text.new }
    ensures room { result ≤ at + 44 }
{
    let next = put_number(text, at, (ordinal as u64).cast_signed(), b' ');
    put_number(text, next, i64::from(answer), b'\n')
}

// The lines of all records at the front of the buffer. A line has 10 bytes at most: an ordinal of five digits, an answer of three, a blank, a newline.
fn put_answers(text: &mut [u8], answers: &[u8]) -> usize
    requires { (10 * length answers.now + 44 ≤ length text.old) × (length answers.now ≤ 65536) }
    ensures { PutPost text.old 0 (answer_lines 1 answers.now) result text.new × (result ≤ 10 * length answers.now) }
{
    let mut at: usize = 0;
    for (i, &answer) in answers.iter().enumerate() {
        at = put_answer(text, at, 1 + i, answer);
    }
    at
}

// The end of a chain after so many records: nothing where it ends with an index of zero. `Full` cannot come up with 65,536 cells (`never_full` of
// `batch`).
#[tactic(auto, unfolding(crate::specs::Text::ending_text))]
fn put_ending(text: &mut [u8], at: usize, ending: Result<(), Ending>, records: usize) -> usize
    requires { (at + 44 ≤ length text.old) × (records ≤ 65536) }
    ensures put { PutPost text.old at (ending_text ending records) result text.new }
    ensures room { result ≤ at + 44 }
{
    match ending {
        Ok(()) | Err(Ending::Full) => at,
        Err(Ending::Refused(e)) => put_answer(text, at, e.ordinal(records), e.number()),
    }
}

// p, s, value count, registers not zero.
fn put_numbers(text: &mut [u8], at: usize, a: Accumulator, not_zero: Option<usize>) -> usize
    requires { at + 88 ≤ length text.old }
    ensures put { PutPost text.old at (numbers_text a not_zero) result text.new }
    ensures room { result ≤ at + 88 }
{
    let second = put_number(text, at, i64::from(a.precision), b' ');
    let s = i64::from(a.sparse_precision.cast_signed());
    let third = put_number(text, second, s, b' ');
    let fourth = put_number(text, third, a.num_values.cast_signed(), b' ');
    // `None` cannot come up: the piece lent for a list's registers is as long as the registers.
    let count = not_zero.unwrap_or(0) as u64;
    put_number(text, fourth, count.cast_signed(), b'\n')
}

// The written state and a newline, or the number of the refusal.
fn put_state(text: &mut [u8], at: usize, written: Result<usize, Refusal>, out: &[u8]) -> usize
    requires { (length_of written ≤ length out.now) × (at + 2 * length_of written + 22 ≤ length text.old) }
    ensures put { PutPost text.old at (state_text (answer_of written) (take (length_of written) out.now)) result text.new }
    ensures room { result ≤ at + 2 * length_of written + 22 }
{
    match written {
        Ok(len) => {
            let end = at + output::hex(&out[..len], &mut text[at..]);
            text[end] = b'\n';
            end + 1
        }
        Err(e) => put_number(text, at, i64::from(e.number()), b'\n'),
    }
}

// The whole text of a report at the front of the buffer, which takes the longest: 21,844 lines, the line of 24 or 25, the four numbers, and a state of
// 65,536 bytes.
pub(crate) fn put_report(r: Report, answers: &[u8], out: &[u8], text: &mut [u8; 350000]) -> usize
    requires { ReportIn r answers.now out.now }
    ensures { PutPost text.old 0 (report_text r answers.now out.now) result text.new × IsPrefixLen result text.new }
{
    let rolled = r.rolled;
    let lines = put_answers(text, &answers[..rolled.records]);
    let chain = put_ending(text, lines, rolled.ending, rolled.records);
    let numbers = put_numbers(text, chain, rolled.head, r.not_zero);
    put_state(text, numbers, r.written, out)
}
