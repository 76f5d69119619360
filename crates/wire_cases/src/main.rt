// Replays the vectors of `wire`: a case for each line of standard input, a line on standard output for each. What a case is, and how the
// vectors were made, is said in compare/vectors/README.md.
#![tactic(auto)]

use console::input::{cut, read_bytes, read_cases, read_number};
use console::memory::filled;
use console::show::{FILL, Hex, Replayed, Touched, print_hex, print_remark, replay};
use console::text::{read_value, word};
use console::tried::Tried;
use std::io::Print;
use std::{fmt, io};
use wire::varint::Cursor;
use wire::view::StateView;

// A data field: `-` where it is absent, `.` where it is empty.
#[derive(Clone, Copy)]
struct Field<'a>(Option<&'a [u8]>);

impl fmt::Display for Field<'_> {
    fn fmt<W: fmt::Write>(&self, f: &mut fmt::Formatter<W>) -> fmt::Result {
        match self.0 {
            None => f.write_str("-"),
            Some([]) => f.write_str("."),
            Some(bytes) => write!(f, "{}", Hex(bytes)),
        }
    }
}

// A field that may have many bytes.
fn print_field(rt: &impl Print, field: Option<&[u8]>) -> io::Result<()> {
    match field {
        Some(bytes) if !bytes.is_empty() => {
            print_hex(rt, bytes);
            Ok(())
        }
        _ => print!(rt; "{}", Field(field)),
    }
}

fn print_fields(rt: &impl Print, view: StateView) -> io::Result<()> {
    let f = view.fields;
    let h = f.hll;
    let (kind, count) = (f.aggregator_type.cast_signed(), f.num_values.cast_signed());
    let (version, value_type) = (f.encoding_version.cast_signed(), f.value_type.cast_signed());
    let (size, p, s) = (
        h.sparse_size.cast_signed(),
        h.precision.cast_signed(),
        h.sparse_precision.cast_signed(),
    );
    let data = h.data_present.then_some(view.data());
    let sparse_data = h.sparse_data_present.then_some(view.sparse_data());
    print!(rt; "{kind} {count} {version} {value_type} {size} {p} {s} ")?;
    // Short fields, as most are, are printed by one write.
    if view.data().len() <= 32 && view.sparse_data().len() <= 32 {
        return println!(rt; "{} {}", Field(data), Field(sparse_data));
    }
    print_field(rt, data)?;
    print!(rt; " ")?;
    print_field(rt, sparse_data)?;
    println!(rt; "")
}

fn parse_case(rt: &impl Print, bytes: &[u8]) -> Replayed {
    Some(match StateView::parse(bytes) {
        Ok(view) => print_fields(rt, view),
        Err(e) => println!(rt; "refused {}", e as u8),
    })
}

fn varint_case(rt: &impl Print, at: usize, bytes: &[u8]) -> Replayed {
    Some(match wire::varint::read_varint(bytes, Cursor { at }) {
        Ok((v, next)) => println!(rt; "{v} {}", next.at),
        Err(e) => println!(rt; "refused {}", e as u8),
    })
}

#[tactic(auto, using(wire::proofs::VarintLaws::len_le, console::proofs::TextLaws::front))]
fn put_case(rt: &impl Print, v: u64) -> io::Result<()> {
    let mut out = [0u8; 10];
    let n = wire::varint::put_varint(&mut out, 0, v);
    println!(rt; "{}", Hex(&out[..n]))
}

// Written again into the first `size` bytes of an output.
fn encode_case(rt: &impl Print, size: usize, bytes: &[u8]) -> Replayed {
    let view = StateView::parse(bytes).ok()?;
    let mut out = [FILL; 512];
    Some(match view.encode(out.get_mut(..size)?) {
        Ok(n) => println!(rt; "{}{}", Hex(&out[..n]), Touched(&out[n..])),
        Err(e) => println!(rt; "refused {}{}", e as u8, Touched(&out)),
    })
}

// A case of bytes.
fn with_bytes<F: Fn(&[u8]) -> Replayed + Drop>(operand: &[u8], case: F) -> Replayed
    requires { F.IsAlwaysCallable case }
{
    let mut bytes: [u8; 4096] = filled(0);
    let n = read_bytes(operand, &mut bytes)?;
    case(&bytes[..n])
}

// A case of a number and bytes.
fn with_number<F: Fn(usize, &[u8]) -> Replayed + Drop>(operands: &[u8], case: F) -> Replayed
    requires { F.IsAlwaysCallable case }
{
    let (number, bytes) = cut(operands, b' ');
    let v = read_number(number)? as usize;
    with_bytes(bytes, |bytes| case(v, bytes))
}

// A line: a letter, a blank and its operands. (The second byte is not looked at.)
fn case(rt: &impl Print, line: &[u8]) -> Replayed {
    let rest = line.get(2..).unwrap_or(&[]);
    match *line.first()? {
        b'#' => {
            print_remark(rt, line);
            Some(Ok(()))
        }
        b'p' => with_bytes(rest, |bytes| parse_case(rt, bytes)),
        b'v' => with_number(rest, |at, bytes| varint_case(rt, at, bytes)),
        b'w' => read_number(word(rest, 0)).map(|v| put_case(rt, v)),
        b'l' => read_value(word(rest, 0)).map(|v| println!(rt; "{}", wire::varint::varint_len(v))),
        b'e' => with_number(rest, |size, bytes| encode_case(rt, size, bytes)),
        _ => None,
    }
}

fn main(rt: HostRuntime) {
    let mut buf: [u8; 65536] = filled(0);
    let n = read_cases(&mut rt.stdin(), &rt.stderr(), b"wire_cases", &mut buf);
    replay(&Tried(&rt), &buf[..n], b'\n', case);
}
