// The program `roll` on a standard input of one byte more than a batch may have, whose first record is good: 24, and not the roll-up of what fits a batch.
// A crate of its own, since a program has one input in the gate.
#![tactic(auto)]

fn main(rt: HostRuntime) {
    reporting::roll(&mut rt.stdin(), &rt.stdout(), &rt.stderr());
}
