// The program `roll` again, which the gate runs on a batch of 65,536 bytes, the longest that there may be, with a state of p = 15. A crate
// of its own, since a program has one input in the gate.
#![tactic(auto)]

fn main(rt: HostRuntime) {
    reporting::roll(&mut rt.stdin(), &rt.stdout(), &rt.stderr());
}
