// The program `roll`: reads a batch from standard input, rolls it up, and prints what document 01, "The batch", says. A program
// has one input in the gate: `roll_longest` and `roll_too_long` are the same on others.
#![tactic(auto)]

fn main(rt: HostRuntime) {
    reporting::roll(&mut rt.stdin(), &rt.stdout(), &rt.stderr());
}
