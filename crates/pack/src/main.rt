// The program `pack`: lines of states to a batch.
#![tactic(auto)]

fn main(rt: HostRuntime) {
    exports::programs::pack(&mut rt.stdin(), &rt.stdout(), &rt.stderr());
}
