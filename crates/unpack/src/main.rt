// The program `unpack`: a batch to lines of states.
#![tactic(auto)]

fn main(rt: HostRuntime) {
    exports::programs::unpack(&mut rt.stdin(), &rt.stdout(), &rt.stderr());
}
