// The same on lines of every answer and at every limit.
#![tactic(auto)]

fn main(rt: HostRuntime) {
    console::run(&mut rt.stdin(), 7);
}
