// The replay: reads records from standard input, and writes a line for each and the tally.
#![tactic(auto)]

fn main(rt: HostRuntime) {
    replay_io::replay(&rt, &mut rt.stdin(), &mut rt.stdout());
}
