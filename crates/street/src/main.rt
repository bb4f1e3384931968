// The street program: reads lines from standard input, and prints an answer to each.
#![tactic(auto)]

fn main(rt: HostRuntime) {
    let mut input = rt.stdin();
    let mut output = rt.stdout();
    let mut errors = rt.stderr();
    street_console::run(&mut input, &mut output, &mut errors);
}
