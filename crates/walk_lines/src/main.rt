// The stream of walks: the machine held to the second program's answers.
#![tactic(auto)]

// More bytes than all the cases have.
const ALL: usize = 1048576;

fn main(rt: HostRuntime) {
    let mut input: [u8; ALL] = words::full(0);
    // A failure has been complained of.
    let _ = lines::program(&rt, b"walk_lines", &mut input);
}
