// The stream of sessions: reading and saving held to the second program's answers, between moves.
#![tactic(auto)]

// More bytes than all the cases have.
const ALL: usize = 2097152;

fn main(rt: HostRuntime) {
    let mut input: [u8; ALL] = words::full(0);
    // A failure has been complained of.
    let _ = lines::program(&rt, b"session_lines", &mut input);
}
