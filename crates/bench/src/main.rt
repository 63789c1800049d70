// The program `bench`: check, start, step, back, set and show on session files, one command a call, as the second program has them.
#![tactic(auto)]

use command::asked;
use shell::perform;

mod answer;
mod command;
mod number;
mod shell;

fn main(rt: HostRuntime) {
    perform(&rt, asked(&rt));
}
