// A ring, line by line, in words: frames as `ringrun` reads them, and lines that ask for what `ringrun` does not show: rows, rolls, waiting messages and
// counts (docs/INSPECT.md). What it prints is compared with the model's (tests/inspect, tests/differential).
#![tactic(auto)]

mod bounds;
mod inquiries;
mod session;
mod taking;
mod waiting;

use console::{Console, until};
use taking::Desk;

fn main(rt: HostRuntime) {
    let console = Console {
        rt: &rt,
        name: b"inspect",
    };
    let mut desk = Desk::new();
    let mut input = [0u8; 8192];
    until(|| desk.take_some(console, &mut input));
}
