// Reads the office sheet from standard input, and prints the founding frame that `ringrun` reads, or EE and the number of the refusal. The sheet may
// arrive in any pieces and have any length; what is done with a piece is proved in hubs.rt, and what is printed in frame.rt.
#![tactic(auto)]

mod frame;
mod hubs;
mod places;

ghost use Rattle.hubsheet.specs.Held.{Taken};

use crate::frame::line_of;
use crate::hubs::Held;
use console::{Arrival, Console, until};

// One read.
fn take_some(console: Console, held: &mut Held, input: &mut [u8]) -> Arrival
    ensures { Taken result held.old.hubs held.old.identifiers input.new held.new.hubs held.new.identifiers }
{
    let arrival = console.receive(input);
    match arrival {
        Arrival::Bytes(n) => held.feed(&input[..n]),
        Arrival::End | Arrival::Failed => {}
    }
    arrival
}

// Whether the run goes on. At the end of the input the line is printed; where a read failed, which is told, nothing is. (Not one match with
// `take_some`, whose contract says what the read did to what is held, by what it brought.)
fn goes_on(console: Console, arrival: Arrival, held: &mut Held) -> bool {
    match arrival {
        Arrival::Bytes(_) => true,
        Arrival::End => {
            let line = line_of(held);
            console.send(line.as_slice());
            false
        }
        Arrival::Failed => false,
    }
}

fn run(console: Console, input: &mut [u8]) {
    let mut held = Held::begun();
    until(|| {
        let arrival = take_some(console, &mut held, input);
        goes_on(console, arrival, &mut held)
    });
}

fn main(rt: HostRuntime) {
    let mut input = io::large_buffer();
    let console = Console {
        rt: &rt,
        name: b"hubsheet",
    };
    run(console, &mut input);
}
