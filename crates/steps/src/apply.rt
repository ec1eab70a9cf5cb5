// What a decision does to the words. Ask apart, which writes its ticket and its question itself (asks.rt), and a delivery, which takes its
// message out first, it is the only place where a step writes. It is not reached where a step is refused.
ghost use Rattle.std.specs.Prelude.{◌≡◌, ◌<◌, ◌≤◌, length, Ok};
ghost use Rattle.protocol.specs.Record.{most_nodes, most_messages, record_size};
ghost use Rattle.steps.specs.Settle.{settled as settled_words};

use protocol::{Answer, Decision};

// A decision at node t, with m messages that stay. A sent one goes last.
pub(crate) fn settle(w: &mut [u32], m: u32, t: u32, d: Decision) -> Answer
    requires { (m < most_messages) × (t < most_nodes) × (record_size ≤ length w.old) }
    ensures { settled_words w.old m t d ≡ record { outcome = Ok result; slice = w.new } }
{
    match d {
        Decision::Reply(h, a) => {
            record::put_row(w, t, h);
            a
        }
        Decision::Send(h, u, a) => {
            record::put_row(w, t, h);
            record::push(w, m, u);
            a
        }
    }
}
