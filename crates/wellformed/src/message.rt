// What is wrong with a message, as a number that is 0 where nothing is. (No tests put together by `&`, as for a row: tried, by which a record of 256
// messages took 65 ns more, and three points of docs/BENCH.md missed their targets.)
ghost use Rattle.std.specs.Prelude.{◌≡◌, ◌&&◌, nat_le, nat_lt, nat_eq};
ghost use Rattle.protocol.specs.WellFormed.{names_node, a_ok, b_ok, hops_ok, message_ok};

use lists::{failure, pick};
use protocol::{Message, kinds};

// Whether a is a node in a message of this kind: JOIN, JOINPOINT, NEWSUCCACK and LEAVEPOINT.
fn names_node(kind: u32) -> bool
    ensures { result ≡ names_node kind }
{
    (kind == kinds::JOIN)
        | (kind == kinds::JOINPOINT)
        | (kind == kinds::NEWSUCCACK)
        | (kind == kinds::LEAVEPOINT)
}

// 'kinds 1 to 14; from and to below n'
fn bad_ends(n: u32, m: Message) -> u32
    ensures { nat_eq result 0 ≡ (nat_le 1 m.kind && nat_lt m.kind 15 && nat_lt m.from n && nat_lt m.to n) }
{
    failure((1 <= m.kind) & (m.kind < 15)) | failure(m.from < n) | failure(m.to < n)
}

// 'LOOKUP has any a, b below asked and hops at most 65535; JOIN, .. have a below n; other message fields are 0'
fn bad_fields(n: u32, asked: u32, m: Message) -> u32
    ensures { nat_eq result 0 ≡ (a_ok n m && b_ok asked m && hops_ok m) }
{
    let names = names_node(m.kind);
    let lookup = failure(m.b < asked) | (m.hops / 65536);
    let others = m.b | m.hops | pick(!names, m.a, 0);
    pick(m.kind == kinds::LOOKUP, lookup, 0)
        | pick(names, failure(m.a < n), 0)
        | pick(m.kind != kinds::LOOKUP, others, 0)
}

// 0 for a message of a ring of n nodes with so many questions asked.
pub fn bad_message(n: u32, asked: u32, m: Message) -> u32
    ensures { nat_eq result 0 ≡ message_ok n asked m }
{
    bad_ends(n, m) | bad_fields(n, asked, m)
}
