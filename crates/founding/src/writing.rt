// The words of a fresh ring, written over whatever the slice came with.
ghost use Rattle.std.specs.Prelude.{◌≡◌, ◌++◌, map, ◌≤◌, ◌<◌, length, drop, replicate};
ghost use Rattle.lists.specs.Splice.{splice};
ghost use Rattle.lists.specs.Basics.{flat};
ghost use Rattle.protocol.specs.Record.{most_nodes, row_start, record_size, row_words, words, outside};
ghost use Rattle.protocol.specs.Fresh.{fresh};

use crate::founder::alone_row;
use protocol::form::{FORM, RECORD_WORDS};
use record::put_row;

// Unused rows and messages are all 0, so old words must go.
pub fn clear(w: &mut [u32], n: usize)
    requires { n ≤ length w.old }
    ensures { w.new ≡ replicate n 0 ++ drop n w.old }
{
    w[..n].fill(0);
}

// Every node starts outside, the founder too: it gets its own row afterwards, so that this loop has no case.
fn put_rows(w: &mut [u32], identifiers: &[u32])
    requires { (length identifiers.now ≤ most_nodes) × (record_size ≤ length w.old) }
    ensures { w.new ≡ splice w.old (row_start 0) (flat row_words (map outside identifiers.now)) }
{
    for (i, identifier) in identifiers.iter().enumerate() {
        put_row(w, i as u32, record::outside_row(*identifier));
    }
}

// Writes the whole record. Message count and asked are among the cleared words.
pub fn write_fresh(w: &mut [u32], identifiers: &[u32], founder: usize)
    requires { (founder < length identifiers.now) × (length identifiers.now ≤ most_nodes) × (record_size ≤ length w.old) }
    ensures { w.new ≡ words (fresh identifiers.now founder) ++ drop record_size w.old }
{
    clear(w, RECORD_WORDS);
    w[0] = FORM;
    w[1] = identifiers.len() as u32;
    put_rows(w, identifiers);
    let node = founder as u32;
    let identifier = identifiers[founder];
    put_row(w, node, alone_row(node, identifier));
}
