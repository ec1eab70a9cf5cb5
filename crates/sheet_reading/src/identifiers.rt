// Where the identifiers of a sheet go: words, or bytes, four a word, lowest first, for callers in C. (The writer has a trait of its own for where
// they come from: one puts, the other gives, and no member would be shared.)
ghost use Rattle.std.specs.Prelude.{◌≡◌, List, [], ◌∷◌, ℕ, ◌+◌, ◌*◌, ◌≤◌, ◌<◌, length};
ghost use Rattle.lists.specs.Splice.{splice};
ghost use Rattle.protocol.specs.Bytes.{bytes_of};
ghost use Rattle.sheets.specs.Calls.{as_words};
ghost use Rattle.sheet_reading.specs.Carried.{Forms, words_form, bytes_form};

pub(crate) trait Identifier: Copy {
    ghost held: { List Self → List ℕ };

    // Identifiers as they lie there, and how many places each takes.
    ghost form: { List ℕ → List ℕ };

    ghost each: { ℕ };

    ghost laws: { Forms form each };

    // How many identifiers have room.
    fn room(places: &[Self]) -> usize
        ensures fits { each * result ≤ length (held places.now) }
        ensures most { length (held places.now) < each * (result + 1) };

    fn put(places: &mut [Self], row: usize, identifier: u32)
        requires { each * (row + 1) ≤ length (held places.old) }
        ensures { held places.new ≡ splice (held places.old) (each * row) (form (identifier ∷ [])) };
}

impl Identifier for u32 {
    ghost held = { λ l. l };

    ghost form = { as_words };

    ghost each = { 1 };

    ghost laws = { words_form };

    fn room(places: &[u32]) -> usize {
        places.len()
    }

    fn put(places: &mut [u32], row: usize, identifier: u32) {
        places[row] = identifier;
    }
}

impl Identifier for u8 {
    ghost held = { λ l. l };

    ghost form = { λ i. bytes_of i };

    ghost each = { 4 };

    ghost laws = { bytes_form };

    fn room(places: &[u8]) -> usize {
        places.len() / 4
    }

    fn put(places: &mut [u8], row: usize, identifier: u32) {
        places[4 * row..4 * row + 4].copy_from_slice(&identifier.to_le_bytes());
    }
}
