// An identifier in decimal.
ghost use Rattle.std.specs.Prelude.{◌≡◌, ◌+◌, ◌≤◌, length};
ghost use Rattle.lists.specs.Splice.{splice};
ghost use Rattle.sheets.specs.Writer.{digit_count as digit_count_spec, last_digits};

// 0 has one digit, as 1 has.
pub(crate) fn digit_count(v: u32) -> usize
    ensures { result ≡ digit_count_spec v }
{
    v.max(1).ilog10() as usize + 1
}

// The last digits of a number from a place of the text on, the last one first. By indices: tried by `iter_mut().rev()`, the proof of what the text
// is then did not close, since nothing is known of what was written through it. The frames' `put` is no twin: its base and its digits are others, and
// each is stated by its own document's definition (`last_digits` here, `print` there).
pub(crate) fn put_digits(text: &mut [u8], at: usize, count: usize, v: u32)
    requires { at + count ≤ length text.old }
    ensures { text.new ≡ splice text.old at (last_digits count v) }
{
    let mut rest = v;
    for i in (0..count).rev() {
        text[at + i] = b'0' + (rest % 10) as u8;
        rest /= 10;
    }
}
