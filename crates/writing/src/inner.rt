// Texts written at the start of an output, or from a place of it on. Each writer wants room for its text; every other byte stays.
// These are no entry points: the room is for the caller to see to.
ghost use Rattle.std.specs.Prelude.{◌≡◌, ◌+◌, ◌≤◌, length};
ghost use Rattle.rules.specs.Refusals.{name_of};
ghost use Rattle.text.specs.Digits.{digits};
ghost use Rattle.text.specs.Keys.{key_text};
ghost use Rattle.text.specs.Lines.{line_text};
ghost use Rattle.writing.specs.Written.{over, over_from};
ghost use Rattle.writing.specs.AnswerKeys.{code_of};

// The word w.
pub fn put(out: &mut [u8], w: &[u8]) -> usize
    requires { length w.now ≤ length out.old }
    ensures { (result ≡ length w.now) × (out.new ≡ over w.now out.old) }
{
    for j in 0..w.len() {
        out[j] = w[j];
    }
    w.len()
}

// The digits of n, with no leading zeros.
pub fn put_number(out: &mut [u8], n: u64) -> usize
    requires { length (digits n) ≤ length out.old }
    ensures { (result ≡ length (digits n)) × (out.new ≡ over (digits n) out.old) }
{
    if n < 10 {
        out[0] = 48 + (n % 10) as u8;
        return 1;
    }
    let k = put_number(out, n / 10);
    out[k] = 48 + (n % 10) as u8;
    k + 1
}

// The name of the number n, of an answer or of a stop: docs/DECISIONS.md fixes the form, a match over the numbers.
#[tactic(auto, unfolding(rules::specs::Refusals::name_of))]
pub fn put_name(out: &mut [u8], n: u64) -> usize
    requires { 12 ≤ length out.old }
    ensures { (result ≡ length (name_of n)) × (out.new ≡ over (name_of n) out.old) }
{
    match n {
        0 => put(out, b"Done"),
        1 => put(out, b"Unknown"),
        2 => put(out, b"Revoked"),
        3 => put(out, b"Conflict"),
        4 => put(out, b"Relied"),
        5 => put(out, b"Visible"),
        6 => put(out, b"Released"),
        7 => put(out, b"Capacity"),
        8 => put(out, b"InvalidState"),
        9 => put(out, b"BadTable"),
        10 => put(out, b"Absent"),
        11 => put(out, b"BadLine"),
        12 => put(out, b"NoRoom"),
        13..=18446744073709551615 => put(out, b"unnamed"),
    }
}

// An answer's key, with its code in the crate text.
#[derive(Clone, Copy)]
pub enum Key {
    Payload = 4,
    Id = 5,
    Lease = 6,
    Answer = 7,
    Revision = 8,
    Count = 9,
}

// An answer's key and its sign.
#[tactic(auto, unfolding(text::specs::Keys::key_text))]
pub fn put_key(out: &mut [u8], key: Key) -> usize
    requires { length (key_text (code_of key)) ≤ length out.old }
    ensures { (result ≡ length (key_text (code_of key))) × (out.new ≡ over (key_text (code_of key)) out.old) }
{
    match key {
        Key::Payload => put(out, b"payload="),
        Key::Id => put(out, b"id="),
        Key::Lease => put(out, b"lease="),
        Key::Answer => put(out, b"answer="),
        Key::Revision => put(out, b"revision="),
        Key::Count => put(out, b"count="),
    }
}

// An answer's line: key, value, line feed.
pub fn put_line(out: &mut [u8], key: Key, n: u64) -> usize
    requires { length (line_text (code_of key) n) ≤ length out.old }
    ensures { (result ≡ length (line_text (code_of key) n)) × (out.new ≡ over (line_text (code_of key) n) out.old) }
{
    let a = put_key(out, key);
    let b = put_number(&mut out[a..], n);
    let e = a + b;
    out[e] = 10;
    e + 1
}

// The same from the place at on: the output's remaining part is lent to the line's writer, as docs/DECISIONS.md fixes it. Answers the place after the line.
pub fn put_line_at(out: &mut [u8], at: usize, key: Key, n: u64) -> usize
    requires { at + length (line_text (code_of key) n) ≤ length out.old }
    ensures { (result ≡ at + length (line_text (code_of key) n)) × (out.new ≡ over_from at (line_text (code_of key) n) out.old) }
{
    let k = put_line(&mut out[at..], key, n);
    at + k
}
