// The pieces of the trace text, read: values, fixed words, op lines and key lines.
// What each text is stands in specs/, that these functions read exactly that in proofs/. Blocks and runs, made of these pieces, are not here.
//
// A reader takes an input and a place (docs/DECISIONS.md): it looks at s from the place at on; past the end of s nothing stands there. It
// answers what it read and the place after it, or why nothing was read: Unfinished, where further bytes could still make the text right;
// Wrong, where none could.
//
//     key_line_at(b"id=007\n", 0, 5)  answers  Ok((7, 7))
//
// Nothing that an entry point reaches calls a function of the library: docs/DESIGN-PASS.md says why, and what stands in its place.
#![tactic(auto)]

ghost use Rattle.std.specs.Prelude.{◌≡◌};
ghost use Rattle.text.specs.Value.{value_at};
ghost use Rattle.text.specs.Words.{word_at};
ghost use Rattle.text.specs.Ops.{op_line_of, row_at, op_at, row_of_op, by_row};
ghost use Rattle.text.specs.Keys.{key_code};
ghost use Rattle.text.specs.Lines.{key_line_at, line_at};

// Why nothing was read at a place: further bytes could still make the text right, or none could.
#[derive(Clone, Copy, PartialEq, Eq)]
pub enum Misread {
    Unfinished,
    Wrong,
}

// A value line: 1 to 20 digits, of a number up to lim, and a line feed. Answers the number, and the place after its line feed.
pub fn read_value(s: &[u8], at: usize, lim: u64) -> Result<(u64, usize), Misread>
    ensures { result ≡ value_at lim s.now at }
{
    let mut acc: u64 = 0;
    for i in at..s.len() {
        let n = i - at;
        let b = s[i];
        if b == 10 {
            if n == 0 {
                return Err(Misread::Wrong);
            }
            return Ok((acc, i + 1));
        }
        if n == 20 {
            return Err(Misread::Wrong);
        }
        if b < 48 {
            return Err(Misread::Wrong);
        }
        if 57 < b {
            return Err(Misread::Wrong);
        }
        let d = (b - 48) as u64;
        if lim < d {
            return Err(Misread::Wrong);
        }
        if (lim - d) / 10 < acc {
            return Err(Misread::Wrong);
        }
        acc = acc * 10 + d;
    }
    Err(Misread::Unfinished)
}

// The word w, byte for byte. The place at + j fits: it is at, or the bytes before it stand in s.
pub fn word_at(s: &[u8], at: usize, w: &[u8]) -> Result<(), Misread>
    ensures { result ≡ word_at w.now s.now at }
{
    for j in 0..w.len() {
        if s.len() <= at + j {
            return Err(Misread::Unfinished);
        }
        if s[at + j] != w[j] {
            return Err(Misread::Wrong);
        }
    }
    Ok(())
}

// A command's op word, by its row of the op table and of the key table.
#[derive(Clone, Copy, PartialEq, Eq)]
pub enum Op {
    Publish = 0,
    Adopt = 1,
    Acquire = 2,
    Release = 3,
    Revoke = 4,
    Replace = 5,
    Reclaim = 6,
    Read = 7,
    Observe = 8,
    Resolve = 9,
    Count = 10,
}

// The ops in the order of their rows.
const OPS: [Op; 11] = [
    Op::Publish,
    Op::Adopt,
    Op::Acquire,
    Op::Release,
    Op::Revoke,
    Op::Replace,
    Op::Reclaim,
    Op::Read,
    Op::Observe,
    Op::Resolve,
    Op::Count,
];

// The line w, which names the op. Answers the op, and the place after its line.
#[tactic(auto, using(crate::proofs::WordTurns::word_fits), unfolding(crate::specs::Ops::row_at))]
fn row_at(s: &[u8], at: usize, op: Op, w: &[u8]) -> Result<(Op, usize), Misread>
    ensures { by_row result ≡ row_at w.now (row_of_op op) s.now at }
{
    match word_at(s, at, w) {
        Err(e) => Err(e),
        Ok(()) => Ok((op, at + w.len())),
    }
}

// The line of one op.
#[tactic(auto, unfolding(crate::specs::Ops::op_line_of))]
fn op_row(s: &[u8], at: usize, op: Op) -> Result<(Op, usize), Misread>
    ensures { by_row result ≡ row_at (op_line_of (row_of_op op)) (row_of_op op) s.now at }
{
    match op {
        Op::Publish => row_at(s, at, op, b"op=publish\n"),
        Op::Adopt => row_at(s, at, op, b"op=adopt\n"),
        Op::Acquire => row_at(s, at, op, b"op=acquire\n"),
        Op::Release => row_at(s, at, op, b"op=release\n"),
        Op::Revoke => row_at(s, at, op, b"op=revoke\n"),
        Op::Replace => row_at(s, at, op, b"op=replace\n"),
        Op::Reclaim => row_at(s, at, op, b"op=reclaim\n"),
        Op::Read => row_at(s, at, op, b"op=read\n"),
        Op::Observe => row_at(s, at, op, b"op=observe\n"),
        Op::Resolve => row_at(s, at, op, b"op=resolve\n"),
        Op::Count => row_at(s, at, op, b"op=count\n"),
    }
}

// The op line: the op that it names, and the place after it.
pub fn op_at(s: &[u8], at: usize) -> Result<(Op, usize), Misread>
    ensures { by_row result ≡ op_at s.now at }
{
    for op in &OPS {
        let answer = op_row(s, at, *op);
        if !matches!(answer, Err(Misread::Wrong)) {
            return answer;
        }
    }
    Err(Misread::Wrong)
}

// The keys of each command by code, in the order of its lines: 1 owner, 2 generation, 3 port, 4 payload, 5 id, 6 lease; 0 no key. An array of
// arrays of key codes, as docs/DECISIONS.md fixes it.
const KEYS: [[u8; 5]; 11] = [
    [1, 2, 3, 4, 0],
    [5, 1, 2, 0, 0],
    [5, 1, 2, 0, 0],
    [6, 0, 0, 0, 0],
    [5, 0, 0, 0, 0],
    [5, 1, 2, 4, 0],
    [5, 0, 0, 0, 0],
    [6, 0, 0, 0, 0],
    [5, 0, 0, 0, 0],
    [3, 0, 0, 0, 0],
    [0, 0, 0, 0, 0],
];

// The code of a row's k-th key; 0 where there is none.
#[tactic(auto, using(crate::proofs::KeyTable::key_beyond_rows, crate::proofs::KeyTable::key_beyond), unfolding(crate::specs::Keys::key_code))]
pub fn key_code(row: usize, k: usize) -> u8
    ensures { result ≡ key_code row k }
{
    if 11 <= row {
        return 0;
    }
    if 5 <= k {
        return 0;
    }
    KEYS[row][k]
}

// A word and then a value line.
#[tactic(auto, using(crate::proofs::WordTurns::word_fits), unfolding(crate::specs::Lines::line_at))]
fn line_at(s: &[u8], at: usize, w: &[u8], lim: u64) -> Result<(u64, usize), Misread>
    ensures { result ≡ line_at w.now lim s.now at }
{
    match word_at(s, at, w) {
        Err(e) => Err(e),
        Ok(()) => read_value(s, at + w.len(), lim),
    }
}

// The line of a command's key; a code that is none of theirs has no line, and is Wrong.
#[tactic(auto, unfolding(crate::specs::Lines::key_line_at, crate::specs::Keys::key_text, crate::specs::Keys::key_limit))]
pub fn key_line_at(s: &[u8], at: usize, code: u8) -> Result<(u64, usize), Misread>
    ensures { result ≡ key_line_at code s.now at }
{
    match code {
        1 => line_at(s, at, b"owner=", 18446744073709551615),
        2 => line_at(s, at, b"generation=", 18446744073709551615),
        3 => line_at(s, at, b"port=", 4294967295),
        4 => line_at(s, at, b"payload=", 18446744073709551615),
        5 => line_at(s, at, b"id=", 18446744073709551615),
        6 => line_at(s, at, b"lease=", 18446744073709551615),
        _ => Err(Misread::Wrong),
    }
}
