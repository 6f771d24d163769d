// Answer blocks written at the start of an output, or from a place of it on; every other byte stays.
// These are no entry points: 96 bytes of room, which hold every answer, are for the caller to see to.
ghost use Rattle.std.specs.Prelude.{◌≡◌, [], ◌∷◌, ◌+◌, ◌≤◌, length};
ghost use Rattle.text.specs.Keys.{answer};
ghost use Rattle.writing.specs.Written.{over, over_from};
ghost use Rattle.writing.specs.AnswerKeys.{code_of};
ghost use Rattle.blocks.specs.Answers.{◌is◌, lines_text, answer_text};

use rules::Response;
use writing::inner::{Key, put_line, put_line_at};

// The line answer=0, and then one value.
fn put_value(out: &mut [u8], key: Key, v: u64) -> usize
    requires { length (lines_text ((answer is 0) ∷ (code_of key is v) ∷ [])) ≤ length out.old }
    ensures { (result ≡ length (lines_text ((answer is 0) ∷ (code_of key is v) ∷ []))) × (out.new ≡ over (lines_text ((answer is 0) ∷ (code_of key is v) ∷ [])) out.old) }
{
    let a = put_line(out, Key::Answer, 0);
    put_line_at(out, a, key, v)
}

// The answer that a response is, at the start of out. Answers its length.
#[tactic(auto, using(crate::proofs::AnswerTurns::value_room, crate::proofs::Answers::answer_most, crate::proofs::Answers::answer_line), unfolding(crate::specs::Answers::answer_text))]
pub fn put_response(out: &mut [u8], r: Response) -> usize
    requires { 96 ≤ length out.old }
    ensures { (result ≡ length (answer_text r)) × (out.new ≡ over (answer_text r) out.old) }
{
    match r {
        Response::Refused(e) | Response::Returned(e, _) => {
            put_line(out, Key::Answer, u64::from(e))
        }
        Response::Done => put_line(out, Key::Answer, 0),
        Response::Id(p) => put_value(out, Key::Id, p.0),
        Response::Lease(i) => put_value(out, Key::Lease, i.0),
        Response::Handle(h) => put_value(out, Key::Payload, h),
        Response::Read(x) => {
            let a = put_value(out, Key::Id, x.id.0);
            let b = put_line_at(out, a, Key::Revision, x.revision);
            put_line_at(out, b, Key::Payload, x.handle)
        }
        Response::Observed(x) => {
            let a = put_value(out, Key::Revision, x.revision);
            put_line_at(out, a, Key::Payload, x.handle)
        }
        Response::Count(n) => put_value(out, Key::Count, n),
    }
}

// The same from the place at on: the output's remaining part is lent to the answer's writer, as docs/DECISIONS.md fixes it. Answers the place after the answer.
pub fn put_response_at(out: &mut [u8], at: usize, r: Response) -> usize
    requires { at + 96 ≤ length out.old }
    ensures { (result ≡ at + length (answer_text r)) × (out.new ≡ over_from at (answer_text r) out.old) }
{
    let k = put_response(&mut out[at..], r);
    at + k
}
