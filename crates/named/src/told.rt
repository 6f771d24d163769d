// A command and a response in words: the op, and the keys by name with their values. Keys are held by the codes of the crate text, 1 to 9,
// and 0 where there is no key, since the clauses speak of the rows of its key table.
ghost use Rattle.std.specs.Prelude.{◌≡◌, Some, ◌++◌, ◌∷◌, [], get_or};
ghost use Rattle.lists.specs.Letters.{letters};
ghost use Rattle.rules.specs.Responses.{response_number};
ghost use Rattle.text.specs.Decimal.{line_feed};
ghost use Rattle.text.specs.Keys.{key_words};
ghost use Rattle.text.specs.Ops.{op_words, op_line_of, row_of_op};
ghost use Rattle.blocks.specs.Blocks.{row_of, values_of, keys_of};
ghost use Rattle.blocks.specs.Answers.{value_lines, ◌is◌};
ghost use Rattle.named.specs.Told.{key_values, pair_text, pairs_text, words_text};

use rules::{Command, Response};
use std::fmt;
use text::{Op, key_code};

// A command in words: the op, at least so wide, and the keys of its row with their values. `sign` joins a key and its value, and `between`
// joins two of those.
#[derive(Clone, Copy)]
pub struct InWords<'a> {
    pub command: Command,
    pub width: usize,
    pub sign: &'a str,
    pub between: &'a str,
}

impl fmt::Display for InWords<'_> {
    ghost output = { λ w. Some (words_text w.width w.sign.now w.between.now w.command) };

    fn fmt<W: fmt::Write>(&self, f: &mut fmt::Formatter<W>) -> fmt::Result {
        let InWords {
            command,
            width,
            sign,
            between,
        } = *self;
        let request = asked(command);
        write!(
            f,
            "{:<width$} {}",
            word(request.op),
            request.pairs(sign, between)
        )
    }
}

// A response's number: a refusal's own, and 0 where the command is carried out.
pub fn number(response: Response) -> u64
    ensures { result ≡ response_number response }
{
    match response {
        Response::Refused(why) | Response::Returned(why, _) => u64::from(why),
        _ => 0,
    }
}

// What a response gives: its keys with their values, joined in the same way. Of a refusal and of Done that is nothing.
#[derive(Clone, Copy)]
pub struct Given<'a> {
    pub response: Response,
    pub sign: &'a str,
    pub between: &'a str,
}

impl fmt::Display for Given<'_> {
    ghost output = { λ g. Some (pairs_text g.sign.now g.between.now (value_lines g.response)) };

    fn fmt<W: fmt::Write>(&self, f: &mut fmt::Formatter<W>) -> fmt::Result {
        let Given {
            response,
            sign,
            between,
        } = *self;
        write!(f, "{}", answered(response).pairs(sign, between))
    }
}

// A key's word by its code, as its line has it; nothing where there is no key.
fn key(code: u8) -> &'static str
    ensures { result.now ≡ get_or key_words code [] }
{
    match code {
        1 => "owner",
        2 => "generation",
        3 => "port",
        4 => "payload",
        5 => "id",
        6 => "lease",
        7 => "answer",
        8 => "revision",
        9 => "count",
        _ => "",
    }
}

// The op's word, as its line has it.
#[tactic(auto, unfolding(text::specs::Ops::op_line_of))]
fn word(op: Op) -> &'static str
    ensures line { letters "op=" ++ result.now ++ line_feed ∷ [] ≡ op_line_of (row_of_op op) }
    ensures word { result.now ≡ get_or op_words (row_of_op op) [] }
{
    match op {
        Op::Publish => "publish",
        Op::Adopt => "adopt",
        Op::Acquire => "acquire",
        Op::Release => "release",
        Op::Revoke => "revoke",
        Op::Replace => "replace",
        Op::Reclaim => "reclaim",
        Op::Read => "read",
        Op::Observe => "observe",
        Op::Resolve => "resolve",
        Op::Count => "count",
    }
}

// What stands before a pair. Where that is nothing, nothing is written: a caller's own writer may refuse an empty text.
#[derive(Clone, Copy)]
struct Lead<'a>(&'a str);

impl fmt::Display for Lead<'_> {
    ghost output = { λ l. Some l.0.now };

    fn fmt<W: fmt::Write>(&self, f: &mut fmt::Formatter<W>) -> fmt::Result {
        let Lead(text) = *self;
        if text.is_empty() {
            return Ok(());
        }
        f.write_str(text)
    }
}

// A key by its word, its sign and its value, after what stands before it.
#[derive(Clone, Copy)]
struct Pair<'a> {
    lead: Lead<'a>,
    code: u8,
    sign: &'a str,
    value: u64,
}

impl fmt::Display for Pair<'_> {
    ghost output = { λ p. Some (p.lead.0.now ++ pair_text p.sign.now (p.code is p.value)) };

    fn fmt<W: fmt::Write>(&self, f: &mut fmt::Formatter<W>) -> fmt::Result {
        let Pair {
            lead,
            code,
            sign,
            value,
        } = *self;
        write!(f, "{lead}{}{sign}{value}", key(code))
    }
}

// Keys with their values, up to the first code 0.
#[derive(Clone, Copy)]
struct Pairs<'a> {
    keys: [u8; 5],
    values: [u64; 5],
    sign: &'a str,
    between: &'a str,
}

impl fmt::Display for Pairs<'_> {
    ghost output = { λ p. Some (pairs_text p.sign.now p.between.now (key_values p.keys p.values)) };

    fn fmt<W: fmt::Write>(&self, f: &mut fmt::Formatter<W>) -> fmt::Result {
        let Pairs {
            keys,
            values,
            sign,
            between,
        } = *self;
        let mut lead = "";
        for k in 0..5 {
            let code = keys[k];
            if code == 0 {
                return Ok(());
            }
            let value = values[k];
            let pair = Pair {
                lead: Lead(lead),
                code,
                sign,
                value,
            };
            write!(f, "{pair}")?;
            lead = between;
        }
        Ok(())
    }
}

// A command's op, and the values of its keys in order; 0 where there is no key.
#[derive(Clone, Copy)]
struct Request {
    op: Op,
    values: [u64; 5],
}

impl Request {
    // The values with the op's keys, in the order of the key table.
    fn pairs<'a>(self, sign: &'a str, between: &'a str) -> Pairs<'a>
        ensures { (result.keys ≡ keys_of (row_of_op self.op)) × (result.values ≡ self.values) × (result.sign.now ≡ sign.now) × (result.between.now ≡ between.now) }
    {
        let Request { op, values } = self;
        let row = op as usize;
        let keys = [
            key_code(row, 0),
            key_code(row, 1),
            key_code(row, 2),
            key_code(row, 3),
            key_code(row, 4),
        ];
        Pairs {
            keys,
            values,
            sign,
            between,
        }
    }
}

// The keys of a response's values, and the values in order; 0 where there is no key.
#[derive(Clone, Copy)]
struct Answer {
    keys: [u8; 5],
    values: [u64; 5],
}

impl Answer {
    // The values with their keys.
    fn pairs<'a>(self, sign: &'a str, between: &'a str) -> Pairs<'a>
        ensures { (result.keys ≡ self.keys) × (result.values ≡ self.values) × (result.sign.now ≡ sign.now) × (result.between.now ≡ between.now) }
    {
        let Answer { keys, values } = self;
        Pairs {
            keys,
            values,
            sign,
            between,
        }
    }
}

// What a command asks.
fn asked(command: Command) -> Request
    ensures { (row_of_op result.op ≡ row_of command) × (result.values ≡ values_of command) }
{
    match command {
        Command::Publish {
            owner,
            generation,
            port,
            payload,
        } => Request {
            op: Op::Publish,
            values: [owner.0, generation, port.0 as u64, payload, 0],
        },
        Command::Adopt {
            id,
            owner,
            generation,
        } => Request {
            op: Op::Adopt,
            values: [id.0, owner.0, generation, 0, 0],
        },
        Command::Acquire {
            id,
            owner,
            generation,
        } => Request {
            op: Op::Acquire,
            values: [id.0, owner.0, generation, 0, 0],
        },
        Command::Release { lease } => Request {
            op: Op::Release,
            values: [lease.0, 0, 0, 0, 0],
        },
        Command::Revoke { id } => Request {
            op: Op::Revoke,
            values: [id.0, 0, 0, 0, 0],
        },
        Command::Replace {
            id,
            owner,
            generation,
            payload,
        } => Request {
            op: Op::Replace,
            values: [id.0, owner.0, generation, payload, 0],
        },
        Command::Reclaim { id } => Request {
            op: Op::Reclaim,
            values: [id.0, 0, 0, 0, 0],
        },
        Command::Read { lease } => Request {
            op: Op::Read,
            values: [lease.0, 0, 0, 0, 0],
        },
        Command::Observe { id } => Request {
            op: Op::Observe,
            values: [id.0, 0, 0, 0, 0],
        },
        Command::Resolve { port } => Request {
            op: Op::Resolve,
            values: [port.0 as u64, 0, 0, 0, 0],
        },
        Command::Count => Request {
            op: Op::Count,
            values: [0, 0, 0, 0, 0],
        },
    }
}

// What a response gives; a refusal gives nothing. Keys: 4 payload, 5 id, 6 lease, 8 revision, 9 count.
fn answered(response: Response) -> Answer
    ensures { key_values result.keys result.values ≡ value_lines response }
{
    match response {
        Response::Refused(_) | Response::Returned(_, _) | Response::Done => Answer {
            keys: [0; 5],
            values: [0; 5],
        },
        Response::Id(p) => Answer {
            keys: [5, 0, 0, 0, 0],
            values: [p.0, 0, 0, 0, 0],
        },
        Response::Lease(i) => Answer {
            keys: [6, 0, 0, 0, 0],
            values: [i.0, 0, 0, 0, 0],
        },
        Response::Handle(h) => Answer {
            keys: [4, 0, 0, 0, 0],
            values: [h, 0, 0, 0, 0],
        },
        Response::Read(x) => Answer {
            keys: [5, 8, 4, 0, 0],
            values: [x.id.0, x.revision, x.handle, 0, 0],
        },
        Response::Observed(x) => Answer {
            keys: [8, 4, 0, 0, 0],
            values: [x.revision, x.handle, 0, 0, 0],
        },
        Response::Count(n) => Answer {
            keys: [9, 0, 0, 0, 0],
            values: [n, 0, 0, 0, 0],
        },
    }
}

// What no clause says: in how many writes a text comes, and that none of them is empty where the sign and what stands between are not. A
// caller's own writer may refuse an empty one, or one too many.
#[cfg(test)]
mod tests {
    use super::*;
    use rules::{Owner, Port, PublicationId};

    #[derive(Drop)]
    struct Strict {
        left: usize,
        bytes: usize,
    }

    impl fmt::Write for Strict {
        fn write_str(&mut self, s: &str) -> fmt::Result {
            if s.is_empty() || self.left == 0 {
                return Err(fmt::Error);
            }
            self.left -= 1;
            self.bytes = self.bytes.saturating_add(s.len());
            Ok(())
        }
    }

    #[test]
    fn no_write_is_empty_or_one_too_many(rt: HostRuntime) {
        let words = InWords {
            command: Command::Publish {
                owner: Owner(1),
                generation: 2,
                port: Port(3),
                payload: 4,
            },
            width: 0,
            sign: "=",
            between: " ",
        };
        let given = Given {
            response: Response::Id(PublicationId(5)),
            sign: "=",
            between: " ",
        };
        let mut writer = Strict { left: 17, bytes: 0 };
        assert!(rt; fmt::Write::write(&mut writer, words).is_ok());
        assert_eq!(rt;
            writer.bytes,
            "publish owner=1 generation=2 port=3 payload=4".len()
        );
        let mut writer = Strict { left: 3, bytes: 0 };
        assert!(rt; fmt::Write::write(&mut writer, given).is_ok());
        assert_eq!(rt; writer.bytes, "id=5".len());
    }
}
