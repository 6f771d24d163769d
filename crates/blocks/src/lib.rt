// Command blocks read and (in inner) answer blocks written: document 01's trace text, byte for byte.
// What a block's text is stands in specs/; this crate knows no table, so a command is read here and carried out elsewhere.
//
//     block_at(b"op=revoke\nid=007\n", 0)  answers  Ok((Command::Revoke { id: PublicationId(7) }, 17))
//
// Nothing that an entry point reaches calls a function of the library: docs/DESIGN-PASS.md says why, and what stands in its place.
#![tactic(auto)]

pub mod inner;

ghost use Rattle.std.specs.Prelude.{◌≡◌};
ghost use Rattle.text.specs.Ops.{row_of_op};
ghost use Rattle.blocks.specs.Fields.{Fitting, field_at};
ghost use Rattle.blocks.specs.Blocks.{keys_of, command_of, lines_at, block_at};

use rules::{Command, LeaseId, Owner, Port, PublicationId};
use text::{Misread, Op, key_code, key_line_at, op_at};

// A key's line; where there is no key, no line and the value 0.
#[tactic(auto, unfolding(crate::specs::Fields::field_at))]
fn field_at(s: &[u8], at: usize, code: u8) -> Result<(u64, usize), Misread>
    ensures { result ≡ field_at code s.now at }
{
    if code == 0 {
        Ok((0, at))
    } else {
        key_line_at(s, at, code)
    }
}

// The command of an op, with the values of its keys. A port's value fits 32 bits, as its key's width says.
#[tactic(auto, unfolding(crate::specs::Blocks::command_of))]
fn command_of(op: Op, v: [u64; 5]) -> Command
    requires { Fitting (keys_of (row_of_op op)) v }
    ensures { result ≡ command_of (row_of_op op) v }
{
    match op {
        Op::Publish => Command::Publish {
            owner: Owner(v[0]),
            generation: v[1],
            port: Port(v[2] as u32),
            payload: v[3],
        },
        Op::Adopt => Command::Adopt {
            id: PublicationId(v[0]),
            owner: Owner(v[1]),
            generation: v[2],
        },
        Op::Acquire => Command::Acquire {
            id: PublicationId(v[0]),
            owner: Owner(v[1]),
            generation: v[2],
        },
        Op::Release => Command::Release {
            lease: LeaseId(v[0]),
        },
        Op::Revoke => Command::Revoke {
            id: PublicationId(v[0]),
        },
        Op::Replace => Command::Replace {
            id: PublicationId(v[0]),
            owner: Owner(v[1]),
            generation: v[2],
            payload: v[3],
        },
        Op::Reclaim => Command::Reclaim {
            id: PublicationId(v[0]),
        },
        Op::Read => Command::Read {
            lease: LeaseId(v[0]),
        },
        Op::Observe => Command::Observe {
            id: PublicationId(v[0]),
        },
        Op::Resolve => Command::Resolve {
            port: Port(v[0] as u32),
        },
        Op::Count => Command::Count,
    }
}

// An op's row of the key table.
fn row_of(op: Op) -> usize
    ensures { result ≡ row_of_op op }
{
    op as usize
}

// The lines of an op's keys, key by key of the key table. Answers the op's command, and the place after its lines.
fn lines_at(s: &[u8], at: usize, op: Op) -> Result<(Command, usize), Misread>
    ensures { result ≡ lines_at (row_of_op op) s.now at }
{
    let mut v = [0u64; 5];
    let mut i = at;
    let row = row_of(op);
    for k in 0..5 {
        match field_at(s, i, key_code(row, k)) {
            Err(e) => {
                return Err(e);
            }
            Ok((x, next)) => {
                v[k] = x;
                i = next;
            }
        }
    }
    Ok((command_of(op, v), i))
}

// A command's block: its op line, then the lines of its keys. Answers the command, and the place after its block.
#[tactic(auto, unfolding(crate::specs::Blocks::block_at))]
pub fn block_at(s: &[u8], at: usize) -> Result<(Command, usize), Misread>
    ensures { result ≡ block_at s.now at }
{
    match op_at(s, at) {
        Err(e) => Err(e),
        Ok((op, next)) => lines_at(s, next, op),
    }
}
