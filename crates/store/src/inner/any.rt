// Any command on a store that is known to be sound, and its answer as a response.
ghost use Rattle.std.specs.Prelude.{◌≡◌};
ghost use Rattle.rules.specs.declared.Response.{Response};
ghost use Rattle.rules.specs.declared.Response.TheVariants.{Refused, Returned};
ghost use Rattle.rules.specs.Limits.{box};
ghost use Rattle.rules.specs.Columns.{used};
ghost use Rattle.store.specs.Columns.{columns_of};
ghost use Rattle.store.specs.Answers.{applied_inside};
ghost use Rattle.store.specs.Responding.{told};

use crate::PublicationStore;
use crate::inner::Sound;
use rules::{Answered, Command, Refusal, Rejected, Response};

pub fn apply(sound: Sound, command: Command) -> Answered<Response, PublicationStore>
    ensures { result ≡ applied_inside (used (columns_of sound.store)) command }
{
    match command {
        Command::Publish {
            owner,
            generation,
            port,
            payload,
        } => told(
            sound.publish(owner, generation, port, payload),
            Response::Id,
        ),
        Command::Adopt {
            id,
            owner,
            generation,
        } => told(sound.adopt(id, owner, generation), |()| { Response::Done }),
        Command::Acquire {
            id,
            owner,
            generation,
        } => told(sound.acquire_for(id, owner, generation), Response::Lease),
        Command::Release { lease } => told(sound.release(lease), |()| Response::Done),
        Command::Revoke { id } => told(sound.revoke(id), |()| Response::Done),
        Command::Replace {
            id,
            owner,
            generation,
            payload,
        } => told(
            sound.replace(id, owner, generation, payload),
            Response::Handle,
        ),
        Command::Reclaim { id } => told(sound.reclaim(id), Response::Handle),
        Command::Read { lease } => told(
            unchanged(sound.store, sound.leased_observation(lease)),
            Response::Read,
        ),
        Command::Observe { id } => told(
            unchanged(sound.store, sound.observation(id)),
            Response::Observed,
        ),
        Command::Resolve { port } => {
            told(unchanged(sound.store, sound.resolve(port)), Response::Id)
        }
        Command::Count => told(
            unchanged(sound.store, sound.retained_count()),
            Response::Count,
        ),
    }
}

// A query's answer, beside the store as it came.
fn unchanged<A>(store: PublicationStore, answer: A) -> Answered<A, PublicationStore>
    ensures { result ≡ record { answer = answer; table = store } }
{
    Answered {
        answer,
        table: store,
    }
}

// A refusal as a response.
trait Refuses {
    ghost response: { Self → Response };

    fn response(self) -> Response
        ensures { result ≡ response self };
}

impl Refuses for Refusal {
    ghost response = { λ why. Refused why };

    fn response(self) -> Response {
        Response::Refused(self)
    }
}

// The offered handle goes back beside it.
impl Refuses for Rejected {
    ghost response = { λ r. Returned r.why r.handle };

    fn response(self) -> Response {
        Response::Returned(self.why, self.handle)
    }
}

// The answer as a response: a refusal's own, or what is told of the result.
fn told<A, E: Refuses, F: Fn(A) -> Response>(
    call: Answered<Result<A, E>, PublicationStore>,
    tell: F,
) -> Answered<Response, PublicationStore>
    requires { (x : A) → F.pre tell x }
    ensures { (f : A → Response) → ((x : A) (r : Response) → F.post tell x r → r ≡ f x) → result ≡ record { answer = told E.response f call.answer; table = call.table } }
{
    let Answered { answer, table } = call;
    match answer {
        Err(e) => unchanged(table, e.response()),
        Ok(x) => unchanged(table, tell(x)),
    }
}
