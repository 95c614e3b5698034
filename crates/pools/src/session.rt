// Whole sessions: requests to one new pool, one after another, and the reply to each.
ghost use Rattle.std.specs.Prelude.{◌≡◌, min, map, length, take, drop};
ghost use Rattle.pools.specs.Pools.{Frame, Steps, Answers};
ghost use Rattle.pools.specs.Requests.{called, replied};
ghost use Rattle.pools.specs.Sessions.{RightRun, none_yet, judge};

use crate::judgement::Judgement;
use crate::key::Key;
use crate::pool::Pool;
use fields::Field;
use sharing::policy::Policy;
use sharing::refusal::Refusal;
use sharing::words::WordCount;

// A request is a value that can be listed and copied; a closure in its place could be neither.
#[derive(Clone, Copy)]
pub enum Request<'a> {
    Present {
        level: u8,
        id: u32,
        values: &'a [u32],
    },
    Withdraw {
        id: u32,
    },
    // Judging into a key buffer of this length.
    Judge {
        key_length: usize,
    },
    MeetsPolicy,
    Held,
    TurnedAway,
}

// What is replied to a request that is not refused.
#[derive(Clone, Copy, PartialEq, Eq, Debug)]
pub enum Reply {
    Done,
    Number(u32),
    Truth(bool),
    Judged(Judgement<Key>),
}

// Judges for a key buffer of this length. No plainer by `Pool::judge`, which writes the key into a buffer: a request has only
// the length.
fn judged<F: Field>(pool: &Pool<F>, key_length: usize) -> Result<Reply, Refusal>
    ensures { Answers F.arithmetic pool.now (judge key_length) (replied result) }
{
    if key_length != pool.words().get() as usize {
        return Err(Refusal::WrongBufferLength);
    }
    Ok(Reply::Judged(pool.verdict()))
}

// Makes one request.
fn one<F: Field>(pool: &mut Pool<F>, request: Request) -> Result<Reply, Refusal>
    ensures list { Steps F.arithmetic pool.old (called request.entry) pool.new }
    ensures frame { Frame pool.old pool.new }
    ensures answer { Answers F.arithmetic pool.old (called request.entry) (replied result) }
{
    match request {
        Request::Present { level, id, values } => {
            pool.present(level, id, values)?;
            Ok(Reply::Done)
        }
        Request::Withdraw { id } => {
            pool.withdraw(id)?;
            Ok(Reply::Done)
        }
        Request::Judge { key_length } => judged(pool, key_length),
        Request::MeetsPolicy => Ok(Reply::Truth(pool.meets_policy())),
        Request::Held => Ok(Reply::Number(pool.held() as u32)),
        Request::TurnedAway => Ok(Reply::Number(pool.turned_away() as u32)),
    }
}

// Makes the requests of a new pool in their order, as many as there is room for replies, and writes the reply to each, or
// why the request is refused; the places after them stay as they were. Two lists, in fixed memory: the caller lends the room
// for the replies.
pub fn run_session<F: Field + Drop>(
    field: F,
    policy: Policy,
    words: WordCount,
    requests: &[Request],
    replies: &mut [Result<Reply, Refusal>],
)
    ensures run { RightRun (F.arithmetic field) policy words none_yet (map called (take (min (length requests.now) (length replies.old)) requests.now)) (map replied (take (min (length requests.now) (length replies.old)) replies.new)) }
    ensures rest { drop (min (length requests.now) (length replies.old)) replies.new ≡ drop (min (length requests.now) (length replies.old)) replies.old }
{
    let mut pool = Pool::new(field, policy, words);
    // Tried, and the proof did not close: `requests.iter().zip(replies.iter_mut())`, of whose writes the check knows nothing.
    // A loop over the places of one list would index the other all the same.
    for i in 0..requests.len().min(replies.len()) {
        replies[i] = one(&mut pool, requests[i]);
    }
}
