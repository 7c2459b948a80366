// A call and the request that asks for it, what the work of each call promises of the record that is lent to it, and the laws by which it keeps that.
#![tactic(auto)]

ghost use Rattle.std.specs.Prelude.{◌≡◌, ◌≤◌, map};
ghost use Rattle.base.specs.Chain.{first};
ghost use Rattle.plant.specs.declared.Plant.{Plant};
ghost use Rattle.refusal.specs.Number.{answer_of};
ghost use Rattle.rules.specs.Record.{fresh};
ghost use Rattle.calls.specs.Lent.{Keeps};
ghost use Rattle.calls.specs.Requests.{AsksFor, RequestFor, OfBytes, missing_item};

use choice::Choices;
use refusal::Refusal;

// A request as a queue, a batch and C have it. Kind 0 is set, 1 start, 2 stop, 3 gate, as include/permits.h numbers them; each number stands once in
// each direction below. The four bytes are the call's arguments in their order; those that the call has no use for are ignored.
#[repr(C)]
#[derive(Clone, Copy)]
pub struct Request {
    pub kind: u8,
    pub a: u8,
    pub b: u8,
    pub c: u8,
    pub d: u8,
}

impl Request {
    // How many bytes a request is in a batch.
    pub const BYTES: usize = 5;
}

#[derive(Clone, Copy, Debug, PartialEq, Eq)]
pub enum Call {
    Set {
        skid: u8,
        task: u8,
        requirement: u8,
        level: u8,
    },
    Start {
        skid: u8,
        task: u8,
    },
    Stop {
        skid: u8,
    },
    Gate {
        skid: u8,
        tank: u8,
        right: u8,
    },
}

impl From<[u8; Request::BYTES]> for Request {
    ghost from_gives = { OfBytes };

    fn from([kind, a, b, c, d]: [u8; Request::BYTES]) -> Request {
        Request { kind, a, b, c, d }
    }
}

impl TryFrom<Request> for Call {
    type Error = Refusal;

    ghost try_from_gives = { AsksFor };

    fn try_from(r: Request) -> Result<Self, Refusal> {
        match r.kind {
            0 => Ok(Call::Set {
                skid: r.a,
                task: r.b,
                requirement: r.c,
                level: r.d,
            }),
            1 => Ok(Call::Start {
                skid: r.a,
                task: r.b,
            }),
            2 => Ok(Call::Stop { skid: r.a }),
            3 => Ok(Call::Gate {
                skid: r.a,
                tank: r.b,
                right: r.c,
            }),
            _ => Err(Refusal::NoSuchKind),
        }
    }
}

impl From<Call> for Request {
    ghost from_gives = { RequestFor };

    fn from(call: Call) -> Request {
        match call {
            Call::Set {
                skid,
                task,
                requirement,
                level,
            } => Request {
                kind: 0,
                a: skid,
                b: task,
                c: requirement,
                d: level,
            },
            Call::Start { skid, task } => Request {
                kind: 1,
                a: skid,
                b: task,
                c: 0,
                d: 0,
            },
            Call::Stop { skid } => Request {
                kind: 2,
                a: skid,
                b: 0,
                c: 0,
                d: 0,
            },
            Call::Gate { skid, tank, right } => Request {
                kind: 3,
                a: skid,
                b: tank,
                c: right,
                d: 0,
            },
        }
    }
}

// What a list keeps beside its record, from one request to the next: the table of choices, the groups of each task, and the rights of the tasks that
// run. The three go by different items, so that no two of them are one array.
#[derive(Clone, Copy, Default)]
pub struct Kept {
    // None until a start makes it.
    pub made: Option<Choices>,
    // None until a start of the task makes it.
    pub needs: [Option<u16>; 16],
    // Those of skid s on group g are at s * 8 + g, where the record has the tank chosen there: a gate works out one place for both, and `put_row`
    // (crate steps) writes a row of either. `[[u8; 8]; 8]` is no plainer: a gate would read its two bytes at places of two forms.
    pub granted: [u8; 64],
}

impl Kept {
    // Nothing is made, and nothing runs.
    pub fn new() -> Kept
        ensures { (P : Plant) → P.skids ≤ 8 → Keeps (fresh P) result }
    {
        Kept::default()
    }
}

// The refusal of the first of three items that is missing; `missing` has that of each that is. First one test of all three, so that a call whose items
// are there asks once: where the refusal is chosen first and then tested, each gate takes twelve instructions more; a mixed request of a batch on 01's
// plant is only one under the baseline's, its bar, as it is. A start has two items, and two tests that read the record at them, so it asks with an `if`
// for each of the four.
pub fn check_present(missing: [Option<Refusal>; 3]) -> Result<(), Refusal>
    ensures { answer_of result ≡ first (map missing_item missing) }
{
    let [first, second, third] = missing;
    if !(first.is_some() | second.is_some() | third.is_some()) {
        return Ok(());
    }
    first.or(second).or(third).map_or(Ok(()), Err)
}
