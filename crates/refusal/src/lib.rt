// Why a file, a record or a call is refused, and the number that says so.
#![tactic(auto)]

ghost use Rattle.std.specs.Prelude.{◌≡◌};
ghost use Rattle.refusal.specs.Number.{number_of, answer_of, gate_answer_of};

// The conditions that refuse, each with its number. include/permits.h has the same under the same names, and says what each is.
#[derive(Clone, Copy, Debug, PartialEq, Eq)]
pub enum Refusal {
    // A plant file, or the plant of a record.
    WrongLength = 1,
    WrongEdition = 2,
    CountOutOfRange = 3,
    HeaderByteNotZero = 4,
    SectionOutside = 5,
    SectionsShare = 6,
    LatticeMalformed = 7,
    NotAnOrder = 8,
    NotALattice = 9,
    EntryOutOfRange = 10,
    TanksAtOneLevel = 11,
    RequirementNotNamed = 12,
    // A call.
    MonitorNotIntact = 20,
    NoSuchSkid = 21,
    NoSuchTask = 22,
    NoSuchRequirement = 23,
    NoSuchLevel = 24,
    MayNotRun = 25,
    AlreadyRuns = 26,
    LevelNotSet = 27,
    NoTankAtOrUnder = 28,
    NoSuchTank = 29,
    NoSuchRight = 30,
    BufferTooShort = 31,
    NoSuchKind = 32,
    RequestsNotWhole = 34,
}

impl From<Refusal> for u8 {
    ghost from_gives = { λ refusal number. number ≡ number_of refusal };

    fn from(refusal: Refusal) -> u8 {
        refusal as u8
    }
}

// The answer of a call that is accepted with 0.
pub fn answer(outcome: Result<(), Refusal>) -> u8
    ensures { result ≡ answer_of outcome }
{
    match outcome {
        Ok(()) => 0,
        Err(refusal) => u8::from(refusal),
    }
}

// The answer of a gate: 33 is no refusal, and says that the right is not held.
pub fn gate_answer(outcome: Result<bool, Refusal>) -> u8
    ensures { result ≡ gate_answer_of outcome }
{
    match outcome {
        Ok(true) => 0,
        Ok(false) => 33,
        Err(refusal) => u8::from(refusal),
    }
}
