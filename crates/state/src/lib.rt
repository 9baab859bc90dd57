// The types that all calls share: the state that goes with the tables, the refusals, and the answers.
#![tactic(auto)]

ghost use Rattle.std.specs.Prelude.{◌≡◌, ◌-◌, ◌^◌, ◌<◌, ◌≤◌};
ghost use Rattle.state.specs.Answers.{refusal_number, refusal_place, verdict_number, reply_of, first_value, result_by};
ghost use Rattle.state.specs.Programmes.{constant_programme};
ghost use Rattle.state.specs.States.{state, loaded_state, empty_state, opened, closed, marked, programmed};

// The pass that is open, with its cursor: the number of clauses visited in this time through. Propagate has a change flag besides.
#[derive(Clone, Copy)]
pub enum Pass {
    Idle,
    Propagate(u32, bool),
    Merge(u32),
    Sweep(u32),
}

// The pass codes.
pub const SETTLE: u32 = 1;

pub const STAMP: u32 = 2;

pub const FAILED: u32 = 3;

pub const SWEEP: u32 = 4;

// The constant programme of document 01.
const PROGRAMME: [u32; 4] = [SETTLE, STAMP, FAILED, SWEEP];

// The pass codes that each round of Run follows: the first `length` of them. What stands behind is not looked at.
#[derive(Clone, Copy)]
pub struct Programme {
    pub codes: [u32; 32],
    pub length: u32,
}

impl Programme {
    // What a load puts into the state.
    pub fn constant() -> Programme
        ensures { result ≡ constant_programme }
    {
        let mut codes = [0u32; 32];
        codes[..4].copy_from_slice(&PROGRAMME);
        Programme { codes, length: 4 }
    }
}

// The small state of document 01: V, N, the open pass, whether stamps are fresh, and the mark (no assignment is left); and the programme of document 02.
#[derive(Clone, Copy)]
pub struct State {
    pub v: u32,
    pub n: u32,
    pub pass: Pass,
    pub fresh: bool,
    pub mark: bool,
    pub programme: Programme,
}

impl State {
    // The state of these parts.
    pub fn of(v: u32, n: u32, pass: Pass, fresh: bool, mark: bool, programme: Programme) -> State
        ensures { result ≡ state v n pass fresh mark programme }
    {
        State {
            v,
            n,
            pass,
            fresh,
            mark,
            programme,
        }
    }

    // What a load makes of any state: all is new, and the constant programme is put back.
    pub fn loaded(self, v: u32, n: u32, mark: bool) -> State
        ensures { result ≡ loaded_state v n mark }
    {
        let programme = Programme::constant();
        State::of(v, n, Pass::Idle, false, mark, programme)
    }

    // The state before any load.
    pub fn empty() -> State
        ensures { result ≡ empty_state }
    {
        State::of(0, 0, Pass::Idle, false, false, Programme::constant())
    }

    // Without the mark, with this pass open, or none.
    pub fn opened(self, pass: Pass, fresh: bool) -> State
        ensures { result ≡ opened pass fresh self }
    {
        State::of(self.v, self.n, pass, fresh, false, self.programme)
    }

    pub fn closed(self, fresh: bool) -> State
        ensures { result ≡ closed fresh self }
    {
        self.opened(Pass::Idle, fresh)
    }

    // No assignment is left: the mark closes any pass and spends the stamps.
    pub fn marked(self) -> State
        ensures { result ≡ marked self }
    {
        State::of(self.v, self.n, Pass::Idle, false, true, self.programme)
    }

    // With another programme, and nothing else changed.
    pub fn programmed(self, programme: Programme) -> State
        ensures { result ≡ programmed programme self }
    {
        let pass = self.pass;
        State::of(self.v, self.n, pass, self.fresh, self.mark, programme)
    }
}

// The refusals, with their places; `refusal_number` of specs/Answers.antt gives the documents' numbers.
#[derive(Clone, Copy)]
pub enum Refusal {
    // a table is shorter than stated, or the shape rule fails
    Shape,
    // the text breaks the grammar at an offset
    Grammar(usize),
    // a limit is passed at an offset of the text
    Limit(usize),
    // another pass is open
    OtherPass,
    // the mark is set
    Marked,
    // the number of the first standing clause of one literal, or with a valued variable
    Unsettled(u32),
    // two different literals reach each other
    Cyclic,
    // the index of the first wrong entry of Stamp's list
    Order(usize),
    // stamps are not fresh
    Stale,
    // the output is shorter than the length needed
    Short(usize),
    // the learnt clause has more than 64 literals, or one that is 0, out of range or of a variable already in it
    Newcomer,
    // the index of the first code that breaks the rules of programmes, 0 for a wrong length
    Codes(usize),
    // no clause of this number stands
    NoClause,
    // the index of the first link with a variable out of range or used before on its side
    Link(usize),
}

impl Refusal {
    pub fn number(self) -> u64
        ensures { (result ≡ refusal_number self) × (0 < result) × (result ≤ 15) }
    {
        match self {
            Refusal::Shape => 1,
            Refusal::Grammar(_) => 2,
            Refusal::Limit(_) => 3,
            Refusal::OtherPass => 4,
            Refusal::Marked => 5,
            Refusal::Unsettled(_) => 6,
            Refusal::Cyclic => 7,
            Refusal::Order(_) => 8,
            Refusal::Stale => 9,
            Refusal::Short(_) => 10,
            Refusal::Newcomer => 11,
            Refusal::Codes(_) => 12,
            Refusal::NoClause => 13,
            Refusal::Link(_) => 15,
        }
    }

    // 0 where the documents name none.
    pub fn place(self) -> u64
        ensures { result ≡ refusal_place self }
    {
        match self {
            Refusal::Shape => 0,
            Refusal::Grammar(at) => at as u64,
            Refusal::Limit(at) => at as u64,
            Refusal::OtherPass => 0,
            Refusal::Marked => 0,
            Refusal::Unsettled(clause) => clause as u64,
            Refusal::Cyclic => 0,
            Refusal::Order(index) => index as u64,
            Refusal::Stale => 0,
            Refusal::Short(needed) => needed as u64,
            Refusal::Newcomer => 0,
            Refusal::Codes(index) => index as u64,
            Refusal::NoClause => 0,
            Refusal::Link(index) => index as u64,
        }
    }
}

// What a call of a resumable pass did: visits made, clauses gone and literals gone.
#[derive(Clone, Copy)]
pub struct Counts {
    pub visits: u32,
    pub clauses: u32,
    pub literals: u32,
}

// What a Sweep would do to a clause: nothing, drop it, or take literals out.
#[derive(Clone, Copy)]
pub enum Verdict {
    Nothing,
    Drop,
    Shorten,
}

impl Verdict {
    pub fn number(self) -> u64
        ensures { result ≡ verdict_number self }
    {
        match self {
            Verdict::Nothing => 0,
            Verdict::Drop => 1,
            Verdict::Shorten => 2,
        }
    }
}

// What the calls answer where they are not refused.
#[derive(Clone, Copy)]
pub enum Answer {
    // load
    Loaded,
    // Propagate, Merge, Sweep: visits are left, or none is
    Open(Counts),
    Done(Counts),
    // Stamp
    Stamped,
    // Failed: how many values it set
    Failed(u32),
    // Run: the rounds made
    Ran(u32),
    // Write: the length written
    Written(usize),
    // a programme is set
    Set,
    // learn: the newcomer is kept whole or shortened, with the literals left, or dropped
    KeptWhole(u32),
    KeptShort(u32),
    NotKept,
    // explain: the verdict, how many literals it takes out, the length written
    Explained(Verdict, u32, usize),
}

impl Answer {
    // The first value: the visits made, the length written, what becomes of a learnt clause, the verdict on a clause; 0 where there is none.
    pub fn value(self) -> u64
        ensures { result ≡ first_value (reply_of (Ok self)).values }
    {
        match self {
            Answer::Loaded => 0,
            Answer::Open(counts) => counts.visits as u64,
            Answer::Done(counts) => counts.visits as u64,
            Answer::Stamped => 0,
            Answer::Failed(set) => set as u64,
            Answer::Ran(rounds) => rounds as u64,
            Answer::Written(length) => length as u64,
            Answer::Set => 0,
            Answer::KeptWhole(_) => 0,
            Answer::KeptShort(_) => 2,
            Answer::NotKept => 1,
            Answer::Explained(verdict, _, _) => verdict.number(),
        }
    }
}

// An answer or a refusal, and the state after it.
#[derive(Clone, Copy)]
pub struct Outcome {
    pub answer: Result<Answer, Refusal>,
    pub state: State,
}

// What a function for C returns: a value, or the refusal's number, negative. Numbers of refusals are at most 15, and a length of text is below 2^63.
pub fn result(number: u64, value: u64) -> i64
    requires { (number ≤ 15) × (number ≡ 0 → value ≤ 2 ^ 63 - 1) }
    ensures { result ≡ result_by number value }
{
    if number == 0 {
        return value as i64;
    }
    -(number as i64)
}
