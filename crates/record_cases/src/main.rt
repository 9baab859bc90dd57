// Stamp, a learnt clause, an explanation and Sweep over stamp records, run on the code: P2 stamped and swept with one record more than stated, and with
// one less, and between the two calls a newcomer judged by the stamps, and what the Sweep will do to clause 3 explained. All records are filled with 7s
// before, so that those that stayed are seen.
#![tactic(auto)]

ghost use Rattle.std.specs.Prelude.{◌≤◌};

mod words;

use stamp_records::StampRecord;
use state::{Answer, Outcome, Refusal, State};
use std::io;
use window::{Window, Windowed};
use words::Words;

// ---- the calls on the three tables

// The tables without the stamps, which are lent to each call that reads them.
#[derive(Drop)]
struct Tables {
    clauses: [u32; 12288],
    literals: [i32; 16384],
    variables: [i32; 2048],
}

impl Tables {
    // Load does not look at stamps that are spent: it gets columns of 0.
    fn load(&mut self, text: &[u8]) -> Outcome {
        load::load_tables(
            text,
            &mut self.clauses,
            &mut self.literals,
            &mut self.variables,
            &[0; 4096],
            &[0; 4096],
            State::empty(),
        )
    }

    fn stamp(&self, records: &mut [StampRecord], st: State) -> Outcome {
        calls::stamp(
            &self.clauses,
            &self.literals,
            &self.variables,
            records,
            st,
            &[1, -1, 2, -2, 3, -3, 4, -4],
        )
    }

    // The newcomer 1 3 to an empty window.
    fn learn(&self, records: &[StampRecord], st: State) -> Windowed {
        calls::learn(
            &self.clauses,
            &self.literals,
            &self.variables,
            records,
            st,
            &[1, 3],
            &mut [0; 64],
            &mut [0; 4096],
            Window::empty(),
        )
    }

    // What a Sweep would do to clause 3.
    fn explain(
        &self,
        records: &[StampRecord],
        st: State,
        out: &mut [u8],
    ) -> Result<Answer, Refusal> {
        calls::explain(
            &self.clauses,
            &self.literals,
            &self.variables,
            records,
            st,
            3,
            out,
        )
    }

    // The whole of Sweep.
    fn sweep(&mut self, records: &[StampRecord], st: State) -> Outcome {
        calls::sweep(
            &mut self.clauses,
            &mut self.literals,
            &self.variables,
            records,
            st,
            65535,
        )
    }

    // Write, as Load, gets columns of 0.
    fn write(&self, st: State, out: &mut [u8]) -> Result<Answer, Refusal> {
        write::write(
            &self.clauses,
            &self.literals,
            &self.variables,
            &[0; 4096],
            &[0; 4096],
            st,
            out,
        )
    }
}

// ---- what is printed

// Prints the answer on a line of its own; the state after it.
fn report(rt: &impl Print, outcome: Outcome) -> io::Result<State> {
    println!(rt; "{}", Words(outcome.answer))?;
    Ok(outcome.state)
}

// Discovery, finish, parent and start.
fn print_record(rt: &impl Print, r: &StampRecord) -> io::Result<()> {
    println!(rt; "{} {} {} {}", r.discovery, r.finish, r.parent, r.start)
}

// The records of the first eight literals, 1, -1, 2, -2, .., and the last one, which no call may change.
fn print_records(rt: &impl Print, records: &[StampRecord; 2049]) -> io::Result<()> {
    for r in &records[..8] {
        print_record(rt, r)?;
    }
    print_record(rt, &records[2048])
}

// The answer of a call that writes text, and behind it the text.
fn print_written(rt: &impl Print, answer: Result<Answer, Refusal>, out: &[u8]) -> io::Result<()> {
    println!(rt; "{}", Words(answer))?;
    let (Ok(Answer::Written(length)) | Ok(Answer::Explained(_, _, length))) = answer else {
        return Ok(());
    };
    match out.get(..length) {
        Some(text) => rt.write_all(text),
        None => Ok(()),
    }
}

// ---- the case

const SEVENS: StampRecord = StampRecord {
    discovery: 7,
    finish: 7,
    parent: 7,
    start: 7,
};

// With stamps: the newcomer, the explanation and Sweep; the state after Sweep.
fn simplify(
    rt: &impl Print,
    tables: &mut Tables,
    records: &[StampRecord; 2049],
    lent: usize,
    stamped: State,
) -> io::Result<State>
    requires { lent ≤ 2049 }
{
    let records = &records[..lent];
    report(rt, tables.learn(records, stamped).outcome)?;
    let mut chains = [b'.'; 64];
    let explained = tables.explain(records, stamped, &mut chains);
    print_written(rt, explained, &chains)?;
    report(rt, tables.sweep(records, stamped))
}

// P2 with so many records lent: Load, Stamp, whose records are printed, the calls that read the stamps, and Write.
fn case(rt: &impl Print, name: &str, lent: usize) -> io::Result<()>
    requires { lent ≤ 2049 }
{
    let mut tables = Tables {
        clauses: [0; 12288],
        literals: [0; 16384],
        variables: [0; 2048],
    };
    let mut records = [SEVENS; 2049];
    let mut formula = [b'.'; 256];
    println!(rt; "{name}")?;
    let loaded = report(rt, tables.load(b"p cnf 4 3\n-1 2 0\n-2 3 0\n1 3 4 0\n"))?;
    let stamped = report(rt, tables.stamp(&mut records[..lent], loaded))?;
    print_records(rt, &records)?;
    let swept = simplify(rt, &mut tables, &records, lent, stamped)?;
    let written = tables.write(swept, &mut formula);
    print_written(rt, written, &formula)
}

fn main(rt: HostRuntime) -> io::Result<()> {
    case(&rt, "2,049 records", 2049)?;
    case(&rt, "2,047 records", 2047)
}
