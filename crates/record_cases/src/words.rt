// Answers and refusals in the words of document 01.
use state::{Answer, Counts, Refusal};
use std::fmt;

// A word for the kind of answer and the numbers that come with it.
#[derive(Drop)]
pub struct Words(pub Result<Answer, Refusal>);

impl fmt::Display for Words {
    fn fmt<W: fmt::Write>(&self, f: &mut fmt::Formatter<W>) -> fmt::Result {
        match self.0 {
            Ok(answer) => write_answer(f, answer),
            Err(refusal) => write!(f, "refused {} {}", refusal.number(), refusal.place()),
        }
    }
}

fn write_answer<W: fmt::Write>(f: &mut fmt::Formatter<W>, answer: Answer) -> fmt::Result {
    match answer {
        Answer::Loaded => write!(f, "loaded"),
        Answer::Open(counts) => write_counts(f, "open", counts),
        Answer::Done(counts) => write_counts(f, "done", counts),
        Answer::Stamped => write!(f, "stamped"),
        Answer::Failed(set) => write!(f, "failed {set}"),
        Answer::Ran(rounds) => write!(f, "ran {rounds}"),
        Answer::Written(length) => write!(f, "written {length}"),
        Answer::Set => write!(f, "set"),
        Answer::KeptWhole(left) => write!(f, "kept {left}"),
        Answer::KeptShort(left) => write!(f, "shortened {left}"),
        Answer::NotKept => write!(f, "dropped"),
        Answer::Explained(verdict, out, length) => {
            write!(f, "explained {} {out} {length}", verdict.number())
        }
    }
}

// The word, and then the visits made, the clauses gone and the literals gone.
fn write_counts<W: fmt::Write>(
    f: &mut fmt::Formatter<W>,
    word: &str,
    counts: Counts,
) -> fmt::Result {
    write!(
        f,
        "{word} {} {} {}",
        counts.visits, counts.clauses, counts.literals,
    )
}
