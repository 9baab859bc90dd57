// DIMACS text: bytes, words, tokens, the header, and the judgement of a whole text. Each function is tied to its
// definition in specs/ by one equation.
#![tactic(auto)]

ghost use Rattle.std.specs.Prelude.{◌≡◌, true, false, ◌&&◌, ◌+◌, ◌*◌, ◌-◌, ◌<◌, ◌≤◌, min, length, drop, leb, ltb, eqb, Ok};
ghost use Rattle.dimacs.specs.Words.{is_sep, is_word_byte, is_line_byte, is_digit, span, front, words_at};
ghost use Rattle.dimacs.specs.Tokens.{decimal, unsigned, token_by, token_of};
ghost use Rattle.dimacs.specs.Header.{comments, expect, number, line_end, header_rest, header, fitting};
ghost use Rattle.dimacs.specs.Text.{judge, judge_end, judge_text, budget, literal_of, body_of, text_clauses};
ghost use Rattle.dimacs.specs.Numbers.{clauses_kept, Judged};

use state::Refusal;

// What stands at an offset of the text's body: `start` is its first byte, `next` the byte after it. A magnitude above 65,535
// is given as 65,535.
#[derive(Clone, Copy)]
enum Token {
    End,
    Zero {
        start: usize,
        next: usize,
    },
    Literal {
        negative: bool,
        magnitude: u32,
        start: usize,
        next: usize,
    },
    Bad(usize),
}

// What a text's header says: its variables and its clauses. `body` is the offset after it.
#[derive(Clone, Copy)]
pub struct Header {
    pub v: u32,
    pub n: u32,
    pub body: usize,
}

// The comparisons are written out: the compiler makes one test of a bit of them, and three tests of `matches!`.
fn is_separator(b: u8) -> bool
    ensures { result ≡ is_sep b }
{
    b == b' ' || b == b'\t' || b == b'\r' || b == b'\n'
}

fn is_digit(b: u8) -> bool
    ensures { result ≡ is_digit b }
{
    b.is_ascii_digit()
}

// ---- runs of bytes

fn separators_end(text: &[u8], at: usize) -> usize
    ensures { result ≡ at + span is_sep (drop at text.now) }
{
    let mut end = at;
    while end < text.len() && is_separator(text[end]) {
        end += 1;
    }
    end
}

// Whether an LF is among the bytes. The loop has no early exit, so that the compiler compares many bytes at once.
fn has_line_feed(block: &[u8]) -> bool
    ensures { result ≡ ltb (span is_line_byte block.now) (length block.now) }
{
    let mut found = false;
    for b in block {
        if *b == b'\n' {
            found = true;
        }
    }
    found
}

// An offset up to which no LF stands: sixteen bytes at a time, as far as that goes.
fn blocks_end(text: &[u8], at: usize) -> usize
    requires { at ≤ length text.now }
    ensures { (result ≤ length text.now) × (result + span is_line_byte (drop result text.now) ≡ at + span is_line_byte (drop at text.now)) }
{
    let mut end = at;
    while 16 <= text.len() - end && !has_line_feed(&text[end..end + 16]) {
        end += 16;
    }
    end
}

// Where the line's LF is, or the text's end.
fn line_feed_at(text: &[u8], at: usize) -> usize
    requires { at ≤ length text.now }
    ensures { result ≡ at + span is_line_byte (drop at text.now) }
{
    let start = blocks_end(text, at);
    for (i, b) in text[start..].iter().enumerate() {
        if *b == b'\n' {
            return start + i;
        }
    }
    text.len()
}

// Whether a word that reaches up to `at` ends there.
fn ends_word(text: &[u8], at: usize) -> bool
    ensures { result ≡ eqb (span is_word_byte (drop at text.now)) 0 }
{
    text.len() <= at || is_separator(text[at])
}

// ---- numbers

// One digit more; above 65,535 the number stays there.
fn with_digit(n: u32, b: u8) -> u32
    requires { n ≤ 65535 }
    ensures { result ≡ min (n * 10 + (b - 48)) 65535 }
{
    let digit = u32::from(b.saturating_sub(b'0'));
    (n * 10 + digit).min(65535)
}

// Some digits from an offset on: their value, or 65,535 if it is larger, and the offset after them.
#[derive(Clone, Copy)]
pub struct Digits {
    pub value: u32,
    pub next: usize,
}

fn digits_at(text: &[u8], at: usize) -> Digits
    ensures { (result.value ≡ min (decimal (front is_digit (drop at text.now))) 65535) × (result.next ≡ at + span is_digit (drop at text.now)) }
{
    let mut value: u32 = 0;
    let mut next = at;
    while next < text.len() && is_digit(text[next]) {
        value = with_digit(value, text[next]);
        next += 1;
    }
    Digits { value, next }
}

// ---- tokens

// The token whose digits begin at `at`, which is `start` or, after a minus sign, the byte behind it.
fn numeral_at(text: &[u8], at: usize, negative: bool, start: usize) -> Token
    ensures { result ≡ token_by (unsigned negative (front is_word_byte (drop at text.now))) start (at + span is_word_byte (drop at text.now)) }
{
    if text.len() <= at {
        return Token::Bad(start);
    }
    let d = digits_at(text, at);
    let next = d.next;
    if next == at || !ends_word(text, next) {
        return Token::Bad(start);
    }
    if text[at] != b'0' {
        return Token::Literal {
            negative,
            magnitude: d.value,
            start,
            next,
        };
    }
    if negative || next != at + 1 {
        return Token::Bad(start);
    }
    Token::Zero { start, next }
}

// The first token from `at` on.
fn token_at(text: &[u8], at: usize) -> Token
    ensures { result ≡ token_of (words_at (drop at text.now) at) }
{
    let start = separators_end(text, at);
    if text.len() <= start {
        return Token::End;
    }
    let negative = text[start] == b'-';
    let first = if negative { start + 1 } else { start };
    numeral_at(text, first, negative, start)
}

// ---- the reader

// It stands on a text at an offset.
#[derive(Clone, Copy)]
struct Reader<'a> {
    text: &'a [u8],
    at: usize,
}

fn reader_at<'a>(text: &'a [u8], at: usize) -> Reader<'a>
    ensures { (result.text ≡ text.entry) × (result.at ≡ at) }
{
    Reader { text, at }
}

// The first token from where the reader stands. The token says where the reader is to stand for the one behind it.
fn next_token<'a>(r: Reader<'a>) -> Token
    ensures { result ≡ token_of (words_at (drop r.entry.at r.entry.text.now) r.entry.at) }
{
    token_at(r.text, r.at)
}

// The token that a reader at `at` gives. Every token of a load comes from here. The loop that judges a text keeps the reader's
// offset and not the reader.
fn token_from(text: &[u8], at: usize) -> Token
    ensures { result ≡ token_of (words_at (drop at text.now) at) }
{
    next_token(reader_at(text, at))
}

// ---- the header

// Past the comment lines.
fn comments_end(text: &[u8]) -> Result<usize, Refusal>
    ensures { result ≡ comments false text.now 0 }
{
    let mut at = 0;
    while at < text.len() && text[at] == b'c' {
        let lf = line_feed_at(text, at);
        if text.len() <= lf {
            return Err(Refusal::Grammar(lf));
        }
        at = lf + 1;
    }
    Ok(at)
}

// Past the bytes `wanted`, which must stand there.
fn expect_bytes(text: &[u8], at: usize, wanted: &[u8]) -> Result<usize, Refusal>
    ensures { result ≡ expect wanted.now (drop at text.now) at }
{
    let mut next = at;
    for b in wanted {
        if text.len() <= next || text[next] != *b {
            return Err(Refusal::Grammar(next));
        }
        next += 1;
    }
    Ok(next)
}

// Past a number of at most `limit`.
fn number_at(text: &[u8], at: usize, limit: u32) -> Result<Digits, Refusal>
    requires { limit < 65535 }
    ensures { result ≡ number limit (drop at text.now) at }
{
    if text.len() <= at || !is_digit(text[at]) {
        return Err(Refusal::Grammar(at));
    }
    if text[at] == b'0' {
        return Ok(Digits {
            value: 0,
            next: at + 1,
        });
    }
    let digits = digits_at(text, at);
    if limit < digits.value {
        return Err(Refusal::Limit(at));
    }
    Ok(digits)
}

// Past the LF of the header, or at the text's end.
fn line_end(text: &[u8], at: usize) -> Result<usize, Refusal>
    ensures { result ≡ line_end (drop at text.now) at }
{
    if text.len() <= at {
        return Ok(at);
    }
    if text[at] != b'\n' {
        return Err(Refusal::Grammar(at));
    }
    Ok(at + 1)
}

// The rest of the header, behind V.
fn read_clause_count(text: &[u8], v: u32, at: usize) -> Result<Header, Refusal>
    ensures { result ≡ header_rest v text.now at }
{
    let space = expect_bytes(text, at, b" ")?;
    let n = number_at(text, space, 4096)?;
    let body = line_end(text, n.next)?;
    Ok(Header {
        v,
        n: n.value,
        body,
    })
}

fn read_header(text: &[u8]) -> Result<Header, Refusal>
    ensures { result ≡ header text.now }
{
    let begin = comments_end(text)?;
    let p_cnf = expect_bytes(text, begin, b"p cnf ")?;
    let v = number_at(text, p_cnf, 1024)?;
    read_clause_count(text, v.value, v.next)
}

// ---- the whole text

// The text's end: whether a clause has begun, and how many are missing.
fn judge_end(clauses: u32, unfinished: bool, end: usize, header: Header) -> Result<Header, Refusal>
    ensures { result ≡ judge_end (budget clauses 0 unfinished) end (Ok header) }
{
    if unfinished {
        return Err(Refusal::Grammar(end));
    }
    if clauses != 0 {
        return Err(Refusal::Limit(end));
    }
    Ok(header)
}

// Whether a literal may stand: a clause and a literal are left, and its variable is at most v.
fn literal_fits(v: u32, clauses: u32, literals: u32, magnitude: u32) -> bool
    ensures { result ≡ (ltb 0 clauses && (leb magnitude v && ltb 0 literals)) }
{
    0 < clauses && magnitude <= v && 0 < literals
}

// A literal by its sign and its variable.
fn literal_of(negative: bool, magnitude: u32) -> i32
    requires { magnitude ≤ 1024 }
    ensures { result ≡ literal_of negative magnitude }
{
    let m = magnitude as i32;
    if negative { -m } else { m }
}

// The tokens from `body` on, against what is left to the text. Each is kept as a number: a literal, or 0 for a clause's end.
fn judge_words(
    text: &[u8],
    v: u32,
    n: u32,
    body: usize,
    numbers: &mut [i32],
) -> Result<Header, Refusal>
    requires { (v ≤ 1024) × ((n ≤ 4096) × (20480 ≤ length numbers.old)) }
    ensures { (result ≡ judge v (budget n 16384 false) (words_at (drop body text.now) body) (length text.now) (fitting v n body))
        × (clauses_kept result numbers.new ≡ body_of text.now result) }
{
    let mut at = body;
    let mut clauses = n;
    let mut literals: u32 = 16384;
    let mut unfinished = false;
    let mut k = 0;
    loop {
        match token_from(text, at) {
            Token::End => return judge_end(clauses, unfinished, text.len(), Header { v, n, body }),
            Token::Bad(start) => return Err(Refusal::Grammar(start)),
            Token::Zero { start, next } => {
                if clauses == 0 {
                    return Err(Refusal::Limit(start));
                }
                numbers[k] = 0;
                k += 1;
                clauses -= 1;
                unfinished = false;
                at = next;
            }
            Token::Literal {
                negative,
                magnitude,
                start,
                next,
            } => {
                if !literal_fits(v, clauses, literals, magnitude) {
                    return Err(Refusal::Limit(start));
                }
                numbers[k] = literal_of(negative, magnitude);
                k += 1;
                literals -= 1;
                unfinished = true;
                at = next;
            }
        }
    }
}

// The judgement of a text, refused or what its header says, and the clauses of a text that fits in `numbers`, which a load has made
// long enough.
pub fn judge_text(text: &[u8], numbers: &mut [i32]) -> Result<Header, Refusal>
    requires { 20480 ≤ length numbers.old }
    ensures { Judged (judge_text text.now) (text_clauses text.now) result numbers.new }
{
    let header = read_header(text)?;
    judge_words(text, header.v, header.n, header.body, numbers)
}
