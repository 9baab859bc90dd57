// Reads a formula as DIMACS text from standard input, simplifies it in one round, and prints what is left, or the refusal. A read or a write that fails is said on standard error.
#![tactic(auto)]

ghost use Rattle.std.specs.Prelude.{◌≤◌, length};

use std::io::Read;

// Reads until `text` is full, the input ends or a read fails; how many bytes lie at the start of `text` then.
fn read_full<R: Read>(input: &mut R, text: &mut [u8]) -> usize
    ensures { result ≤ length text.new }
{
    let mut n = 0;
    while n < text.len() {
        match input.read(&mut text[n..]) {
            Ok(0) => return n,
            Ok(k) => n += k,
            Err(_) => return n,
        }
    }
    n
}

// Whether the next read does not fail. `read_full` takes a read that fails for the end of the input; at the end a read gives no bytes, and one that failed fails again.
fn readable<R: Read>(input: &mut R) -> bool {
    let mut next = [0u8; 1];
    input.read(&mut next).is_ok()
}

// At most 65,535 bytes are taken; one more is read, so that it is seen. What is printed is `printed::print_into`'s.
fn main(rt: HostRuntime) {
    let mut input = rt.stdin();
    let mut text = [0u8; 65536];
    let n = read_full(&mut input, &mut text);
    if !readable(&mut input) {
        let _ = eprint!(rt; "unhide: cannot read the input\n");
        return;
    }
    let mut out = [0u8; 65536];
    let k = printed::print_into(&text[..n], &mut out);
    if rt.write_all(&out[..k]).is_err() {
        let _ = eprint!(rt; "unhide: cannot write the output\n");
    }
}
