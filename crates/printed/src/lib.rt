// What the program `unhide` prints for an input.
#![tactic(auto)]

ghost use Rattle.std.specs.Prelude.{◌≡◌, ◌≤◌, take, replicate};
ghost use Rattle.simplify.specs.Texts.{unhide_text};

// Makes the bytes that are printed in `out`, which is 65,536 zeros, as the program makes it; how many they are. One round; an input of more than 65,535 bytes is refused unread.
pub fn print_into(input: &[u8], out: &mut [u8]) -> usize
    requires { out.old ≡ replicate 65536 0 }
    ensures { (result ≤ 65536) × (take result out.new ≡ unhide_text input.now) }
{
    let is_long = 65535 < input.len();
    if is_long {
        return printing::put_refusal(out, 0, 3, 65535);
    }
    let answer = simplify::simplify_text(input, 1, out);
    match answer {
        Ok(answer) => answer.value() as usize,
        Err(refusal) => printing::put_refusal(out, 0, refusal.number(), refusal.place()),
    }
}
