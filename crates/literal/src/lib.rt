// Literals: a variable v or its complement -v, and their slots 2v - 2 and 2v - 1.
#![tactic(auto)]

ghost use Rattle.std.specs.Prelude.{◌≡◌, ◌++◌, ◌<◌, ◌≤◌, ◌-◌, length, take, replicate, nat_abs, neg_ℤ, pos};
ghost use Rattle.std.specs.Int.Signed.{non_neg};
ghost use Rattle.literal.specs.Literals.{Small, in_range, sign_by, slot_of, lit_at, twin};

// Whether l is a literal of the variables 1 to v; the smallest i32 is none. The variable is taken first and compared once: a comparison for each
// sign would be a jump that no processor foresees where signs come at random, and the checks of tables and window ask this of every literal.
pub fn in_range(l: i32, v: u32) -> bool
    ensures { result ≡ in_range l v }
{
    l != 0 && l != i32::MIN && var_of(l) <= v as usize
}

// The complement. It is asked of literals of a text that was judged to fit, and of a part under the shape rule: neither has the smallest i32.
pub fn complement(l: i32) -> i32
    requires { Small l }
    ensures { result ≡ neg_ℤ l }
{
    -l
}

// The variable of a literal, which is not the smallest i32, as the shape rule or the caller's own test has it.
pub fn var_of(l: i32) -> usize
    requires { Small l }
    ensures { result ≡ nat_abs l }
{
    if l < 0 { (-l) as usize } else { l as usize }
}

// A number that is kept for the variable of l, a class or a value, with the sign of l. By the shape rule neither is the smallest i32.
pub fn signed_by(l: i32, x: i32) -> i32
    requires { Small x }
    ensures { result ≡ sign_by (non_neg l) x }
{
    if l < 0 { -x } else { x }
}

// The slot of a literal, which is not 0 and not the smallest i32, as `in_range` or the shape rule has it. The variable is taken before the
// sign is asked, so that the compiler makes no branch of the sign, which the processor would have to guess.
pub fn slot_of(l: i32) -> usize
    requires { (0 < nat_abs l) × Small l }
    ensures { result ≡ slot_of l }
{
    let v = var_of(l);
    if l < 0 { 2 * v - 1 } else { 2 * v - 2 }
}

// The literal whose slot is given. Slots are at most 2,047 wherever it is called.
pub fn lit_at(slot: usize) -> i32
    requires { slot < 4294967294 }
    ensures { result ≡ lit_at slot }
{
    let v = (slot / 2 + 1) as i32;
    if slot % 2 == 0 { v } else { -v }
}

// The slot of the complement. Slots are at most 2,047 wherever it is called.
pub fn twin_of(slot: u32) -> u32
    requires { slot < 65536 }
    ensures { result ≡ twin slot }
{
    if slot % 2 == 0 { slot + 1 } else { slot - 1 }
}

// 0 from a place to the end. The place is a length that the caller has counted in the same slice.
pub fn zero_from(part: &mut [i32], from: usize)
    requires { from ≤ length part.old }
    ensures { part.new ≡ take from part.old ++ replicate (length part.old - from) (pos 0) }
{
    part[from..].fill(0);
}
