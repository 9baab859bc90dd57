// The rules that a programme keeps (document 02, CR 5), checked in one walk over its codes, and a programme made of codes that are lent.
#![tactic(auto)]

ghost use Rattle.std.specs.Prelude.{◌≡◌, ◌≤◌, length};
ghost use Rattle.base.specs.Decide.{Decides};
ghost use Rattle.state.specs.Programmes.{programme_of};
ghost use Rattle.programmes.specs.Rules.{Passing};
ghost use Rattle.programmes.specs.Judging.{fits_by, stamped_by, first_offending, judge};

use state::{FAILED, Programme, SETTLE, STAMP, SWEEP};

// ---- one code

// Whether a code may stand behind others, of which the last is a settle or is not, and of which a stamp has no settle or sweep behind it or none has.
fn code_fits(code: u32, settled: bool, stamped: bool) -> bool
    ensures { result ≡ fits_by code settled stamped }
{
    match code {
        SETTLE => true,
        STAMP => settled,
        FAILED => stamped,
        SWEEP => stamped,
        _ => false,
    }
}

// Whether a stamp has no settle or sweep behind it, with this code behind the others.
fn stamped_after(code: u32, stamped: bool) -> bool
    ensures { result ≡ stamped_by code stamped }
{
    match code {
        SETTLE => false,
        STAMP => true,
        SWEEP => false,
        _ => stamped,
    }
}

// ---- a list of codes

// The index of the first code that may not stand where it does.
fn first_offending(codes: &[u32]) -> Option<usize>
    ensures { result ≡ first_offending codes.now }
{
    let mut settled = false;
    let mut stamped = false;
    for (i, &code) in codes.iter().enumerate() {
        if !code_fits(code, settled, stamped) {
            return Some(i);
        }
        settled = code == SETTLE;
        stamped = stamped_after(code, stamped);
    }
    None
}

// Of any codes: that they keep the rules, or the index of the first that breaks them, 0 for a wrong length.
pub fn judge(codes: &[u32]) -> Result<(), usize>
    ensures { result ≡ judge codes.now }
{
    if codes.is_empty() || 32 < codes.len() {
        return Err(0);
    }
    match first_offending(codes) {
        Some(at) => Err(at),
        None => Ok(()),
    }
}

// ---- programmes

// Whether a programme of any length and codes keeps the rules.
pub fn programme_ok(programme: Programme) -> bool
    ensures { Decides result (Passing programme) }
{
    let count = programme.length as usize;
    count <= 32 && judge(&programme.codes[..count]).is_ok()
}

// The programme of these codes, 0 behind them. The call that sets a programme has judged them before.
pub fn programme_of(codes: &[u32]) -> Programme
    requires { length codes.now ≤ 32 }
    ensures { result ≡ programme_of codes.now }
{
    let count = codes.len();
    let mut places = [0u32; 32];
    places[..count].copy_from_slice(codes);
    Programme {
        codes: places,
        length: count as u32,
    }
}
