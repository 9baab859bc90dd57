// Hidden tautologies, hidden literals and failed literals, by time stamps (source document 000, figures 5 and 6; document 02, CR 2): definitions and laws in specs/ and proofs/, and the test that all of them rest on.
#![tactic(auto)]

ghost use Rattle.std.specs.Prelude.{◌≡◌, List, ◌+◌, ◌*◌, ◌<◌, length, ℤ};
ghost use Rattle.stamp_columns.specs.Columns.{columns};
ghost use Rattle.hidden.specs.Hidden.{holds};

// Whether the interval of slot a holds that of slot b: it begins no later and ends no earlier.
pub fn holds(times: &[u32], a: u32, b: u32) -> bool
    requires { (2 * a + 1 < length times.now) × (2 * b + 1 < length times.now) }
    ensures { (links : List ℤ) → result ≡ holds (columns times.now links) a b }
{
    stamp_columns::compare(times, a, b).contains()
}
