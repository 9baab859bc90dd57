// The slots of the literals of one clause, and of their complements.
#![tactic(auto)]

ghost use Rattle.std.specs.Prelude.{◌≡◌, map, ℕ, ◌<◌, length, get_or};
ghost use Rattle.literal.specs.Literals.{slot_of, twin};
ghost use Rattle.clause_slots.specs.Stamped.{Lits};

// The slots of the literals of a part. They are literals of at most 1,024 variables, since the shape rule holds where Sweep has passed its entry, and `out` is as long.
pub fn slots_of(part: &[i32], out: &mut [u32])
    requires { Lits part.now × (length out.old ≡ length part.now) }
    ensures { out.new ≡ map slot_of part.now }
{
    for (i, &l) in part.iter().enumerate() {
        out[i] = literal::slot_of(l) as u32;
    }
}

// The slots of the complements. `slots_of` gives such slots, and figure 5 keeps some of them; `out` is as long.
pub fn twins_of(slots: &[u32], out: &mut [u32])
    requires { ((k : ℕ) → k < length slots.now → get_or slots.now k 0 < 65536) × (length out.old ≡ length slots.now) }
    ensures { out.new ≡ map twin slots.now }
{
    for (i, &slot) in slots.iter().enumerate() {
        out[i] = literal::twin_of(slot);
    }
}
