// The order in which a round of Run stamps.
#![tactic(auto)]

ghost use Rattle.std.specs.Prelude.{◌≡◌, map, ◌+◌, ◌*◌, ◌%◌, ◌≤◌, ◌<◌, length};
ghost use Rattle.base.specs.Lists.{numbers};
ghost use Rattle.literal.specs.Literals.{lit_at};
ghost use Rattle.round_order.specs.Order.{order_of};

// Writes the literals of the slots from a slot on, in rising order.
fn write_slots(part: &mut [i32], slot: usize)
    requires { slot + length part.old ≤ 2048 }
    ensures { part.new ≡ map lit_at (numbers slot (length part.old)) }
{
    for (i, place) in part.iter_mut().enumerate() {
        *place = literal::lit_at(slot + i);
    }
}

// The turn in round k of an order of so many literals.
fn turn_of(k: u32, size: usize) -> usize
    requires { 0 < size }
    ensures { result ≡ k % size }
{
    k as usize % size
}

// Writes 1, -1, 2, -2, .. of v variables, turned left by k mod 2v places. V is within its limit by the shape rule, and the order is cut to 2V places by its caller.
pub fn write_order(order: &mut [i32], v: u32, k: u32)
    requires { (length order.old ≡ 2 * v) × (v ≤ 1024) }
    ensures { order.new ≡ order_of v k }
{
    let size = order.len();
    if size == 0 {
        return;
    }
    let turn = turn_of(k, size);
    let rest = size - turn;
    write_slots(&mut order[..rest], turn);
    write_slots(&mut order[rest..], 0);
}
