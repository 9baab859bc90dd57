// The value in every variable's record: behind a pass, each variable gets the value of its class literal.
#![tactic(auto)]

ghost use Rattle.std.specs.Prelude.{◌≡◌, pos};
ghost use Rattle.visits.specs.Formed.{Variables, Known};
ghost use Rattle.spread.specs.Spread.{spread_at, spread};

// Variable w gets the value of its class literal; one that is its own class has it. By the shape rule w has a record, as its class has.
fn spread_at(variables: &mut [i32], w: usize)
    requires { Known variables.old (pos w) }
    ensures { variables.new ≡ spread_at w variables.old }
{
    if variables[2 * w - 2] != w as i32 {
        variables[2 * w - 1] = shape::class_value(variables, w);
    }
}

// The same for the variables 1 to v, whose records keep the shape rule but for values that a pass has not spread yet.
pub fn spread(variables: &mut [i32], v: u32)
    requires { Variables v variables.old }
    ensures { variables.new ≡ spread v variables.old }
{
    for w in 1..=v as usize {
        spread_at(variables, w);
    }
}
