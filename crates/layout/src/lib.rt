// Where rounds and v stand in an opening, for who writes it and for who verifies it: the rounds from the top one down, then v. The blocks below the top
// level, from the upper ones down, stand behind it.
#![tactic(auto)]

ghost use Rattle.std.specs.Prelude.{◌≡◌, ◌≤◌};
ghost use Rattle.basefold.specs.Layout.{round_at, final_at};

// Where the three values of h_i begin.
pub fn round_at(depth: u32, i: u32) -> usize
    requires { i ≤ depth }
    ensures { result ≡ round_at depth i }
{
    3 * ((depth - i) as usize)
}

// Where v stands.
pub fn final_at(depth: u32) -> usize
    ensures { result ≡ final_at depth }
{
    3 * (depth as usize)
}
