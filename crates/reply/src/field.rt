// The field that a call names.
ghost use Rattle.std.specs.Prelude.{◌≡◌};
ghost use Rattle.reply.specs.Replies.{choice_of};

use residue::Field;

// A bool has no third value, so that no call can name a third field.
pub fn named(second: bool) -> Field
    ensures { result ≡ choice_of second }
{
    if second { Field::Second } else { Field::First }
}
