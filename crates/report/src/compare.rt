// Whether exchanges were answered alike.
ghost use Rattle.std.specs.Prelude.{◌≡◌};
ghost use Rattle.report.specs.Alike.{same_answers, same_exchange};

use drive::Exchange;

fn same_exchange(a: &Exchange, b: &Exchange) -> bool
    ensures { result ≡ same_exchange a.now b.now }
{
    a.answer == b.answer && a.reported == b.reported
}

// The same answers and numbers, one by one; exchanges have no equality of their own, since their requests may differ.
pub fn same_answers(left: &[Exchange], right: &[Exchange]) -> bool
    ensures { result ≡ same_answers left.now right.now }
{
    left.len() == right.len() && left.iter().zip(right).all(|(a, b)| same_exchange(a, b))
}
