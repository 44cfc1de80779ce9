// Which of two log sequences is preferred.
ghost use Rattle.std.specs.Prelude.{◌≡◌};
ghost use Rattle.vhdx_sequence.specs.Sequence.{beats as beats_of, better as better_of};

use crate::Sequence;

// The greater head number; of equals, the lower first sector.
pub fn better(p: Option<Sequence>, q: Option<Sequence>) -> Option<Sequence>
    ensures { result ≡ better_of p q }
{
    match (p, q) {
        (Some(a), Some(b)) => Some(if beats(b, a) { b } else { a }),
        _ => p.or(q),
    }
}

// q is preferred to p.
fn beats(q: Sequence, p: Sequence) -> bool
    ensures { result ≡ beats_of q p }
{
    p.number < q.number || (p.number == q.number && q.start < p.start)
}
