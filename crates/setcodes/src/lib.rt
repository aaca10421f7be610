// Sets of positions of a side by their codes: the binary digits of a code tell which positions are in its set.
#![tactic(auto)]

ghost use Rattle.std.specs.Prelude.{◌≡◌, ℕ, ◌/◌, ◌%◌, ◌^◌, ◌<◌, bit_or};
ghost use Rattle.polymatroid.specs.Sets.{has};
ghost use Rattle.polymatroid.specs.Kinds.{size};

// The set of one position.
pub fn only(position: usize) -> usize
    requires { position < 64 }
    ensures { result ≡ 2 ^ position }
{
    1 << position
}

// The binary digit of a set at a position.
fn digit(set: usize, position: usize) -> usize
    requires { position < 64 }
    ensures { result ≡ set / 2 ^ position % 2 }
{
    (set >> position) % 2
}

// Whether a position is in a set.
pub fn contains(set: usize, position: usize) -> bool
    requires { position < 64 }
    ensures { result ≡ has set position }
{
    digit(set, position) == 1
}

// The set with one position more.
pub fn with_position(set: usize, position: usize) -> usize
    requires { position < 64 }
    ensures { result ≡ bit_or set (2 ^ position) }
{
    set | only(position)
}

// How many positions are in a set.
#[tactic(auto, using(crate::proofs::Sizes::size_is))]
pub fn size(set: usize) -> usize
    ensures { (k : ℕ) → set < 2 ^ k → result ≡ size k set }
{
    set.count_ones() as usize
}
