//! A mark for each node, in one word.

ghost use Rattle.std.specs.Prelude.{◌≡◌, ℕ, ◌+◌, ◌%◌, ◌^◌, ◌<◌, ◌≤◌, nat_eq, count_ones as ones, if◌then◌else◌};
ghost use Rattle.og_choices.specs.Marks.{is_marked, marks_below};

/// The marks, with this one set or not.
pub fn with_mark(marks: u128, node: u8, on: bool) -> u128
    requires { node < 128 }
    ensures { (k : ℕ) → is_marked result k ≡ (if nat_eq k node then on else is_marked marks k) }
{
    if on {
        marks | 1 << node
    } else {
        marks & !(1 << node)
    }
}

/// Whether a node is marked.
pub fn has_mark(marks: u128, node: u8) -> bool
    ensures { result ≡ is_marked marks node }
{
    node < 128 && marks >> node & 1 == 1
}

/// How many of the first bits of half a word are set.
fn ones_below(half: u64, count: u8) -> u32
    requires { count ≤ 64 }
    ensures ones { result ≡ ones (half % 2 ^ count) }
    ensures few { result ≤ 64 }
{
    if count >= 64 {
        return half.count_ones();
    }
    (half & ((1 << count) - 1)).count_ones()
}

/// How many nodes below this actor are marked. The halves of the word are counted apart, the upper one only where it has such nodes.
pub fn count_below(marks: u128, actor: u8) -> u32
    requires { actor ≤ 128 }
    ensures count { result ≡ marks_below marks actor }
    ensures few { result ≤ 128 }
{
    let low = (marks % (1 << 64)) as u64;
    if actor <= 64 {
        return ones_below(low, actor);
    }
    let high = (marks >> 64) as u64;
    low.count_ones() + ones_below(high, actor - 64)
}
