//! Numbers as bytes: groups of seven bits, the lowest first, the top bit set on all but the last.
ghost use Rattle.std.specs.Prelude.{◌≡◌, ◌≤◌, [], ◌∷◌, length};
ghost use Rattle.boxlist.specs.Groups.{groups_of, all_groups, zigzag};
ghost use Rattle.boxlist.specs.Format.{natural};
ghost use Rattle.boxlist.specs.Outputs.{HasRoom, Added};

// The unsigned number that a signed one goes out as.
pub(crate) fn fold_sign(n: i64) -> u64
    ensures { result ≡ zigzag n }
{
    if n >= 0 {
        n as u64 * 2
    } else {
        (n.unsigned_abs() - 1) * 2 + 1
    }
}

// A number from zero up as it is; one below zero never goes out so.
pub(crate) fn unsigned(n: i64) -> u64
    ensures { result ≡ natural n }
{
    u64::try_from(n).unwrap_or(0)
}

// How many groups a number has.
fn count_groups(n: u64) -> usize
    ensures total { result ≡ length (groups_of n) }
    ensures within { result ≤ 10 }
{
    if n < 128 {
        1
    } else {
        1 + count_groups(n / 128)
    }
}

// How many bytes the numbers take; no number has more than ten groups.
// `Output` stays beside it: the count is a chain of one line; a trait over both would need a state and a law of its own.
pub(crate) fn count_all(numbers: &[u64]) -> usize
    requires { length numbers.now ≤ 9 }
    ensures total { result ≡ length (all_groups numbers.now) }
    ensures within { result ≤ 90 }
{
    numbers.iter().map(|n| count_groups(*n)).sum()
}

// Bytes, and the place behind those that are written.
// `count_all` stays beside it: the count is a chain of one line; a trait over both would need a state and a law of its own.
#[derive(Drop)]
pub(crate) struct Output<'a> {
    bytes: &'a mut [u8],
    place: usize,
}

impl<'a> Output<'a> {
    // Nothing is written yet.
    pub(crate) fn new(bytes: &'a mut [u8]) -> Output<'a>
        ensures same { result.bytes.ghost_name ≡ bytes.entry.ghost_name }
        ensures held { result.bytes.now ≡ bytes.old }
        ensures front { result.place ≡ 0 }
    {
        Output { bytes, place: 0 }
    }

    fn put_byte(&mut self, byte: u8)
        requires { HasRoom self.old (byte ∷ []) }
        ensures { Added self.old self.new (byte ∷ []) }
    {
        self.bytes[self.place] = byte;
        self.place += 1;
    }

    // The groups of a number.
    fn put(&mut self, n: u64)
        requires { HasRoom self.old (groups_of n) }
        ensures { Added self.old self.new (groups_of n) }
    {
        if n < 128 {
            self.put_byte(n as u8);
        } else {
            self.put_byte((n % 128) as u8 + 128);
            self.put(n / 128);
        }
    }

    // The groups of the numbers, one number behind the other.
    pub(crate) fn put_all(&mut self, numbers: &[u64])
        requires { HasRoom self.old (all_groups numbers.now) }
        ensures { Added self.old self.new (all_groups numbers.now) }
    {
        for n in numbers {
            self.put(*n);
        }
    }
}
