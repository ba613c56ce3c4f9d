// The bytes of a row as two numbers.
ghost use Rattle.locks.specs.Words.{Worded};

// Sixteen bytes as two numbers: the first eight and the last, the first of each the lowest.
#[derive(Clone, Copy, Debug, PartialEq, Eq)]
pub struct Words {
    pub low: u64,
    pub high: u64,
}

pub fn words_of(b: [u8; 16]) -> Words
    ensures { Worded b result }
{
    let n = u128::from_le_bytes(b);
    Words {
        low: (n % (1 << 64)) as u64,
        high: (n >> 64) as u64,
    }
}
