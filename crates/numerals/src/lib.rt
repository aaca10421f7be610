// Numbers as they are written: the two-byte and four-byte numbers of a plant file, lowest byte first.
#![tactic(auto)]

ghost use Rattle.std.specs.Prelude.{◌≡◌, ◌+◌, ◌≤◌, length};
ghost use Rattle.plantformat.specs.Bytes.{word, long};

// The two-byte number at a place.
pub fn word_at(bytes: &[u8], at: usize) -> usize
    requires { at + 2 ≤ length bytes.now }
    ensures { result ≡ word bytes.now at }
{
    usize::from(u16::from_le_bytes([bytes[at], bytes[at + 1]]))
}

// The four-byte number at a place.
pub fn long_at(bytes: &[u8], at: usize) -> u32
    requires { at + 4 ≤ length bytes.now }
    ensures { result ≡ long bytes.now at }
{
    u32::from_le_bytes([bytes[at], bytes[at + 1], bytes[at + 2], bytes[at + 3]])
}
