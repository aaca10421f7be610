// How a file is cut into records: a two-byte length that counts the whole record, a two-byte kind, then the body. `first_frame` takes
// any bytes, and its answer is that of the definition of the format, for any kinds that are listed by their numbers. What a body holds
// is for the layer that reads the records.
#![tactic(auto)]

ghost use Rattle.std.specs.Prelude.{◌≡◌};
ghost use Rattle.framing.specs.Frames.{Framed, cut_at, cut_shown};

use plantformat::FramingFault;

// A value that was read from the front of some bytes, and the bytes after it.
#[derive(Clone, Copy)]
pub struct Parsed<'a, T> {
    pub value: T,
    pub rest: &'a [u8],
}

// A record: its kind, its body, and the bytes after it.
#[derive(Clone, Copy)]
pub struct Frame<'a, K> {
    pub kind: K,
    pub body: &'a [u8],
    pub rest: &'a [u8],
}

// The first record of `bytes`, which lies at the place `at` of the file, with its kind as a number.
#[tactic(auto, using(crate::proofs::Cuts::cut_is))]
pub fn cut_record<'a>(bytes: &'a [u8], at: usize) -> Result<Frame<'a, u16>, FramingFault>
    ensures { cut_shown result ≡ cut_at at bytes.now }
{
    let fault = FramingFault::Length { at };
    let [l0, l1, k0, k1, after @ ..] = bytes else {
        return Err(fault);
    };
    let length = usize::from(u16::from_le_bytes([*l0, *l1]));
    let size = length.checked_sub(4).ok_or(fault)?;
    let (body, rest) = after.split_at_checked(size).ok_or(fault)?;
    Ok(Frame {
        kind: u16::from_le_bytes([*k0, *k1]),
        body,
        rest,
    })
}

// The first record of `bytes`, if it is whole and of a listed kind.
pub fn first_frame<'a, K: TryFrom<u16>>(
    bytes: &'a [u8],
    at: usize,
) -> Result<Frame<'a, K>, FramingFault>
where
    K::Error: Drop,
    ensures { Framed K.try_from_gives at (cut_at at bytes.now) result }
{
    let cut = cut_record(bytes, at)?;
    let kind = K::try_from(cut.kind).map_err(|_| FramingFault::Kind { at })?;
    Ok(Frame {
        kind,
        body: cut.body,
        rest: cut.rest,
    })
}
