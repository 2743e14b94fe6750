ghost use Rattle.std.specs.Prelude.{◌≡◌};
ghost use Rattle.codes.specs.Bytes.{bytes_of, code_at};

/// The code that stands from place `p`, lowest byte first, if its eight bytes are there.
pub fn read_code(bytes: &[u8], p: usize) -> Option<u64>
    ensures { result ≡ code_at bytes.now p }
{
    let code = bytes.get(p..)?.first_chunk::<8>()?;
    Some(u64::from_le_bytes(*code))
}

// Stays: one function of one line for each width that an image has. A trait over three types of number would be longer.
/// A number of 16 bits as bytes, the lowest first.
pub fn bytes16(half: u16) -> [u8; 2]
    ensures { result ≡ bytes_of 2 half }
{
    half.to_le_bytes()
}

/// A number of 32 bits as bytes, the lowest first.
#[tactic(auto, using(crate::proofs::Numbers::four_bytes))]
pub fn bytes32(word: u32) -> [u8; 4]
    ensures { result ≡ bytes_of 4 word }
{
    word.to_le_bytes()
}

/// A number of 64 bits as bytes, the lowest first.
#[tactic(auto, using(crate::proofs::Numbers::eight_bytes))]
pub fn bytes64(code: u64) -> [u8; 8]
    ensures { result ≡ bytes_of 8 code }
{
    code.to_le_bytes()
}
