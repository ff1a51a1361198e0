//! How a file is opened or mapped, as a word says it.

ghost use Rattle.std.specs.Prelude.{◌≡◌, ◌∷◌, ◌<◌, ◌==◌, IsTrue, IfSome, length, Some, None};
ghost use Rattle.std.specs.List.{position};
ghost use Rattle.msh_forms.specs.Parts.{comma_parts, more_parts, FitsBeside, with_extra as with_extra_bit};
ghost use Rattle.vfs_model.specs.CommandWords.{access_bits as bits_of_access, extra_bit as bit_of_extra, flags_of, with_extras};
ghost use Rattle.vfs_model.specs.MappingCommands.{is_for_writing as is_writing_word};

use bitflags::Flags;
use vfs_base::OpenFlags;

// The bits of `r`, `w` and `rw`.
fn access_bits(word: &[u8]) -> Option<u8>
    ensures { result ≡ bits_of_access word.now }
{
    match word {
        b"r" => Some(1),
        b"w" => Some(2),
        b"rw" => Some(3),
        _ => None,
    }
}

// The bit of what may follow them.
fn extra_bit(word: &[u8]) -> Option<u8>
    ensures value { result ≡ bit_of_extra word.now }
    ensures fits { IfSome result (λ bit. FitsBeside bit) }
{
    if word == b"creat".as_slice() {
        Some(4)
    } else if word == b"excl".as_slice() {
        Some(8)
    } else if word == b"trunc".as_slice() {
        Some(16)
    } else if word == b"append".as_slice() {
        Some(32)
    } else {
        None
    }
}

/// Whether a mapping is for writing too: `r` or `rw`. `None` of any other word.
pub fn is_for_writing(word: &[u8]) -> Option<bool>
    ensures { result ≡ is_writing_word word.now }
{
    match word {
        b"r" => Some(false),
        b"rw" => Some(true),
        _ => None,
    }
}

fn next_comma(text: &[u8]) -> Option<usize>
    ensures { result ≡ position (λ byte. byte == 44) text.now }
{
    text.iter().position(|&byte| byte == b',')
}

// The bytes before the first comma, and those behind it where there is one.
#[tactic(auto, using(crate::proofs::CommaParts::one_part, crate::proofs::CommaParts::comma_inside, crate::proofs::CommaParts::comma_then))]
fn first_part(text: &[u8]) -> (&[u8], bool, &[u8])
    ensures parts { comma_parts text.now ≡ result.0.now ∷ more_parts result.1 result.2.now }
    ensures shorter { IsTrue result.1 → length result.2.now < length text.now }
{
    match next_comma(text) {
        Some(end) => (&text[..end], true, &text[end + 1..]),
        None => (text, false, &[]),
    }
}

// The bits with that of one more word, which is not there yet.
fn with_extra(bits: u8, word: &[u8]) -> Option<u8>
    requires { bits < 64 }
    ensures value { result ≡ with_extra_bit bits word.now }
    ensures small { IfSome result (λ more. more < 64) }
{
    let bit = extra_bit(word)?;
    if bits & bit == bit {
        return None;
    }
    Some(bits + bit)
}

/// How a file is opened: `r`, `w` or `rw`, then any of `creat`, `excl`, `trunc` and `append`, each at
/// most once, with a comma before each. `None` of any other word.
pub fn read_flags(word: &[u8]) -> Option<OpenFlags>
    ensures { result ≡ flags_of word.now }
{
    let (first, mut has_more, mut text) = first_part(word);
    let mut bits = access_bits(first)?;
    while has_more {
        let (extra, is_followed, rest) = first_part(text);
        bits = with_extra(bits, extra)?;
        has_more = is_followed;
        text = rest;
    }
    Some(OpenFlags::from_bits_retain(bits))
}
