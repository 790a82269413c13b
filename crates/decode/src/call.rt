// Reading a call. Bytes that are no call are read as garbled, with the place where they cease to be one.
ghost use Rattle.std.specs.Prelude.{◌≡◌, ◌+◌, ◌^◌, ◌<◌, ◌≤◌, ◌∷◌, length, drop, MatchResult};
ghost use Rattle.calls.specs.Kinds.{kind_number};
ghost use Rattle.calls.specs.Meaning.{call_of};
ghost use Rattle.codec.specs.Numbers.{from_le8};
ghost use Rattle.codec.specs.Lengths.{high};
ghost use Rattle.codec.specs.CallBytes.{read_rename, read_call};
ghost use Rattle.decode.specs.Read.{call_or_garbled, IsNotJust};
ghost use Rattle.decode.specs.declared.call.Fault.TheVariants.{CutOff, UpTo};

use crate::length::{last_digit, value_of};
use crate::parts::split_number;
use calls::Call;
use calls::kind::{Kind, UnknownKind};

// Why bytes are no call.
#[derive(Clone, Copy)]
enum Fault {
    // they end before the call does
    CutOff,
    // they are one up to a place
    UpTo(usize),
}

impl From<UnknownKind> for Fault {
    // Already the first byte is no call's.
    ghost from_gives = { λ _ fault. fault ≡ UpTo 0 };

    fn from(_: UnknownKind) -> Fault {
        Fault::UpTo(0)
    }
}

// A number, and what follows it.
fn number(fields: &[u8]) -> Result<(u64, &[u8]), Fault>
    ensures { MatchResult result
        (λ parts. (8 ≤ length fields.now) × (parts.0 ≡ from_le8 fields.now) × (parts.1.now ≡ drop 8 fields.now))
        (λ fault. (length fields.now < 8) × (fault ≡ CutOff)) }
{
    split_number(fields).ok_or(Fault::CutOff)
}

// Two numbers, and what follows them.
fn two_numbers(fields: &[u8]) -> Result<(u64, u64, &[u8]), Fault>
    ensures { MatchResult result
        (λ parts. (16 ≤ length fields.now) × (parts.0 ≡ from_le8 fields.now)
        × (parts.1 ≡ from_le8 (drop 8 fields.now)) × (parts.2.now ≡ drop 16 fields.now))
        (λ fault. (length fields.now < 16) × (fault ≡ CutOff)) }
{
    let (first, rest) = number(fields)?;
    let (second, rest) = number(rest)?;
    Ok((first, second, rest))
}

// The end of a call, at a place.
fn ends(rest: &[u8], place: usize) -> Result<(), Fault>
    ensures { MatchResult result (λ _. length rest.now ≡ 0) (λ fault. (0 < length rest.now) × (fault ≡ UpTo place)) }
{
    if rest.is_empty() {
        Ok(())
    } else {
        Err(Fault::UpTo(place))
    }
}

// A number with nothing after it.
fn only_number(fields: &[u8]) -> Result<u64, Fault>
    ensures { MatchResult result
        (λ number. (length fields.now ≡ 8) × (number ≡ from_le8 fields.now))
        (IsNotJust 8 (length fields.now)) }
{
    let (number, rest) = number(fields)?;
    ends(rest, 9)?;
    Ok(number)
}

// Two numbers with nothing after them.
fn only_two_numbers(fields: &[u8]) -> Result<(u64, u64), Fault>
    ensures { MatchResult result
        (λ numbers. (length fields.now ≡ 16) × (numbers.0 ≡ from_le8 fields.now) × (numbers.1 ≡ from_le8 (drop 8 fields.now)))
        (IsNotJust 16 (length fields.now)) }
{
    let (first, second, rest) = two_numbers(fields)?;
    ends(rest, 17)?;
    Ok((first, second))
}

// A rename by what follows its numbers: the first name's length, and two names.
fn renamed<'a>(dir: u64, new_dir: u64, bytes: &'a [u8]) -> Result<Call<'a>, Fault>
    requires { 17 + length bytes.now < 2 ^ 64 }
    ensures { call_or_garbled (17 + length bytes.now) result ≡ read_rename dir new_dir (high bytes.now) bytes.now }
{
    let last = last_digit(bytes).ok_or(Fault::CutOff)?;
    if 0 < last && bytes[last] == 0 {
        return Err(Fault::UpTo(17 + last));
    }
    let (digits, names) = bytes.split_at(last + 1);
    let length = value_of(digits, names.len()).ok_or(Fault::CutOff)?;
    let (name, new_name) = names.split_at(length);
    Ok(Call::Rename(dir, name, new_dir, new_name))
}

// The call of a kind, by its fields.
// kept: the variants by name in place of the closures are not covered, since a call has a lifetime (tried)
#[tactic(auto, unfolding(codec::specs::CallBytes::made))]
fn by_kind(kind: Kind, fields: &[u8]) -> Result<Call<'_>, Fault>
    requires { 1 + length fields.now < 2 ^ 64 }
    ensures { call_or_garbled (1 + length fields.now) result ≡ read_call (kind_number kind ∷ fields.now) }
{
    match kind {
        Kind::Find => number(fields).map(|(dir, name)| Call::Find(dir, name)),
        Kind::MakeFile => number(fields).map(|(dir, name)| Call::MakeFile(dir, name)),
        Kind::MakeDir => number(fields).map(|(dir, name)| Call::MakeDir(dir, name)),
        Kind::Remove => number(fields).map(|(dir, name)| Call::Remove(dir, name)),
        Kind::Rename => {
            let (dir, new_dir, names) = two_numbers(fields)?;
            renamed(dir, new_dir, names)
        }
        Kind::List => only_two_numbers(fields).map(|(dir, entry)| Call::List(dir, entry)),
        Kind::Size => only_number(fields).map(|file| Call::Size(file)),
        Kind::Read => only_two_numbers(fields).map(|(file, at)| Call::Read(file, at)),
        Kind::Write => two_numbers(fields).map(|(file, at, block)| Call::Write(file, at, block)),
        Kind::Resize => only_two_numbers(fields).map(|(file, places)| Call::Resize(file, places)),
        Kind::SyncFile => only_number(fields).map(|file| Call::SyncFile(file)),
        Kind::SyncTree => ends(fields, 1).map(|()| Call::SyncTree),
    }
}

// The call that bytes are, or why they are none.
fn parse(bytes: &[u8]) -> Result<Call<'_>, Fault>
    ensures { call_or_garbled (length bytes.now) result ≡ read_call bytes.now }
{
    let (kind, fields) = bytes.split_first().ok_or(Fault::CutOff)?;
    by_kind(Kind::try_from(*kind)?, fields)
}

// The call that bytes are, or where they cease to be one.
pub fn read_call(bytes: &[u8]) -> Call<'_>
    ensures { call_of result ≡ read_call bytes.now }
{
    match parse(bytes) {
        Ok(call) => call,
        Err(Fault::CutOff) => Call::Garbled(bytes.len() as u64),
        Err(Fault::UpTo(place)) => Call::Garbled(place as u64),
    }
}
