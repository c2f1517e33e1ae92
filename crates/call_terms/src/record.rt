//! What the record of a call tells of the registers before it.
ghost use Rattle.std.specs.Prelude.{◌≡◌};
ghost use Rattle.rv_model.specs.Accesses.{moves_bytes};
ghost use Rattle.rv_model.specs.CallsFit.{IsPossible};
ghost use Rattle.rv_model.specs.declared.state.Note.TheVariants.{Called};
ghost use Rattle.call_terms.specs.Moved.{writes_buffer};
ghost use Rattle.call_terms.specs.Records.{first_in, number_in, read_in, second_in, written_in};

use odr_log::log::Call;

/// The number of a call, which stands in a7.
pub fn number_in(call: &Call) -> u32
    ensures { result ≡ number_in call.now }
{
    match call {
        Call::Exit { .. } => 1,
        Call::EndThread => 2,
        Call::Spawn { .. } => 3,
        Call::Join { .. } => 4,
        Call::Lock { .. } => 5,
        Call::Unlock { .. } => 6,
        Call::TryLock { .. } => 7,
        Call::Write { .. } | Call::WriteBad => 8,
        Call::Read { .. } | Call::ReadBad => 9,
        Call::SelfId => 10,
        Call::Yield => 11,
        Call::Unknown { number } => *number,
    }
}

/// What stands in a0, where the record tells it.
pub fn first_in(call: &Call) -> Option<u32>
    ensures { result ≡ first_in call.now }
{
    match call {
        Call::Exit { code } => Some(*code),
        Call::Spawn { entry, .. } => Some(*entry),
        Call::Join { target, .. } => Some(*target),
        Call::Lock { mutex, .. } | Call::Unlock { mutex, .. } | Call::TryLock { mutex, .. } => {
            Some(*mutex)
        }
        _ => None,
    }
}

/// What stands in a1, where the record tells it: the length of a buffer.
pub fn second_in(call: &Call) -> Option<u32>
    requires { IsPossible call.now }
    ensures { result ≡ second_in call.now }
{
    match call {
        Call::Write { bytes } => Some(bytes.len() as u32),
        Call::Read { want, .. } => Some(*want),
        _ => None,
    }
}

/// The bytes that a call read from its buffer.
pub fn read_in(call: &Call) -> &[u8]
    ensures { result.now ≡ read_in call.now }
{
    match call {
        Call::Write { bytes } => bytes.as_slice(),
        _ => &[],
    }
}

/// The bytes that a call wrote to its buffer.
pub fn written_in(call: &Call) -> &[u8]
    ensures { result.now ≡ written_in call.now }
{
    match call {
        Call::Read { bytes, .. } => bytes.as_slice(),
        _ => &[],
    }
}

/// Whether a call moved bytes, and so is an access.
pub fn moves_bytes(call: &Call) -> bool
    ensures { result ≡ moves_bytes (Called call.now) }
{
    !read_in(call).is_empty() || !written_in(call).is_empty()
}

/// Whether a call writes its buffer.
pub fn writes_buffer(call: &Call) -> bool
    ensures { result ≡ writes_buffer call.now }
{
    match call {
        Call::Read { .. } => true,
        _ => false,
    }
}
