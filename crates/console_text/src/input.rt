ghost use Rattle.std.specs.Prelude.{◌≡◌, ◌⊎◌, ◌≤◌, ◌+◌, IfOk, IsErrOf, IsSome, Ok};
ghost use Rattle.console_text.specs.Input.{HoldsAll};
ghost use Rattle.console_text.specs.declared.ends.IoTrouble.TheVariants.{Unread};

use crate::ends::IoTrouble;
use crate::source::{MAX_READS, Source};
use std::alloc::{AllocError, Global};
use std::io::Read;

/// How many bytes one read may give.
const PIECE: usize = 65_536;

/// All bytes of an input, by at most `MAX_READS` reads. A read that fails is not made again.
pub fn read_source<R: Read>(alloc: Global, input: &mut Source<R>) -> Result<Vec<u8>, IoTrouble>
    // Promise: At most 16,777,216 reads are made of an input, and an input that was read was read whole.
    // Refuses: one_read_too_many, half_of_a_read_lost, nothing_read.
    ensures bytes { IfOk result (λ bytes. HoldsAll (R.remaining input.old.reader) bytes.items) }
    ensures bound { input.old.left ≤ input.new.left + 16777216 }
    // It gives up only where a read failed, or where no read is left.
    // Promise: An input is given up as unread only where a read failed, or where none of its reads is left.
    // Refuses: given_up_after_100_reads.
    ensures unread { IsErrOf result Unread → IsSome input.new.fault ⊎ (input.new.left ≡ 0) }
{
    let mut bytes = Vec::new(alloc);
    let mut piece = [0u8; PIECE];
    for _read in 0..MAX_READS {
        let Ok(count) = input.read(&mut piece) else {
            return Err(IoTrouble::Unread);
        };
        if count == 0 {
            return Ok(bytes);
        }
        bytes.extend_from_slice(&piece[..count])?;
    }
    Err(IoTrouble::Unread)
}

/// What a command makes of a whole input.
pub fn outcome_of<R: Read, T, F: FnOnce(Vec<u8>) -> Result<T, AllocError>>(
    alloc: Global,
    input: &mut Source<R>,
    command: F,
) -> Result<T, IoTrouble>
    requires { F.IsAlwaysCallable command }
    // Promise: What a command comes to is what it makes of all bytes of its input.
    // Refuses: made_of_nothing.
    ensures made { IfOk result (λ made. (bytes : _) × HoldsAll (R.remaining input.old.reader) bytes.items × F.post command bytes (Ok made)) }
    ensures reads { input.old.left ≤ input.new.left + 16777216 }
{
    let bytes = read_source(alloc, input)?;
    Ok(command(bytes)?)
}
