//! Reads the source to its end, or to one byte past the limit.

ghost use Rattle.std.specs.Prelude.{◌≡◌, ℕ, ◌≤◌, ◌<◌, ◌+◌, ◌-◌, ◌^◌, List, Option, IfOk, IfErr, IfSome, vec_len};
ghost use Rattle.std.specs.Bool.{MatchBool};
ghost use Rattle.outside.specs.Causes.{Rose};
ghost use Rattle.sim_run.specs.Input.{HasRead, HasReadAll, IsAtEnd};

use outside::Source;
use std::alloc::Global;

/// How many bytes one read asks for at most.
const PIECE: usize = 4096;

/// Why the input could not be read.
#[derive(Clone, Copy, Debug, PartialEq, Eq)]
pub enum InputStop {
    Failed,
    NoMemory,
}

/// Reads one piece, and says whether there was one.
fn read_piece<S: Source>(
    source: &mut S,
    bytes: &mut Vec<u8>,
    limit: usize,
) -> Result<bool, InputStop>
    requires room { vec_len bytes.old ≤ limit }
    requires limit { limit < 2 ^ 62 }
    ensures read { IfOk result (λ _. (all : Option (List ℕ)) → HasRead all bytes.old.items (S.left source.old) → HasRead all bytes.new.items (S.left source.new)) }
    ensures bound { IfOk result (λ _. vec_len bytes.new ≤ limit + 1) }
    ensures more { IfOk result (λ more. MatchBool more (vec_len bytes.old < vec_len bytes.new) (IfSome (S.left source.old) (λ _. IsAtEnd (S.left source.new)))) }
    ensures later { S.faults source.old ≤ S.faults source.new }
    ensures cause { IfErr result (λ stop. stop ≡ InputStop.Failed → Rose (S.faults source.old) (S.faults source.new)) }
{
    let mut buffer = [0u8; PIECE];
    let room = PIECE.min(limit - bytes.len() + 1);
    let Ok(count) = source.read(&mut buffer[..room]) else {
        return Err(InputStop::Failed);
    };
    if count == 0 {
        return Ok(false);
    }
    match bytes.extend_from_slice(&buffer[..count]) {
        Ok(()) => Ok(true),
        Err(_) => Err(InputStop::NoMemory),
    }
}

/// Reads to the end, or to one byte past the limit.
pub fn read_all<S: Source>(
    alloc: Global,
    source: &mut S,
    limit: usize,
) -> Result<Vec<u8>, InputStop>
    requires { limit < 2 ^ 62 }
    ensures read { IfOk result (λ bytes. HasReadAll limit (S.left source.old) bytes.items (S.left source.new)) }
    ensures later { S.faults source.old ≤ S.faults source.new }
    ensures cause { IfErr result (λ stop. stop ≡ InputStop.Failed → Rose (S.faults source.old) (S.faults source.new)) }
{
    let mut bytes = Vec::new(alloc);
    while bytes.len() <= limit {
        if !read_piece(source, &mut bytes, limit)? {
            break;
        }
    }
    Ok(bytes)
}
