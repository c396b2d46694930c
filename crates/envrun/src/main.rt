//! Works the trace on the standard input through a manager, and prints the report. A refused trace is a report too.
#![tactic(auto)]

ghost use Rattle.std.specs.Prelude.{◌≡◌, ◌≤◌, take, IfOk, IfSome, vec_len};
ghost use Rattle.std.specs.Option.{option_map};

use std::alloc::Global;
use std::io;
use std::io::{Read, Write};
use std::process::ExitCode;

/// As many bytes show that a trace is too long.
const ENOUGH: usize = 65_537;

/// What a reader gives, to its end or as far as shows that it is too long. The bytes of a standard input are not known to a
/// clause; those of other readers are, and the proof is one for all.
fn read_enough<R: Read + Drop>(heap: Global, input: R) -> io::Result<Vec<u8>>
    ensures { IfOk result (λ bytes. IfSome (option_map (take 65537) (R.Read.remaining input)) (λ known. bytes.items ≡ known)) }
{
    let mut bytes = Vec::new(heap);
    input.take(ENOUGH as u64).read_to_end(&mut bytes)?;
    Ok(bytes)
}

/// The standard input, to its end or as far as shows that it is too long.
fn read_trace(rt: &HostRuntime) -> io::Result<Vec<u8>>
    ensures { IfOk result (λ bytes. vec_len bytes ≤ 65537) }
{
    let mut bytes = read_enough(rt.alloc(), rt.stdin())?;
    // No more was read, but of an input whose bytes are not known no clause of the library says so.
    bytes.truncate(ENOUGH);
    Ok(bytes)
}

/// The report of the trace on the standard input, or a line on the standard error.
fn run(rt: &HostRuntime) -> io::Result<()> {
    let trace = match read_trace(rt) {
        Ok(bytes) => bytes,
        Err(why) => {
            eprintln!(rt; "envrun: the trace cannot be read: {why}")?;
            return Err(why);
        }
    };
    match replay::report(rt.alloc(), trace.as_slice()) {
        Ok(text) => rt.stdout().write_all(text.as_str().as_bytes()),
        Err(why) => {
            eprintln!(rt; "envrun: no memory for the report")?;
            Err(why.into())
        }
    }
}

/// Status 0, or 1 after an error. Its line, if it has one, is written by then.
fn main(rt: HostRuntime) -> ExitCode {
    match run(&rt) {
        Ok(()) => ExitCode::SUCCESS,
        Err(_) => ExitCode::FAILURE,
    }
}
