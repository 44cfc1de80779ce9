// Prints the sectors that the pending log of a file would write, one line each: the offset in decimal, a space, D for a data
// descriptor's and Z for a zero descriptor's. On refusal N the one line is "refused N"; a file that cannot be read ends the output
// with the line "unreadable". The file is only read, at most 64 KiB at a time.
// Its modules: `window`, the bytes of the file that are at hand; `lines`, the output.
#![tactic(auto)]

mod lines;
mod window;

ghost use Rattle.std.specs.Prelude.{◌≡◌, IfSome};
ghost use Rattle.vhdx_pieces.specs.Machines.{Sane, Kept};
ghost use Rattle.list_writes.specs.Driver.{asks_of, Ahead, Toward};

use lines::Lines;
use std::env::Env;
use std::fs::File;
use std::io::{Seek, SeekFrom};
use std::os::unix::fs::FileExt;
use std::{io, str};
use vhdx_pieces::{Machine, Turn};
use window::Window;

// Document 01's limit of a file's length, 128 TiB.
const CAPACITY: u64 = 140737488355328;

// What is asked for next, and the bytes that are at hand.
#[derive(Clone, Copy)]
struct State {
    turn: Turn,
    window: Window,
}

fn main(rt: HostRuntime) -> io::Result<()> {
    match open(&rt) {
        Some(file) => list(&rt, &file),
        None => lines::unreadable(&rt),
    }
}

// The file that the argument names, if it can be read. Its name is UTF-8 text of fewer than 4,096 bytes.
fn open(rt: &HostRuntime) -> Option<File> {
    let mut path = [0u8; 4096];
    let n = rt.arg(1, &mut path).ok()?;
    let name = str::from_utf8(&path[..n]).ok()?;
    File::open(rt, name).ok()
}

// The length is taken once. A directory may have one, but none of its bytes can be read.
fn list(rt: &impl Print, file: &File) -> io::Result<()> {
    let mut cursor = file;
    let mut byte = [0u8; 1];
    match (cursor.seek(SeekFrom::End(0)), file.read_at(&mut byte, 0)) {
        (Ok(length), Ok(_)) => run(rt, file, length),
        _ => lines::unreadable(rt),
    }
}

fn run(rt: &impl Print, file: &File, length: u64) -> io::Result<()> {
    let mut bytes = [0u8; 65536];
    let mut lines = Lines::new();
    let mut state = State {
        turn: vhdx_pieces::start(length, CAPACITY),
        window: Window::EMPTY,
    };
    while asks(state.turn) {
        if let Turn::Write(m) = state.turn {
            lines.push(rt, vhdx_pieces::write_offset(m), vhdx_pieces::is_data(m))?;
        }
        let Some(next) = turn(file, state, &mut bytes) else {
            lines.flush(rt)?;
            return lines::unreadable(rt);
        };
        state = next;
    }
    lines.flush(rt)?;
    end(rt, state.turn)
}

fn asks(turn: Turn) -> bool
    ensures { result ≡ asks_of turn }
{
    matches!(turn, Turn::Read(_) | Turn::Grow(_) | Turn::Write(_))
}

// The machine is handed in, with bytes where it wants any. Growth and writes count as done. None where the bytes cannot be read.
fn turn(file: &File, state: State, bytes: &mut [u8; 65536]) -> Option<State>
    requires { Kept state.turn }
    ensures { IfSome result (λ s. Toward state.turn s.turn) }
{
    match state.turn {
        Turn::Read(m) | Turn::Grow(m) | Turn::Write(m) => hand_in(file, m, state.window, bytes),
        Turn::Done(_) | Turn::Refused(_) => Some(state),
    }
}

fn hand_in(file: &File, m: Machine, window: Window, bytes: &mut [u8; 65536]) -> Option<State>
    requires { Sane m }
    ensures { IfSome result (λ s. Ahead m s.turn) }
{
    let wanted = vhdx_pieces::wanted(m);
    let window = window.moved(file, wanted, bytes);
    let start = window.place(wanted)?;
    let end = start + wanted.length as usize;
    Some(State {
        turn: vhdx_pieces::next(m, &bytes[start..end]),
        window,
    })
}

fn end(rt: &impl Print, turn: Turn) -> io::Result<()> {
    match turn {
        Turn::Refused(refusal) => lines::refused(rt, refusal),
        _ => Ok(()),
    }
}
