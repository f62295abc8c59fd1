// The batch program: runs the script that stands on standard input over 32 marks and 32 spans, and prints what is answered.
// Site/One and Site/Two view the files zone1.tzif and zone2.tzif of the current folder.
#![tactic(auto)]

use anyhow::anyhow;
use board_sources::calendars::calendars;
use board_sources::zones::zones;
use mark_text::mark::Mark;
use planboard::board::Board;
use script::run::{SCRIPT_LIMIT, room_for, run_script};
use std::fs::File;
use std::io;
use std::io::{Read, Write};
use timebase::span::Span;

const SLOTS: usize = 32;

// The most bytes that are read of a zone file: one past its limit tells that it is too long.
const FILE_READ: u64 = 65_537;

fn read_start(rt: &HostRuntime, name: &str) -> io::Result<Vec<u8>> {
    let mut bytes = Vec::new(rt.alloc());
    File::open(rt, name)?
        .take(FILE_READ)
        .read_to_end(&mut bytes)?;
    Ok(bytes)
}

// The bytes of a zone file. One that is missing or can't be read has none, and so is a bad file; but where memory runs out, nothing
// is known of the file.
fn zone_file(rt: &HostRuntime, name: &str) -> io::Result<Vec<u8>> {
    match read_start(rt, name) {
        Err(error) if error.kind() == io::ErrorKind::OutOfMemory => Err(error),
        Err(_) => Ok(Vec::new(rt.alloc())),
        read => read,
    }
}

// The bytes of standard input that count.
fn read_script(rt: &HostRuntime) -> io::Result<Vec<u8>> {
    let mut input = Vec::new(rt.alloc());
    // u64 has no From<usize>
    rt.stdin()
        .take(SCRIPT_LIMIT as u64)
        .read_to_end(&mut input)?;
    Ok(input)
}

fn main(rt: HostRuntime) -> anyhow::Result<()> {
    let input = read_script(&rt)?;
    let one = zone_file(&rt, "zone1.tzif")?;
    let two = zone_file(&rt, "zone2.tzif")?;
    let zones = zones(&one, &two);
    let calendars = calendars();
    let mut marks: [Option<Mark>; SLOTS] = [None; SLOTS];
    let mut spans: [Option<Span>; SLOTS] = [None; SLOTS];
    let mut board = Board::new(&zones, &calendars, &mut marks, &mut spans);
    let mut out = vec![in rt.alloc(); 0u8; room_for(&board, &input)]?;
    // The buffer has the room that is asked for, so the script is never refused as a whole.
    let Ok(written) = run_script(&mut board, &input, &mut out) else {
        return Err(anyhow!("no room for the answers"));
    };
    out.truncate(written);
    rt.stdout().write_all(&out)?;
    Ok(())
}
