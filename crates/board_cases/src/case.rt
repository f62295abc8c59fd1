// Running a script on a board of its own.

use crate::cases::Case;
use anyhow::anyhow;
use board_sources::calendars::calendars;
use board_sources::zones::zones;
use mark_text::mark::Mark;
use planboard::board::Board;
use script::run::{room_for, run_script};
use std::{fs, io};
use timebase::span::Span;

// As many marks and as many spans as `board` has.
const SLOTS: usize = 32;

// The bytes of a zone file of a pair; none where there is no such file, as `board` takes it.
fn zone_file(rt: &HostRuntime, pair: &str, site: &str) -> anyhow::Result<Vec<u8>> {
    let path = format!(in rt.alloc(); "{pair}-{site}.tzif")?;
    match fs::read(rt, path) {
        Ok(bytes) => Ok(bytes),
        Err(error) if error.kind() == io::ErrorKind::NotFound => Ok(Vec::new(rt.alloc())),
        Err(error) => Err(error.into()),
    }
}

// What is answered to a script over its two zone files.
pub(crate) fn answers_to(rt: &HostRuntime, case: Case) -> anyhow::Result<Vec<u8>> {
    let Case { name, pair } = case;
    let input = fs::read(rt, format!(in rt.alloc(); "{name}.script")?)?;
    let one = zone_file(rt, pair, "one")?;
    let two = zone_file(rt, pair, "two")?;
    let zones = zones(&one, &two);
    let calendars = calendars();
    let mut marks: [Option<Mark>; SLOTS] = [None; SLOTS];
    let mut spans: [Option<Span>; SLOTS] = [None; SLOTS];
    let mut board = Board::new(&zones, &calendars, &mut marks, &mut spans);
    let mut out = vec![in rt.alloc(); 0u8; room_for(&board, &input)]?;
    let Ok(written) = run_script(&mut board, &input, &mut out) else {
        return Err(anyhow!("no room for the answers"));
    };
    out.truncate(written);
    Ok(out)
}
