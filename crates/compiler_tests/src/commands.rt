use crate::board::is_run_whole;
use crate::font::FONT;
use fixtures::{SOURCE, cubic_source};
use fontc_cli::{Report, Status, run, run_alone};
use outside_io::{MemConsole, MemFiles, OpenGate, SureConsole};
use refusal_codes::Rule;
use std::alloc::Global;
use std::test::Fail;

/// What the output holds before.
const BEFORE: &[u8] = b"as before";

/// Files with this source in `in` and something in `out`, whose calls handle at most 100 bytes.
fn files_with(alloc: Global, source: &[u8]) -> Result<MemFiles, Fail> {
    let mut files = MemFiles::with_room(alloc, 2, 2000)?;
    files.put(alloc, "in", source)?;
    files.put(alloc, "out", BEFORE)?;
    files.step(100);
    Ok(files)
}

/// These words as owned texts.
fn owned(alloc: Global, words: &[&str]) -> Result<Vec<String>, Fail> {
    let mut all = Vec::new(alloc);
    for word in words {
        all.push(String::from_str(alloc, word)?)?;
    }
    Ok(all)
}

/// What a build over these files reports.
fn report_of(alloc: Global, files: &mut MemFiles) -> Result<Report, Fail> {
    let words = owned(alloc, &["build", "in", "out"])?;
    let mut console = SureConsole::new();
    Ok(run_alone(alloc, words.as_slice(), files, &mut console))
}

/// How a run of these words ends.
fn status_of(alloc: Global, files: &mut MemFiles, words: &[&str]) -> Result<Status, Fail> {
    let words = owned(alloc, words)?;
    let mut console = SureConsole::new();
    Ok(run(alloc, words.as_slice(), files, &mut console, &OpenGate).status)
}

/// Whether a source is refused for this at this place, and leaves the output as it was.
fn is_refused(alloc: Global, source: &[u8], rule: Rule, place: u64) -> Result<bool, Fail> {
    let mut files = files_with(alloc, source)?;
    let is_named = match status_of(alloc, &mut files, &["build", "in", "out"])? {
        Status::Refused(refusal) => refusal.rule == rule && refusal.place == place,
        _ => false,
    };
    Ok(is_named && files.held("out") == Some(BEFORE) && files.held("in") == Some(source))
}

/// Whether a build of which this call fails ends with this exit status, and leaves this in the
/// output.
fn is_failed(alloc: Global, call: u64, code: u8, left: &[u8]) -> Result<bool, Fail> {
    let mut files = files_with(alloc, SOURCE)?;
    files.fail(alloc, call)?;
    let status = status_of(alloc, &mut files, &["build", "in", "out"])?;
    Ok(status.code() == code && files.held("out") == Some(left))
}

/// Whether these words are no command, and leave the output as it was.
fn is_usage(alloc: Global, words: &[&str]) -> Result<bool, Fail> {
    let mut files = files_with(alloc, SOURCE)?;
    let status = status_of(alloc, &mut files, words)?;
    Ok(status.code() == 1 && files.held("out") == Some(BEFORE))
}

#[test]
fn a_triangle_becomes_its_font(rt: HostRuntime) -> Result<(), Fail> {
    let font = hex::decode(rt.alloc(), FONT)?;
    let mut files = files_with(rt.alloc(), SOURCE)?;
    let status = status_of(rt.alloc(), &mut files, &["build", "in", "out"])?;
    assert!(rt; status.code() == 0 && files.held("in") == Some(SOURCE));
    assert!(rt; files.held("out") == Some(font.as_slice()));
    Ok(())
}

#[test]
fn a_font_may_take_the_place_of_its_source(rt: HostRuntime) -> Result<(), Fail> {
    let font = hex::decode(rt.alloc(), FONT)?;
    let mut files = files_with(rt.alloc(), SOURCE)?;
    let words = owned(rt.alloc(), &["build", "in", "in"])?;
    let mut console = SureConsole::new();
    let report = run_alone(rt.alloc(), words.as_slice(), &mut files, &mut console);
    assert!(rt; report.status.code() == 0 && files.held("in") == Some(font.as_slice()));
    Ok(())
}

#[test]
fn a_refused_source_leaves_the_output(rt: HostRuntime) -> Result<(), Fail> {
    assert!(rt; is_refused(rt.alloc(), b"", Rule::UnexpectedEnd, 0)?);
    assert!(rt; is_refused(rt.alloc(), &SOURCE[..257], Rule::UnexpectedEnd, 257)?);
    let cubic = cubic_source(rt.alloc())?;
    assert!(rt; is_refused(rt.alloc(), cubic.as_slice(), Rule::CubicNode, 181)?);
    Ok(())
}

#[test]
fn other_words_are_no_command(rt: HostRuntime) -> Result<(), Fail> {
    let words: [&[&str]; 10] = [
        &[],
        &["build", "in"],
        &["build", "in", "-out"],
        &["compile", "in", "out"],
        &["inspect", "point", "in", "1", "0"],
        &["inspect", "point", "in", "65536", "0", "none"],
        &["inspect", "point", "in", "1", "0", "1,"],
        &["sample", "7", "0", "out"],
        &["sample", "4294967296", "1", "out"],
        &["sample", "7", "1", "out", "--source", "--source"],
    ];
    for given in words {
        assert!(rt; is_usage(rt.alloc(), given)?);
    }
    Ok(())
}

#[test]
fn a_failed_read_or_begin_leaves_the_output(rt: HostRuntime) -> Result<(), Fail> {
    // Calls 1 to 4 read, call 5 begins the output, and calls 6 to 13 append to it.
    assert!(rt; is_failed(rt.alloc(), 3, 4, BEFORE)?);
    assert!(rt; is_failed(rt.alloc(), 5, 5, BEFORE)? || is_failed(rt.alloc(), 5, 5, b"")?);
    Ok(())
}

#[test]
fn a_failed_append_leaves_first_bytes(rt: HostRuntime) -> Result<(), Fail> {
    let mut font = hex::decode(rt.alloc(), FONT)?;
    assert!(rt; is_failed(rt.alloc(), 14, 0, font.as_slice())?);
    font.truncate(200);
    assert!(rt; is_failed(rt.alloc(), 8, 5, font.as_slice())?);
    Ok(())
}

/// Whether a build of the triangle over this console ends with this exit status, and leaves its
/// font whole.
fn is_built_with(alloc: Global, console: &mut MemConsole, code: u8) -> Result<bool, Fail> {
    let font = hex::decode(alloc, FONT)?;
    let mut files = files_with(alloc, SOURCE)?;
    let words = owned(alloc, &["build", "in", "out"])?;
    let report = run_alone(alloc, words.as_slice(), &mut files, console);
    Ok(report.status.code() == code && files.held("out") == Some(font.as_slice()))
}

#[test]
fn a_font_is_told_by_its_bytes(rt: HostRuntime) -> Result<(), Fail> {
    let mut console = MemConsole::with_room(rt.alloc(), 100)?;
    assert!(rt; is_built_with(rt.alloc(), &mut console, 0)?);
    assert!(rt; console.held() == b"wrote 728 bytes\n".as_slice());
    Ok(())
}

#[test]
fn a_console_that_fails_leaves_the_font(rt: HostRuntime) -> Result<(), Fail> {
    let mut console = MemConsole::with_room(rt.alloc(), 100)?;
    console.fail(rt.alloc(), 1)?;
    assert!(rt; is_built_with(rt.alloc(), &mut console, 6)? && console.held().is_empty());
    Ok(())
}

/// Whether a build is done, and reports the board on which the triangle was compiled.
fn is_done_with_board(report: &Report) -> bool {
    let is_over_source = match &report.board {
        Some(board) => board.plan().source() == SOURCE && is_run_whole(board),
        None => false,
    };
    matches!(&report.status, Status::Done) && is_over_source
}

/// Whether a source is refused, and no board is reported.
fn is_refused_without_board(report: &Report) -> bool {
    matches!(&report.status, Status::Refused(_)) && report.board.is_none()
}

#[test]
fn a_font_is_reported_with_its_board(rt: HostRuntime) -> Result<(), Fail> {
    let mut files = files_with(rt.alloc(), SOURCE)?;
    let report = report_of(rt.alloc(), &mut files)?;
    assert!(rt; is_done_with_board(&report));
    Ok(())
}

#[test]
fn a_refused_source_is_reported_without_a_board(rt: HostRuntime) -> Result<(), Fail> {
    let cubic = cubic_source(rt.alloc())?;
    let mut files = files_with(rt.alloc(), cubic.as_slice())?;
    let report = report_of(rt.alloc(), &mut files)?;
    assert!(rt; is_refused_without_board(&report));
    Ok(())
}

/// What inspecting a point of the triangle's font reports, and what the console took.
fn inspected(alloc: Global, index: &str, place: &str) -> Result<(Report, MemConsole), Fail> {
    let font = hex::decode(alloc, FONT)?;
    let mut files = files_with(alloc, font.as_slice())?;
    let words = owned(alloc, &["inspect", "point", "in", "1", index, place])?;
    let mut console = MemConsole::with_room(alloc, 100)?;
    let report = run_alone(alloc, words.as_slice(), &mut files, &mut console);
    Ok((report, console))
}

#[test]
fn a_point_is_told_and_reported_without_a_board(rt: HostRuntime) -> Result<(), Fail> {
    let (report, console) = inspected(rt.alloc(), "0", "none")?;
    assert!(rt; report.status.code() == 0 && report.board.is_none());
    assert!(rt; console.held() == b"16384000 45875200\n".as_slice());
    Ok(())
}

#[test]
fn a_fault_is_told_by_its_kind_and_place(rt: HostRuntime) -> Result<(), Fail> {
    let (report, console) = inspected(rt.alloc(), "7", "none")?;
    assert!(rt; report.status.code() == 3 && report.board.is_none());
    assert!(rt; console.held() == b"fontc: bad font: NoPoint at 7\n".as_slice());
    let (report, console) = inspected(rt.alloc(), "7", "0,16384")?;
    assert!(rt; report.status.code() == 3);
    assert!(rt; console.held() == b"fontc: bad font: CoordCount at 0\n".as_slice());
    Ok(())
}

/// What the sample of one glyph with the seed 7 reports, by these words, and what the console took.
fn sampled(
    alloc: Global,
    files: &mut MemFiles,
    words: &[&str],
) -> Result<(Report, MemConsole), Fail> {
    let words = owned(alloc, words)?;
    let mut console = MemConsole::with_room(alloc, 100)?;
    let report = run_alone(alloc, words.as_slice(), files, &mut console);
    Ok((report, console))
}

#[test]
fn the_text_of_a_sample_is_reported_without_a_board(rt: HostRuntime) -> Result<(), Fail> {
    let mut files = files_with(rt.alloc(), SOURCE)?;
    let words = ["sample", "7", "1", "out", "--source"];
    let (report, console) = sampled(rt.alloc(), &mut files, words.as_slice())?;
    assert!(rt; report.status.code() == 0 && report.board.is_none());
    assert!(rt; console.held() == b"sample 7 1: 441 bytes, 0 jobs\n".as_slice());
    assert!(rt; matches!(files.held("out"), Some(text) if text.len() == 441));
    Ok(())
}

/// Whether a report has a board of so many events, over what these files hold in `out`.
fn has_board(report: &Report, files: &MemFiles, events: usize) -> bool {
    match &report.board {
        Some(board) => board.events().len() == events
            && files.held("out") == Some(board.plan().source()),
        None => false,
    }
}

#[test]
fn the_font_of_a_sample_is_reported_with_the_board_of_its_text(
    rt: HostRuntime,
) -> Result<(), Fail> {
    let mut files = files_with(rt.alloc(), SOURCE)?;
    let words = ["sample", "7", "1", "out"];
    let (report, console) = sampled(rt.alloc(), &mut files, words.as_slice())?;
    assert!(rt; report.status.code() == 0);
    assert!(rt; console.held() == b"sample 7 1: 1084 bytes, 26 jobs\n".as_slice());
    let mut texts = files_with(rt.alloc(), SOURCE)?;
    let words = ["sample", "7", "1", "out", "--source"];
    sampled(rt.alloc(), &mut texts, words.as_slice())?;
    assert!(rt; has_board(&report, &texts, 52));
    Ok(())
}
