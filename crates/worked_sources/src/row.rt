use crate::ending::Left;
use crate::runs::run_in_memory;
use crate::source::Source;
use anyhow::{Context, Result, bail, ensure};
use std::alloc::Global;

/// The words of a row that names none.
const USUAL_WORDS: &str = "build in out";

/// A row: a source, a command, and how its run must end.
#[derive(Debug, Drop)]
pub struct Row<'a> {
    /// What the row shows.
    pub name: &'a str,
    pub source: Source,
    /// The words of the command, between spaces.
    pub words: &'a str,
    /// How many bytes each call to the files handles at most, where that is limited.
    pub step: Option<usize>,
    /// The call to the files that fails, where one does; they are counted from 1.
    pub fail: Option<u64>,
    /// How many bytes the console takes, where that is limited.
    pub console_room: Option<usize>,
    /// The write to the console that fails, where one does; they are counted from 1.
    pub print_fail: Option<u64>,
    /// Whether it is run over the files of the system too.
    pub is_real: bool,
    /// The exit status that is wanted.
    pub status: u8,
    /// What the console must have taken.
    pub printed: String,
    /// What the output must hold afterwards.
    pub left: Left<'a>,
    /// A text that a line `new` is to take the place of.
    old: Option<&'a str>,
}

impl<'a> Row<'a> {
    /// The row that these lines write. There is none where all of them are comments.
    pub fn read(rt: &HostRuntime, lines: &'a str) -> Result<Option<Row<'a>>> {
        let mut row = Row::new(rt.alloc());
        for line in lines.lines() {
            if !line.is_empty() && !line.starts_with('#') {
                row.read_line(rt, line)?;
            }
        }
        Ok(if row.name.is_empty() { None } else { Some(row) })
    }

    fn new(alloc: Global) -> Row<'a> {
        Row {
            name: "",
            source: Source::new(alloc),
            words: USUAL_WORDS,
            step: None,
            fail: None,
            console_room: None,
            print_fail: None,
            is_real: false,
            status: 0,
            printed: String::new(alloc),
            left: Left::AsBefore,
            old: None,
        }
    }

    /// Reads one line: a word, and behind a space what it is about.
    fn read_line(&mut self, rt: &HostRuntime, line: &'a str) -> Result<()> {
        let (word, rest) = line.split_once(' ').unwrap_or((line, ""));
        match word {
            "row" => self.name = rest,
            "words" => self.words = rest,
            "step" => self.step = Some(rest.parse::<usize>()?),
            "fail" => self.fail = Some(rest.parse::<u64>()?),
            "real" => self.is_real = true,
            "status" => self.status = rest.parse::<u8>()?,
            "refused" => self.want_refusal(rest)?,
            "prints" => self.want_line(rest)?,
            "begins" => self.printed.push_str(rest)?,
            "console" => self.console_room = Some(rest.parse::<usize>()?),
            "fail-print" => self.print_fail = Some(rest.parse::<u64>()?),
            "font" => self.left = Left::Font(rest),
            "bytes" => self.left = Left::Count(rest.parse::<usize>()?),
            "first" => self.want_first(rest)?,
            _ => self.read_source(rt, word, rest)?,
        }
        Ok(())
    }

    /// Reads a line on the source.
    fn read_source(&mut self, rt: &HostRuntime, word: &str, rest: &'a str) -> Result<()> {
        let alloc = rt.alloc();
        match word {
            "file" => self.source.push_file(rt, rest)?,
            "text" => self.source.push_text(rest)?,
            "hex" => self.source.push_hex(alloc, rest)?,
            "hexfile" => self.source.push_hex_file(rt, rest)?,
            "spaces" => self.source.push_spaces(alloc, rest.parse::<usize>()?)?,
            "times" => self.push_times(alloc, rest)?,
            "old" => self.old = Some(rest),
            "new" => self.replace(alloc, rest)?,
            "put" => self.put(alloc, rest)?,
            "cut" => self.source.cut(rest.parse::<usize>()?),
            "built" => self.build(alloc)?,
            _ => bail!("no line of a row begins with {word}"),
        }
        Ok(())
    }

    fn want_refusal(&mut self, line: &str) -> Result<()> {
        self.status = 2;
        self.want_line(line)
    }

    fn want_line(&mut self, line: &str) -> Result<()> {
        self.printed.push_str(line)?;
        self.printed.push_str("\n")?;
        Ok(())
    }

    fn want_first(&mut self, rest: &'a str) -> Result<()> {
        let (count, name) = counted(rest)?;
        self.left = Left::First(count as usize, name);
        Ok(())
    }

    fn push_times(&mut self, alloc: Global, rest: &str) -> Result<()> {
        let (count, text) = counted(rest)?;
        self.source.push_times(alloc, count, text)
    }

    fn put(&mut self, alloc: Global, rest: &str) -> Result<()> {
        let (place, digits) = counted(rest)?;
        self.source.put_hex(alloc, place as usize, digits)
    }

    /// Puts the font that the source so far makes in its place.
    fn build(&mut self, alloc: Global) -> Result<()> {
        let ended = run_in_memory(alloc, self)?;
        ensure!(ended.status == 0, "the source makes no font");
        self.source = Source::of(ended.output);
        Ok(())
    }

    fn replace(&mut self, alloc: Global, new: &str) -> Result<()> {
        let old = self.old.take().context("a line `new` without `old`")?;
        self.source.replace(alloc, old, new)
    }
}

/// A count and the text behind it.
fn counted(rest: &str) -> Result<(u64, &str)> {
    let (count, text) = rest
        .split_once(' ')
        .context("a count and a text are wanted")?;
    Ok((count.parse::<u64>()?, text))
}
