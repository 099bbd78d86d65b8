use anyhow::{Result, bail};
use outside_io::{Console, RealConsole};
use std::process::ExitCode;

/// The table of rows that were run, printed line by line through fontc's own console.
#[derive(Drop)]
pub struct Table<'a> {
    console: RealConsole<'a, HostRuntime>,
    passed: u64,
    differing: u64,
}

impl<'a> Table<'a> {
    /// A table without rows.
    pub fn new(rt: &'a HostRuntime) -> Table<'a> {
        Table {
            console: RealConsole::new(rt),
            passed: 0,
            differing: 0,
        }
    }

    /// Adds a row, by its name and how its run ended, with what differs where anything does.
    pub fn add(
        &mut self,
        rt: &HostRuntime,
        name: &str,
        ended: &str,
        difference: Option<&str>,
    ) -> Result<()> {
        let line = match difference {
            None => {
                self.passed = self.passed.saturating_add(1);
                format!(in rt.alloc(); "{name}: {ended}\n")?
            }
            Some(difference) => {
                self.differing = self.differing.saturating_add(1);
                format!(in rt.alloc(); "DIFFERS {name}: {difference}\n")?
            }
        };
        self.print(line.as_str())
    }

    /// Ends the table with its counts, and answers the program's exit status.
    pub fn end(mut self, rt: &HostRuntime) -> Result<ExitCode> {
        let passed = self.passed;
        let differing = self.differing;
        let line = format!(in rt.alloc(); "{passed} passed, {differing} differ\n")?;
        self.print(line.as_str())?;
        Ok(if differing == 0 {
            ExitCode::SUCCESS
        } else {
            ExitCode::FAILURE
        })
    }

    /// Prints a text whole. Each write takes at least one byte.
    fn print(&mut self, text: &str) -> Result<()> {
        let mut rest = text.as_bytes();
        for _ in 0..text.len() {
            if rest.is_empty() {
                break;
            }
            match self.console.write(rest) {
                Ok(count) => rest = &rest[count..],
                Err(_) => bail!("the console takes nothing"),
            }
        }
        Ok(())
    }
}
