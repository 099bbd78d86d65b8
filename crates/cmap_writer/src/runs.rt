ghost use Rattle.std.specs.Prelude.{◌≡◌, ◌+◌, ◌<◌, ◌≤◌, [], ◌++◌, length, take, filter, IfOk};
ghost use Rattle.std.specs.List.{All, AllPairs};
ghost use Rattle.cmap_writer.specs.Runs as spec;

use refusal_codes::NoMemory;
use std::alloc::Global;

/// The last code that a subtable of format 4 has a segment for, but for the one that ends it.
const LAST_SHORT_CODE: u32 = 65534;

/// Codes that follow each other, of which the glyph numbers do too.
#[derive(Clone, Copy, Debug, PartialEq, Eq)]
pub struct Run {
    /// The first code.
    pub first: u32,
    /// The glyph number of the first code.
    pub glyph: u16,
    /// How many codes come after the first.
    pub more: u32,
}

/// The run of one code and its glyph number.
fn run_of(code: (u32, u16)) -> Run
    ensures { result ≡ spec.run_of code }
{
    Run {
        first: code.0,
        glyph: code.1,
        more: 0,
    }
}

/// Whether a code and its glyph number come next after a run.
fn continues(run: Run, code: (u32, u16)) -> bool
    requires { run.first + run.more ≤ 1114111 }
    ensures { result ≡ spec.continues run (spec.run_of code) }
{
    code.0 == run.first + run.more + 1 && u32::from(code.1) == u32::from(run.glyph) + run.more + 1
}

/// The longest runs of a run and the codes after it.
fn runs_after(alloc: Global, first: Run, codes: &[(u32, u16)]) -> Result<Vec<Run>, NoMemory>
    requires first { first.first + first.more ≤ 1114111 }
    requires codes { All (λ code. code.0 ≤ 1114111) codes.now }
    ensures { IfOk result (λ runs. runs.items ≡ spec.joined first (spec.longest_runs codes.now)) }
{
    let mut runs = Vec::new(alloc);
    let mut run = first;
    for code in codes {
        if continues(run, *code) {
            run.more += 1;
        } else {
            runs.push(run)?;
            run = run_of(*code);
        }
    }
    runs.push(run)?;
    Ok(runs)
}

/// The longest runs of some codes with their glyph numbers. The codes rise.
pub fn longest_runs(alloc: Global, codes: &[(u32, u16)]) -> Result<Vec<Run>, NoMemory>
    requires { All (λ code. code.0 ≤ 1114111) codes.now }
    ensures { IfOk result (λ runs. runs.items ≡ spec.longest_runs codes.now) }
{
    if codes.is_empty() {
        return Ok(Vec::new(alloc));
    }
    runs_after(alloc, run_of(codes[0]), &codes[1..])
}

/// The codes that a subtable of format 4 holds: those up to 65534.
pub fn short_codes(codes: &[(u32, u16)]) -> &[(u32, u16)]
    requires { AllPairs (λ a b. a.0 < b.0) codes.now }
    ensures { result.now ≡ spec.short_codes codes.now }
{
    let count = codes.partition_point(|code| code.0 <= LAST_SHORT_CODE);
    &codes[..count]
}
