//! The command of what clap has found.
ghost use Rattle.std.specs.Prelude.{◌≡◌, ◌≤◌, IfSome, codes};
ghost use Rattle.std.specs.Option.{option_map};
ghost use Rattle.clap.specs.Words.{found_of, rows_of, first_of, subcommand_rows_of};
ghost use Rattle.command_words.specs.Commands.{build_of, inspect_of, inspect_with};
ghost use Rattle.command_words.specs.Commands.{sample_of, sample_with};
ghost use Rattle.command_words.specs.Matched.{command_in, command_named, build_in, inspect_in};
ghost use Rattle.command_words.specs.Matched.{sample_in, has_option};
ghost use Rattle.command_words.specs.Shown.{shown_command, IsRunnable};

use crate::command::{BuildCommand, Command, InspectCommand, SampleCommand};
use crate::grammar::{COORDS, FONT, GID, GLYPHS, IN, INDEX, KIND, OUT, SEED, SOURCE};
use crate::numbers::{glyph_count, is_path, is_place, number, seed};
use clap::ArgMatches;

/// The command of all that was found, where there is one.
pub fn command_in<'a>(matches: &ArgMatches<'a>) -> Option<Command<'a>>
    ensures command { option_map shown_command result
        ≡ command_in (subcommand_rows_of matches.now) }
    ensures runnable { IfSome result IsRunnable }
{
    match matches.subcommand() {
        Some((name, found)) => command_named(name, found),
        None => None,
    }
}

/// The command of this name, of what was found behind its name.
fn command_named<'a>(name: &str, found: &ArgMatches<'a>) -> Option<Command<'a>>
    ensures command { option_map shown_command result
        ≡ command_named name.now (rows_of (found_of found.now)) }
    ensures runnable { IfSome result IsRunnable }
{
    match name {
        "build" => build_in(found),
        "inspect" => inspect_in(found),
        "sample" => sample_in(found),
        _ => None,
    }
}

/// `build IN OUT`
fn build_in<'a>(found: &ArgMatches<'a>) -> Option<Command<'a>>
    ensures command { option_map shown_command result ≡ build_in (rows_of (found_of found.now)) }
    ensures runnable { IfSome result IsRunnable }
{
    let source = text_in(found, IN)?;
    let output = text_in(found, OUT)?;
    build_command(source, output)
}

/// `inspect KIND FONT GID INDEX COORDS`
fn inspect_in<'a>(found: &ArgMatches<'a>) -> Option<Command<'a>>
    ensures command { option_map shown_command result ≡ inspect_in (rows_of (found_of found.now)) }
    ensures runnable { IfSome result IsRunnable }
{
    let kind = text_in(found, KIND)?;
    let font = text_in(found, FONT)?;
    let glyph = text_in(found, GID)?;
    let index = text_in(found, INDEX)?;
    let place = text_in(found, COORDS)?;
    inspect_command(kind, font, glyph, index, place)
}

/// `sample SEED GLYPHS OUT [--source]`
fn sample_in<'a>(found: &ArgMatches<'a>) -> Option<Command<'a>>
    ensures command { option_map shown_command result ≡ sample_in (rows_of (found_of found.now)) }
    ensures runnable { IfSome result IsRunnable }
{
    let seed = text_in(found, SEED)?;
    let glyphs = text_in(found, GLYPHS)?;
    let output = text_in(found, OUT)?;
    sample_command(has_option(found), seed, glyphs, output)
}

/// The first text that was found under a name.
fn text_in<'a>(found: &ArgMatches<'a>, name: &str) -> Option<&'a str>
    ensures { option_map (λ text. text.now) result
        ≡ first_of name.now (rows_of (found_of found.now)) }
{
    found.get_str(name)
}

/// Whether the option of a sample was found.
fn has_option(found: &ArgMatches<'_>) -> bool
    ensures { result ≡ has_option (rows_of (found_of found.now)) }
{
    match text_in(found, SOURCE) {
        Some(text) => text == "true",
        None => false,
    }
}

/// The command of two paths, where they are some.
#[tactic(auto, unfolding(crate::specs::Commands::build_of))]
fn build_command<'a>(source: &'a str, output: &'a str) -> Option<Command<'a>>
    ensures command { option_map shown_command result
        ≡ build_of (codes "build") source.entry.now output.entry.now }
    ensures runnable { IfSome result IsRunnable }
{
    if is_path(source) && is_path(output) {
        Some(Command::Build(BuildCommand { source, output }))
    } else {
        None
    }
}

/// The command of what is inspected, a path, two numbers and a place, where they are some.
#[tactic(auto, unfolding(crate::specs::Commands::inspect_of))]
fn inspect_command<'a>(
    kind: &str,
    font: &'a str,
    glyph: &str,
    index: &str,
    place: &'a str,
) -> Option<Command<'a>>
    ensures command { option_map shown_command result ≡ inspect_of (codes "inspect") kind.now
        font.entry.now glyph.now index.now place.entry.now }
    ensures runnable { IfSome result IsRunnable }
{
    if kind == "point" && is_path(font) {
        inspect_numbers(font, number(glyph), number(index), place)
    } else {
        None
    }
}

/// The command of a font's path, of two numbers where they are some, and of a word for the place.
fn inspect_numbers<'a>(
    font: &'a str,
    glyph: Option<u16>,
    index: Option<u16>,
    place: &'a str,
) -> Option<Command<'a>>
    ensures command { option_map shown_command result
        ≡ inspect_with font.entry.now glyph index place.entry.now }
    ensures runnable { IfSome result IsRunnable }
{
    match (glyph, index) {
        (Some(glyph), Some(index)) => {
            if is_place(place) {
                Some(Command::Inspect(InspectCommand {
                    font,
                    glyph,
                    index,
                    place,
                }))
            } else {
                None
            }
        }
        _ => None,
    }
}

/// The command of two numbers and a path, where they are some, with the option or without it.
#[tactic(auto, unfolding(crate::specs::Commands::sample_of))]
fn sample_command<'a>(
    writes_text: bool,
    seed_word: &str,
    glyphs_word: &str,
    output: &'a str,
) -> Option<Command<'a>>
    ensures command { option_map shown_command result ≡ sample_of writes_text (codes "sample")
        seed_word.now glyphs_word.now output.entry.now }
    ensures runnable { IfSome result IsRunnable }
{
    sample_numbers(
        writes_text,
        seed(seed_word),
        glyph_count(glyphs_word),
        output,
    )
}

/// The command of two numbers where they are some, and of a path.
fn sample_numbers<'a>(
    writes_text: bool,
    seed: Option<u32>,
    glyphs: Option<u32>,
    output: &'a str,
) -> Option<Command<'a>>
    requires { IfSome glyphs (λ count. (1 ≤ count) × (count ≤ 60000)) }
    ensures command { option_map shown_command result
        ≡ sample_with writes_text seed glyphs output.entry.now }
    ensures runnable { IfSome result IsRunnable }
{
    match (seed, glyphs) {
        (Some(seed), Some(glyphs)) => {
            if is_path(output) {
                Some(Command::Sample(SampleCommand {
                    seed,
                    glyphs,
                    output,
                    writes_text,
                }))
            } else {
                None
            }
        }
        _ => None,
    }
}
