//! The commands, as clap is told of them. Which words are numbers or paths isn't told: clap takes
//! `+7` and `0000000000007` for numbers too.
ghost use Rattle.std.specs.Prelude.{◌≡◌, IfOk, false};
ghost use Rattle.clap.specs.Words.{app_of, rule_of};
ghost use Rattle.clap.specs.declared.builder.command.Command.TheViews.{out-Command};
ghost use Rattle.command_words.specs.Grammar.{word_rule, option_rule, build_app, inspect_app};
ghost use Rattle.command_words.specs.Grammar.{inspect_font_app, sample_app, program_app, fontc_app};

use clap::{Arg, ArgAction, Command};
use std::alloc::{AllocError, Global};

/// The name of each word of a command that has to be given.
pub const IN: &str = "IN";

pub const OUT: &str = "OUT";

pub const KIND: &str = "KIND";

pub const FONT: &str = "FONT";

pub const GID: &str = "GID";

pub const INDEX: &str = "INDEX";

pub const COORDS: &str = "COORDS";

pub const SEED: &str = "SEED";

pub const GLYPHS: &str = "GLYPHS";

/// The name of the option by which the text of a sample is written, and not its font.
pub const SOURCE: &str = "source";

/// All commands.
pub fn fontc<'a>(alloc: Global) -> Result<Command<'a>, AllocError>
    ensures { IfOk result (λ command. app_of command ≡ fontc_app) }
{
    program(alloc)
        .subcommand(build(alloc)?)?
        .subcommand(inspect(alloc)?)?
        .subcommand(sample(alloc)?)
}

/// The program, whose own name is no word of a command.
fn program<'a>(alloc: Global) -> Command<'a>
    ensures { app_of result ≡ program_app }
{
    Command::new(alloc, "fontc")
        .no_binary_name(true)
        .disable_help_flag(true)
        .disable_help_subcommand(true)
        .subcommand_required(true)
}

/// `build IN OUT`
fn build<'a>(alloc: Global) -> Result<Command<'a>, AllocError>
    ensures app { IfOk result (λ command. app_of command ≡ build_app) }
    ensures local { IfOk result (λ command. (out-Command command).has_globals ≡ false) }
{
    Command::new(alloc, "build")
        .arg(word(alloc, IN))?
        .arg(word(alloc, OUT))
}

/// `inspect KIND FONT GID INDEX COORDS`
fn inspect<'a>(alloc: Global) -> Result<Command<'a>, AllocError>
    ensures app { IfOk result (λ command. app_of command ≡ inspect_app) }
    ensures local { IfOk result (λ command. (out-Command command).has_globals ≡ false) }
{
    inspect_font(alloc)?
        .arg(word(alloc, GID))?
        .arg(word(alloc, INDEX))?
        .arg(word(alloc, COORDS))
}

/// The first words of `inspect KIND FONT GID INDEX COORDS`
fn inspect_font<'a>(alloc: Global) -> Result<Command<'a>, AllocError>
    ensures app { IfOk result (λ command. app_of command ≡ inspect_font_app) }
    ensures local { IfOk result (λ command. (out-Command command).has_globals ≡ false) }
{
    Command::new(alloc, "inspect")
        .arg(word(alloc, KIND))?
        .arg(word(alloc, FONT))
}

/// `sample SEED GLYPHS OUT [--source]`
fn sample<'a>(alloc: Global) -> Result<Command<'a>, AllocError>
    ensures app { IfOk result (λ command. app_of command ≡ sample_app) }
    ensures local { IfOk result (λ command. (out-Command command).has_globals ≡ false) }
{
    Command::new(alloc, "sample")
        .arg(word(alloc, SEED))?
        .arg(word(alloc, GLYPHS))?
        .arg(word(alloc, OUT))?
        .arg(source_option(alloc))
}

/// A word that has to be given, in its place.
fn word<'a>(alloc: Global, name: &'a str) -> Arg<'a>
    ensures rule { rule_of result ≡ word_rule name.entry.now }
    ensures local { result.global ≡ false }
{
    Arg::new(alloc, name).required(true)
}

/// `--source`, which may be given once.
fn source_option<'a>(alloc: Global) -> Arg<'a>
    ensures rule { rule_of result ≡ option_rule }
    ensures local { result.global ≡ false }
{
    Arg::new(alloc, SOURCE)
        .long(SOURCE)
        .action(ArgAction::SetTrue)
}
