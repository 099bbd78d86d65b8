ghost use Rattle.std.specs.Prelude.{◌≡◌, true, map, IfOk, IfSome};
ghost use Rattle.std.specs.List.{list_all};
ghost use Rattle.std.specs.Option.{option_map};
ghost use Rattle.std.specs.String.{string_bytes};
ghost use Rattle.command_words.specs.Commands.{command_of};
ghost use Rattle.command_words.specs.Grammar.{may_be_given};
ghost use Rattle.command_words.specs.Shown.{shown_command, IsRunnable};

use crate::command::Command;
use crate::grammar::fontc;
use crate::matched::command_in;
use crate::numbers::is_path;
use clap::error::ErrorKind;
use refusal_codes::NoMemory;
use std::alloc::Global;

/// The option by which the text of a sample is written, and not its font.
const SOURCE_OPTION: &str = "--source";

/// The command that the words are, where they are one.
///
/// # Errors
///
/// `NoMemory` alone, where memory ran out.
pub fn read_command(alloc: Global, words: &[String]) -> Result<Option<Command<'_>>, NoMemory>
    ensures command { IfOk result (λ command. option_map shown_command command
        ≡ command_of (map string_bytes words.now)) }
    ensures runnable { IfOk result (λ command. IfSome command IsRunnable) }
{
    if may_be_given(words) {
        read_given(alloc, words)
    } else {
        Ok(None)
    }
}

/// Whether each word is a path or the option. clap is given no others: it would take `-` for a
/// word of a command, and `--` for the end of the options.
fn may_be_given(words: &[String]) -> bool
    ensures { result ≡ list_all may_be_given (map string_bytes words.now) }
{
    words.iter().all(|word| { is_path(word.as_str()) || word.as_str() == SOURCE_OPTION })
}

/// The command that such words are, as clap reads them.
fn read_given(alloc: Global, words: &[String]) -> Result<Option<Command<'_>>, NoMemory>
    requires { list_all may_be_given (map string_bytes words.now) ≡ true }
    ensures command { IfOk result (λ command. option_map shown_command command
        ≡ command_of (map string_bytes words.now)) }
    ensures runnable { IfOk result (λ command. IfSome command IsRunnable) }
{
    match fontc(alloc)?.try_get_matches_from(words) {
        Ok(matches) => Ok(command_in(&matches)),
        Err(error) => match error.kind() {
            ErrorKind::OutOfMemory => Err(NoMemory),
            _ => Ok(None),
        },
    }
}
