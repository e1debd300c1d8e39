//! The words of the command.
ghost use Rattle.std.specs.Prelude.{◌≡◌, ◌↔◌, map, codes, IfOk, IsTrue};
ghost use Rattle.clap.specs.Words.{app_of, first_value, found_of, kind_of};
ghost use Rattle.xr_run.specs.Words.{command as the_command, Parses, script_word as named_script};

use clap::error::ErrorKind;
use clap::{Arg, ArgMatches, Command, Error};
use std::alloc::{AllocError, Global};
use xr_types::{NoMemory, TextBytes};

/// Why the words give no matches.
#[derive(Clone, Copy, PartialEq, Eq)]
pub enum WordsFault {
    NotTaken,
    NoMemory,
}

fn is_memory(error: &Error) -> bool
    ensures { IsTrue result ↔ (kind_of error.now ≡ ErrorKind.OutOfMemory) }
{
    error.kind() == ErrorKind::OutOfMemory
}

fn command<'a>(alloc: Global) -> Result<Command<'a>, AllocError>
    ensures { IfOk result (λ c. app_of c ≡ the_command) }
{
    let script = Arg::new(alloc, "script");
    let bare = Command::new(alloc, "xrs")
        .disable_help_flag(true)
        .disable_version_flag(true);
    bare.arg(script)
}

// The words as `clap` is given them.
fn texts_of<'a>(alloc: Global, words: &'a [TextBytes]) -> Result<Vec<&'a str>, AllocError>
    ensures { IfOk result (λ texts. map (λ t. t.now) texts.items ≡ words.now) }
{
    let mut texts = Vec::new(alloc);
    for word in words {
        texts.push(word.as_str())?;
    }
    Ok(texts)
}

fn parsed<'a>(alloc: Global, words: &'a [&'a str]) -> Result<ArgMatches<'a>, WordsFault>
    ensures { Parses (map (λ t. t.now) words.now) result }
{
    let Ok(command) = command(alloc) else {
        return Err(WordsFault::NoMemory);
    };
    match command.try_get_matches_from(words) {
        Ok(matches) => Ok(matches),
        Err(error) => {
            if is_memory(&error) {
                Err(WordsFault::NoMemory)
            } else {
                Err(WordsFault::NotTaken)
            }
        }
    }
}

// The value of SCRIPT.
fn script_of(alloc: Global, matches: &ArgMatches<'_>) -> Result<Option<TextBytes>, NoMemory>
    ensures { IfOk result (λ script. script ≡ first_value (found_of matches.now) (codes "script")) }
{
    match matches.get_str("script") {
        Some(text) => match TextBytes::from_str(alloc, text) {
            Ok(name) => Ok(Some(name)),
            Err(_) => Err(NoMemory),
        },
        None => Ok(None),
    }
}

/// The script that the words name. Where they don't fit there is none.
pub(crate) fn script_word(alloc: Global, words: &[TextBytes]) -> Result<Option<TextBytes>, NoMemory>
    ensures { IfOk result (λ script. script ≡ named_script words.now) }
{
    let Ok(texts) = texts_of(alloc, words) else {
        return Err(NoMemory);
    };
    match parsed(alloc, &texts) {
        Ok(matches) => script_of(alloc, &matches),
        Err(WordsFault::NotTaken) => Ok(None),
        Err(WordsFault::NoMemory) => Err(NoMemory),
    }
}
