//! Values of options that `clap` takes, but that are wrong.
ghost use Rattle.std.specs.Prelude.{◌≡◌, MatchResult};
ghost use Rattle.std.specs.Char.{is_ascii_digit};
ghost use Rattle.std.specs.List.{list_all};
ghost use Rattle.std.specs.Str.{all_ascii_digits};
ghost use Rattle.clap.specs.Words.{found_of, rows_of, subcommand_rows_of};
ghost use Rattle.hpb_words.specs.Words.{AreWellGiven, AreWellGivenIn, IsGivenByDigits};

use crate::words::{BATCH, EVERY, FILE, JOURNAL, LAYOUT, PORT, SESSIONS};
use clap::ArgMatches;
use thiserror::Error;

/// The fault of an option's value, with the option.
#[derive(Clone, Copy, Debug, Error)]
pub(crate) enum ValueFault<'a> {
    /// The name of a file is empty.
    #[error("error: invalid value '' for '--file <F>': a file's name has a character at least\n\nFor more information, try '--help'.\n")]
    NoName,
    /// A number has a sign.
    #[error("error: invalid value '{text}' for '{option}': a number is given by digits alone\n\nFor more information, try '--help'.\n")]
    Sign { text: &'a str, option: &'static str },
}

/// Judges the values that the words give their command. Refused: an empty file name, and a number that isn't digits
/// alone.
pub(crate) fn check_values<'a>(matches: &ArgMatches<'a>) -> Result<(), ValueFault<'a>>
    ensures { MatchResult result (λ _. AreWellGiven (subcommand_rows_of matches.now)) (λ _. AreWellGiven (subcommand_rows_of matches.now) → ⊥) }
{
    match matches.subcommand() {
        None => Ok(()),
        Some((_, options)) => check_options(options),
    }
}

fn check_options<'a>(options: &ArgMatches<'a>) -> Result<(), ValueFault<'a>>
    ensures { MatchResult result (λ _. AreWellGivenIn (rows_of (found_of options.now))) (λ _. AreWellGivenIn (rows_of (found_of options.now)) → ⊥) }
{
    if options.get_str(FILE).unwrap_or("").is_empty() {
        return Err(ValueFault::NoName);
    }
    check_number(options, JOURNAL, "--journal <J>")?;
    check_number(options, LAYOUT, "--layout <L>")?;
    check_number(options, BATCH, "--batch <N>")?;
    check_number(options, EVERY, "--every <K>")?;
    check_number(options, PORT, "--port <P>")?;
    check_number(options, SESSIONS, "--sessions <N>")
}

/// Refuses a number with a sign, which `clap` takes.
fn check_number<'a>(
    options: &ArgMatches<'a>,
    name: &str,
    option: &'static str,
) -> Result<(), ValueFault<'a>>
    ensures { MatchResult result (λ _. IsGivenByDigits (rows_of (found_of options.now)) name.now) (λ _. IsGivenByDigits (rows_of (found_of options.now)) name.now → ⊥) }
{
    match options.get_str(name) {
        None => Ok(()),
        Some(text) => {
            if has_digits_alone(text) {
                Ok(())
            } else {
                Err(ValueFault::Sign { text, option })
            }
        }
    }
}

fn has_digits_alone(text: &str) -> bool
    ensures { result ≡ all_ascii_digits text.now }
{
    are_digits(text.as_bytes())
}

fn are_digits(bytes: &[u8]) -> bool
    ensures { result ≡ list_all is_ascii_digit bytes.now }
{
    bytes.iter().all(|byte| byte.is_ascii_digit())
}
