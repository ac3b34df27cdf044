//! The words of the command line.
ghost use Rattle.std.specs.Prelude.{ℕ, ◌≡◌, ◌↔◌, ◌<◌, ◌^◌, Some, codes, map, option_map, string_bytes};
ghost use Rattle.std.specs.Fmt.{decimal};
ghost use Rattle.qc_run.specs.Commands.{asked_by, choice_by, chosen_in};
ghost use Rattle.qc_run.specs.Options as found;
ghost use Rattle.qc_run.specs.Words as line;

use crate::finishing::Form;
use itoa::Buffer;
use qc_interp::Mode;

/// What the words of the command line ask for: to run the script that the source holds, over the disks of a place and
/// in this mode, and to write this of it; to run one that is made of a number; or to audit the trail that the source
/// holds.
#[derive(Clone, Copy)]
pub(crate) enum Command<'w> {
    Run {
        place: &'w str,
        mode: Mode,
        form: Form,
    },
    Gen {
        number: u64,
    },
    Audit,
}

/// What an option behind `run` chooses.
#[derive(Clone, Copy)]
pub(crate) enum Choice<'w> {
    Serial,
    Trail,
    Dir(&'w str),
}

/// What the options behind `run` choose.
#[derive(Clone, Copy)]
pub(crate) struct Options<'w> {
    serial: bool,
    trail: bool,
    place: Option<&'w str>,
}

// The place that a word names.
fn named(word: &str) -> Option<&str>
    ensures { option_map (λ place. place.now) result ≡ found.named word.now }
{
    match word.as_bytes() {
        [] | [b'-', ..] => None,
        _ => Some(word),
    }
}

// What stands behind `--dir=`.
fn behind(word: &str) -> Option<&str>
    ensures { option_map (λ place. place.now) result ≡ found.behind (codes "--dir=") word.now }
{
    word.strip_prefix("--dir=")
}

// The place that one word alone names.
fn joined(word: &str) -> Option<&str>
    ensures { option_map (λ place. place.now) result ≡ found.joined word.now }
{
    named(behind(word)?)
}

// The choice that one word makes alone.
fn choice_in(word: &str) -> Option<Choice<'_>>
    ensures { option_map choice_by result ≡ found.choice_in word.now }
{
    match word {
        "--serial" => Some(Choice::Serial),
        "--trail" => Some(Choice::Trail),
        _ => Some(Choice::Dir(joined(word)?)),
    }
}

impl<'w> Options<'w> {
    // With a choice, where none of its kind was made.
    fn with(self, choice: Choice<'w>) -> Option<Self>
        ensures { option_map chosen_in result
            ≡ found.with_choice (chosen_in self.entry) (Some (choice_by choice.entry)) }
    {
        match choice {
            Choice::Serial if !self.serial => Some(Options {
                serial: true,
                ..self
            }),
            Choice::Trail if !self.trail => Some(Options {
                trail: true,
                ..self
            }),
            Choice::Dir(place) if self.place.is_none() => Some(Options {
                place: Some(place),
                ..self
            }),
            _ => None,
        }
    }

    // With the place that stands behind `--dir`.
    fn at(self, word: &'w str) -> Option<Self>
        ensures { option_map chosen_in result ≡ found.with_choice (chosen_in self.entry)
            (option_map (λ place. line.Choice.at place) (found.named word.now)) }
    {
        self.with(Choice::Dir(named(word)?))
    }

    // With the choice of a word that makes one alone.
    fn and(self, word: &'w str) -> Option<Self>
        ensures { option_map chosen_in result
            ≡ found.with_choice (chosen_in self.entry) (found.choice_in word.now) }
    {
        self.with(choice_in(word)?)
    }
}

// What words choose beside what was chosen, and whether the word before them was `--dir`.
fn options_in<'w>(words: &'w [String], after_dir: bool, options: Options<'w>) -> Option<Options<'w>>
    ensures { option_map chosen_in result ≡ found.chosen_by after_dir
        (Some (chosen_in options.entry)) (map string_bytes words.now) }
{
    match words {
        [] if after_dir => None,
        [] => Some(options),
        [word, rest @ ..] if after_dir => options_in(rest, false, options.at(word.as_str())?),
        [word, rest @ ..] if word.as_str() == "--dir" => options_in(rest, true, options),
        [word, rest @ ..] => options_in(rest, false, options.and(word.as_str())?),
    }
}

// What is chosen behind `run`.
fn run_options(words: &[String]) -> Option<Options<'_>>
    ensures { option_map chosen_in result ≡ found.run_choices (map string_bytes words.now) }
{
    match words {
        [word, options @ ..] if word.as_str() == "run" => options_in(
            options,
            false,
            Options {
                serial: false,
                trail: false,
                place: None,
            },
        ),
        _ => None,
    }
}

// What is chosen behind `run`: in any order and each at most once `--serial`, `--trail`, and a place, which is named by
// `--dir` and it, or by `--dir=` with it behind.
fn options_of_run(words: &[String]) -> Option<Options<'_>>
    ensures { (chosen : line.Chosen) → (option_map chosen_in result ≡ Some chosen)
        ↔ line.IsRunAs (map string_bytes words.now) chosen }
{
    run_options(words)
}

fn mode_by(serial: bool) -> Mode
    ensures { result ≡ line.mode_by serial }
{
    if serial { Mode::Serial } else { Mode::Threads }
}

fn form_by(trail: bool) -> Form
    ensures { result ≡ line.form_by trail }
{
    if trail { Form::Trail } else { Form::Report }
}

// What is asked for with these options.
fn run_with(options: Options<'_>) -> Command<'_>
    ensures { asked_by result ≡ line.asked_as (chosen_in options.entry) }
{
    Command::Run {
        place: options.place.unwrap_or(""),
        mode: mode_by(options.serial),
        form: form_by(options.trail),
    }
}

// The number that a word spells in decimal digits, as a number is written.
fn number_in(word: &str) -> Option<u64>
    ensures { (n : ℕ) → (result ≡ Some n) ↔ ((n < 2 ^ 64) × (word.now ≡ decimal n)) }
{
    let Ok(number) = word.parse::<u64>() else {
        return None;
    };
    let mut buffer = Buffer::new();
    if buffer.format(number) == word {
        Some(number)
    } else {
        None
    }
}

// The word behind `gen`, where it is the only one.
fn behind_gen(words: &[String]) -> Option<&str>
    ensures { option_map (λ word. word.now) result
        ≡ found.behind_gen (map string_bytes words.now) }
{
    match words {
        [word, number] if word.as_str() == "gen" => Some(number.as_str()),
        _ => None,
    }
}

// The number of which these words have a script made.
fn number_of_gen(words: &[String]) -> Option<u64>
    ensures { (n : ℕ) → (result ≡ Some n) ↔ line.IsGenOf (map string_bytes words.now) n }
{
    number_in(behind_gen(words)?)
}

// Whether they have a saved trail audited.
fn is_audit(words: &[String]) -> bool
    ensures { result ≡ found.is_audit (map string_bytes words.now) }
{
    match words {
        [word] => word.as_str() == "audit",
        _ => false,
    }
}

/// The command that these words are.
pub(crate) fn command_of(words: &[String]) -> Option<Command<'_>>
    ensures { (asked : line.Asked) → (option_map asked_by result ≡ Some asked)
        ↔ line.IsCommand (map string_bytes words.now) asked }
{
    if is_audit(words) {
        return Some(Command::Audit);
    }
    if let Some(number) = number_of_gen(words) {
        return Some(Command::Gen { number });
    }
    Some(run_with(options_of_run(words)?))
}
