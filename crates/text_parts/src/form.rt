//! The forms of the command line.

ghost use Rattle.std.specs.Prelude.{◌≡◌, IfSome, IsTrue};
ghost use Rattle.text_parts.specs.Forms.{alone, form_of, gen_of, is_in_range, of_three, run_of};

use crate::number_within;

/// The most workers of a run.
const WORKER_LIMIT: u64 = 8;

/// The most commands of a script that is made.
const COUNT_LIMIT: u64 = 200;

/// What the words ask for: `play`, `run --workers N`, `check`, `gen SEED COUNT`, `convert`, `arbiter`, `auto`, `logical`,
/// `reprocess` or `help`.
#[derive(Clone, Copy)]
pub enum Form {
    Play,
    Run { workers: u32 },
    Check,
    Gen { seed: u64, count: u32 },
    Convert,
    Arbiter,
    Auto,
    Logical,
    Reprocess,
    Help,
}

/// A form of one word.
fn alone(word: &str) -> Option<Form>
    ensures form { result ≡ alone word.now }
    ensures range { IfSome result (λ form. IsTrue (is_in_range form)) }
{
    match word {
        "play" => Some(Form::Play),
        "check" => Some(Form::Check),
        "convert" => Some(Form::Convert),
        "arbiter" => Some(Form::Arbiter),
        "auto" => Some(Form::Auto),
        "logical" => Some(Form::Logical),
        "reprocess" => Some(Form::Reprocess),
        "help" => Some(Form::Help),
        _ => None,
    }
}

/// A run with so many workers, 1 to 8.
fn run_of(workers: &str) -> Option<Form>
    ensures form { result ≡ run_of workers.now }
    ensures range { IfSome result (λ form. IsTrue (is_in_range form)) }
{
    let workers = number_within(workers.as_bytes(), 1, WORKER_LIMIT)?;
    Some(Form::Run {
        workers: workers as u32,
    })
}

/// A script made from a seed, with at most 200 commands.
fn gen_of(seed: &str, count: &str) -> Option<Form>
    ensures form { result ≡ gen_of seed.now count.now }
    ensures range { IfSome result (λ form. IsTrue (is_in_range form)) }
{
    let seed = number_within(seed.as_bytes(), 0, u64::MAX)?;
    let count = number_within(count.as_bytes(), 0, COUNT_LIMIT)?;
    Some(Form::Gen {
        seed,
        count: count as u32,
    })
}

/// A form of three words.
fn of_three(first: &str, second: &str, third: &str) -> Option<Form>
    ensures form { result ≡ of_three first.now second.now third.now }
    ensures range { IfSome result (λ form. IsTrue (is_in_range form)) }
{
    match (first, second) {
        ("run", "--workers") => run_of(third),
        ("gen", _) => gen_of(second, third),
        _ => None,
    }
}

/// The form that the words have. There are no other spellings of a form, and no abbreviations.
pub fn form_of(words: &[&str]) -> Option<Form>
    ensures form { result ≡ form_of words.now }
    ensures range { IfSome result (λ form. IsTrue (is_in_range form)) }
{
    match words {
        [word] => alone(word),
        [first, second, third] => of_three(first, second, third),
        _ => None,
    }
}
