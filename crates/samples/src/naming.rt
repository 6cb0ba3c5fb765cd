// Settings and answers in words, as strings, since a check compares texts.
ghost use Rattle.std.specs.Prelude.{◌≡◌, IfOk, string_bytes};
ghost use Rattle.samples.specs.Naming.{settings_name, answer_name};

use refusal::Refusal;
use settings::Settings;
use std::alloc::{AllocError, Global};

// What is checked, and for which settings.
pub fn of(heap: Global, what: &str, settings: &Settings) -> Result<String, AllocError>
    ensures { IfOk result (λ text. string_bytes text ≡ settings_name what.now settings.now) }
{
    let Settings {
        mode,
        constellation,
        rate,
        ..
    } = settings;
    format!(in heap; "{what}, {mode} {constellation} {rate}")
}

pub fn of_answer(heap: Global, answer: Result<(), Refusal>) -> Result<String, AllocError>
    ensures { IfOk result (λ text. string_bytes text ≡ answer_name answer) }
{
    match answer {
        Ok(()) => String::from_str(heap, "accepted"),
        Err(refusal) => format!(in heap; "{refusal}"),
    }
}
