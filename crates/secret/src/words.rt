// The words of the command line.
use crate::sets::Choice;
use error_codes::ByteField;

/// What is to be done.
#[derive(Clone, Copy, Drop)]
pub(crate) enum Task {
    /// Print the help.
    Help,
    /// Print the version.
    Version,
    /// Split a secret.
    Split(Choice),
    /// Combine shares.
    Combine,
}

/// What the words say, of which the first is the program's name, if they say anything.
pub(crate) fn task_of(words: &[String]) -> Option<Task> {
    if words.len() < 2 {
        return None;
    }
    match (words[1].as_str(), words.len()) {
        ("--help", 2) => Some(Task::Help),
        ("--version", 2) => Some(Task::Version),
        ("combine", 2) => Some(Task::Combine),
        ("split", _) => options_of(&words[2..]),
        _ => None,
    }
}

// What the options of `split` say: each has a value, and the last of those that stand twice counts.
fn options_of(words: &[String]) -> Option<Task> {
    if words.len() % 2 != 0 {
        return None;
    }
    let mut choice = Choice {
        field: ByteField::Rijndael,
        needed: 0,
        count: 0,
    };
    'options: for place in 0..words.len() / 2 {
        let value = words[2 * place + 1].as_str();
        match words[2 * place].as_str() {
            "--shares" => choice.count = value.parse::<u8>().ok()?,
            "--needed" => choice.needed = value.parse::<u8>().ok()?,
            "--field" => choice.field = field_named(value)?,
            _ => return None,
        }
    }
    if choice.needed == 0 || choice.count == 0 {
        return None;
    }
    Some(Task::Split(choice))
}

// The field of that name.
fn field_named(name: &str) -> Option<ByteField> {
    match name {
        "aes" => Some(ByteField::Rijndael),
        "gfshare" => Some(ByteField::Qr),
        _ => None,
    }
}
