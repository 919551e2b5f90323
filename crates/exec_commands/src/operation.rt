//! The operations that the key `op` names.
ghost use Rattle.std.specs.Prelude.{◌≡◌};
ghost use Rattle.exec_commands.specs.Lines.{command_words, other_words, operation_in, operation_named};

/// An operation that the key `op` of a line names.
#[derive(Clone, Copy)]
pub enum Operation {
    Register,
    Unregister,
    SetParams,
    Exec,
    Recur,
    Cancel,
    Withdraw,
    Forget,
    List,
    Info,
    History,
    Drain,
    Watch,
    Meta,
    Tidy,
}

fn command_named(word: &str) -> Option<Operation>
    ensures { result ≡ operation_in command_words word.now }
{
    if word == "register" {
        Some(Operation::Register)
    } else if word == "unregister" {
        Some(Operation::Unregister)
    } else if word == "params" {
        Some(Operation::SetParams)
    } else if word == "exec" {
        Some(Operation::Exec)
    } else if word == "recur" {
        Some(Operation::Recur)
    } else if word == "cancel" {
        Some(Operation::Cancel)
    } else if word == "withdraw" {
        Some(Operation::Withdraw)
    } else if word == "forget" {
        Some(Operation::Forget)
    } else {
        None
    }
}

fn other_named(word: &str) -> Option<Operation>
    ensures { result ≡ operation_in other_words word.now }
{
    if word == "list" {
        Some(Operation::List)
    } else if word == "info" {
        Some(Operation::Info)
    } else if word == "history" {
        Some(Operation::History)
    } else if word == "drain" {
        Some(Operation::Drain)
    } else if word == "watch" {
        Some(Operation::Watch)
    } else if word == "meta" {
        Some(Operation::Meta)
    } else if word == "tidy" {
        Some(Operation::Tidy)
    } else {
        None
    }
}

/// The operation with this name.
pub fn operation_named(word: &str) -> Option<Operation>
    ensures { result ≡ operation_named word.now }
{
    match command_named(word) {
        Some(operation) => Some(operation),
        None => other_named(word),
    }
}
