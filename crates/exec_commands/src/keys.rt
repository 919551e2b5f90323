//! Texts and numbers under the keys of a line.
ghost use Rattle.std.specs.Prelude.{◌≡◌, Ok, Err, IfOk, IfErr, ◌≢◌};
ghost use Rattle.serde_json.specs.View.{view};
ghost use Rattle.exec_commands.specs.Keys.{text_at, typed, natural, number_at, number_or, number_there};
ghost use Rattle.ocf_model.specs.declared.refusal.Refusal.TheVariants.{Memory};

use ocf_model::Refusal;
use serde_json::Value;

/// The text under a key.
pub fn text_at<'a>(line: &'a Value, key: &str) -> Result<&'a str, Refusal>
    ensures ok { IfOk result (λ text. text_at key.now (view line.now) ≡ Ok text.now) }
    ensures err { IfErr result (λ e. text_at key.now (view line.now) ≡ Err e) }
    ensures memory { IfErr result (λ e. e ≢ Memory) }
{
    match line.get(key) {
        Some(found) => match found.as_str() {
            Some(text) => Ok(text),
            None => Err(Refusal::Syntax),
        },
        None => Err(Refusal::Syntax),
    }
}

fn natural(found: &Value) -> Result<u64, Refusal>
    ensures value { result ≡ typed (natural (view found.now)) }
    ensures memory { IfErr result (λ e. e ≢ Memory) }
{
    match found.as_u64() {
        Some(number) => Ok(number),
        None => Err(Refusal::Syntax),
    }
}

/// The number under a key.
pub fn number_at(line: &Value, key: &str) -> Result<u64, Refusal>
    ensures value { result ≡ number_at key.now (view line.now) }
    ensures memory { IfErr result (λ e. e ≢ Memory) }
{
    match line.get(key) {
        Some(found) => natural(found),
        None => Err(Refusal::Syntax),
    }
}

/// The number under a key; `None` if the key is absent or holds anything else.
pub fn number_there(line: &Value, key: &str) -> Option<u64>
    ensures { result ≡ number_there key.now (view line.now) }
{
    match line.get(key) {
        Some(found) => found.as_u64(),
        None => None,
    }
}

/// The number under a key, or `default` if the key is absent.
pub fn number_or(line: &Value, key: &str, default: u64) -> Result<u64, Refusal>
    ensures value { result ≡ number_or default key.now (view line.now) }
    ensures memory { IfErr result (λ e. e ≢ Memory) }
{
    match line.get(key) {
        Some(found) => natural(found),
        None => Ok(default),
    }
}
